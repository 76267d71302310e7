ghost use Rattle.std.specs.Prelude.{◌≡◌};
ghost use Rattle.values.specs.Numbers.{number_of};

const MOST_DIGITS: usize = 6;

// The number that the bytes write in 1 to 6 digits, without leading zero; none where they are badly written.
pub fn number(part: &[u8]) -> Option<u32>
    ensures { result ≡ number_of part.now }
{
    if part.len() > MOST_DIGITS || matches!(part, [] | [b'0', _, ..]) {
        return None;
    }
    let mut n = 0;
    // A loop and no fold: no bound is supplied for what a closure adds up.
    for &b in part {
        n = 10 * n + char::from(b).to_digit(10)?;
    }
    Some(n)
}
