ghost use Rattle.std.specs.Prelude.{◌≡◌};
ghost use Rattle.search.specs.Firsts.{first_pair, FirstPair, Computes};

// The first pair that passes the test, by its left number and then by its right. `hit` is whatever the test computes.
pub fn first_hit<F: Fn(u32, u32) -> bool>(test: F, lefts: u32, rights: u32) -> Option<(u32, u32)>
    requires { F.IsAlwaysCallable test }
    ensures { (hit : _) → Computes (F.post test) lefts rights hit → (result ≡ first_pair hit lefts rights) × FirstPair hit lefts rights result }
{
    for left in 0..lefts {
        for right in 0..rights {
            if test(left, right) {
                return Some((left, right));
            }
        }
    }
    None
}
