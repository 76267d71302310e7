ghost use Rattle.std.specs.Prelude.{◌≡◌, ℕ, ◌<◌, Bool, not, ◌&&◌, if◌then◌else◌, Decides, nat_eq};
ghost use Rattle.search.specs.Below.{some_below, all_below};
ghost use Rattle.search.specs.Firsts.{first_below};
ghost use Rattle.rows.specs.Numbers.{in_row, no_numbers, with_number, without_number, both, outside, beyond, within, agree, two_below};
ghost use Rattle.rows.specs.Rows.{numbers, empty_row, row_flipped, row_with};

// The numbers that a set can hold are below this.
pub const NUMBERS: u32 = 32;

// A set of numbers below 32: a bit for each.
#[derive(Clone, Copy, PartialEq, Eq)]
pub struct Row {
    bits: u32,
}

impl Row {
    // The empty set.
    pub fn new() -> Row
        ensures empty { numbers result ≡ no_numbers }
        ensures exact { result ≡ empty_row }
    {
        Row { bits: 0 }
    }

    pub fn contains(self, number: u32) -> bool
        ensures { result ≡ numbers self number }
    {
        number < NUMBERS && (self.bits >> number) & 1 == 1
    }

    // The set with one number put in if it was absent, else taken out.
    fn flipped(self, number: u32) -> Row
        requires { number < 32 }
        ensures each { (k : ℕ) → numbers result k ≡ (if nat_eq number k then not (numbers self k) else numbers self k) }
        ensures exact { result ≡ row_flipped self number }
    {
        Row {
            bits: self.bits ^ (1 << number),
        }
    }

    // Puts the number in; tells whether it was absent, and false where it is out of range.
    pub fn insert(&mut self, number: u32) -> bool
        ensures answer { result ≡ (in_row number && not (numbers self.old number)) }
        ensures after { numbers self.new ≡ with_number (numbers self.old) number }
        ensures exact { self.new ≡ row_with self.old number }
    {
        if number >= NUMBERS || self.contains(number) {
            return false;
        }
        *self = self.flipped(number);
        true
    }

    // Takes the number out; tells whether it was there.
    pub fn remove(&mut self, number: u32) -> bool
        ensures answer { result ≡ numbers self.old number }
        ensures after { numbers self.new ≡ without_number (numbers self.old) number }
    {
        if !self.contains(number) {
            return false;
        }
        *self = self.flipped(number);
        true
    }

    // The numbers in both sets.
    pub fn and(self, other: Row) -> Row
        ensures { numbers result ≡ both (numbers self) (numbers other) }
    {
        Row {
            bits: self.bits & other.bits,
        }
    }

    // The numbers of this set that are not in the other.
    pub fn without(self, other: Row) -> Row
        ensures { numbers result ≡ outside (numbers self) (numbers other) }
    {
        Row {
            bits: self.bits & (self.bits ^ other.bits),
        }
    }

    // The least number in the set.
    pub fn first(self) -> Option<u32>
        ensures { result ≡ first_below (numbers self) 32 }
    {
        if self.bits == 0 {
            None
        } else {
            Some(self.bits.trailing_zeros())
        }
    }

    // Whether some number is in both sets.
    pub fn meets(self, other: Row) -> bool
        ensures { result ≡ some_below (both (numbers self) (numbers other)) 32 }
    {
        self.bits & other.bits != 0
    }

    // Whether two different numbers are in the set.
    pub fn has_two(self) -> bool
        ensures { result ≡ two_below (numbers self) 32 }
    {
        self.bits.count_ones() > 1
    }

    // Whether some number of the set is not below `limit`.
    pub fn goes_beyond(self, limit: u32) -> bool
        ensures { result ≡ some_below (beyond (numbers self) limit) 32 }
    {
        (limit..NUMBERS).any(|number| self.contains(number))
    }

    // Whether every number of the set is in the other.
    pub fn is_within(self, other: Row) -> bool
        ensures { result ≡ all_below (within (numbers self) (numbers other)) 32 }
    {
        self.and(other).equals(self)
    }

    // Whether the two sets hold the same numbers: `==`, said of the numbers and not of the bits.
    pub fn equals(self, other: Row) -> bool
        ensures exact { result ≡ all_below (agree (numbers self) (numbers other)) 32 }
        ensures words { Decides result (numbers self ≡ numbers other) }
    {
        self == other
    }
}
