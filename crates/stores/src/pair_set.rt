ghost use Rattle.std.specs.Prelude.{◌≡◌, ℕ, Bool, true, not, ◌&&◌};
ghost use Rattle.stores.specs.Pairs.{in_bounds, no_pairs, with_pair, without_pair};

use rows::NUMBERS;

// The left number of a pair is below this, and its right number below the next.
pub const LEFTS: u32 = 64;

pub const RIGHTS: u32 = NUMBERS;

// A set of pairs. A pair outside the bounds is never in it.
// The calls take the two numbers apart and no `Pair`, as loops over them and rows of bits have them.
pub trait PairSet {
    // Which pairs are in the set, by left and right number.
    ghost pairs: { Self → ℕ → ℕ → Bool };

    ghost bounded: { (s : Self) (a b : ℕ) → pairs s a b ≡ true → in_bounds a b ≡ true };

    fn contains(&self, left: u32, right: u32) -> bool
        ensures { result ≡ pairs self.now left right };

    // Puts the pair in; tells whether it was absent, and false where it is out of bounds.
    fn insert(&mut self, left: u32, right: u32) -> bool
        ensures answer { result ≡ (in_bounds left right && not (pairs self.old left right)) }
        ensures after { pairs self.new ≡ with_pair (pairs self.old) left right };

    // Takes the pair out; tells whether it was there.
    fn remove(&mut self, left: u32, right: u32) -> bool
        ensures answer { result ≡ pairs self.old left right }
        ensures after { pairs self.new ≡ without_pair (pairs self.old) left right };

    fn clear(&mut self)
        ensures { pairs self.new ≡ no_pairs };
}
