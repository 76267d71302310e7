ghost use Rattle.std.specs.Prelude.{◌≡◌, ℕ, Bool, true};
ghost use Rattle.conditions.specs.Limits.{is_condition};

// Conditions are numbered below this.
pub const CONDITION_COUNT: u32 = 32;

// A source that tells which conditions hold now. A number that is no condition never holds.
pub trait Conditions {
    // Which conditions hold.
    ghost holding: { Self → ℕ → Bool };

    ghost bounded: { (s : Self) (k : ℕ) → holding s k ≡ true → is_condition k ≡ true };

    fn holds(&self, condition: u32) -> bool
        ensures { result ≡ holding self.now condition };
}
