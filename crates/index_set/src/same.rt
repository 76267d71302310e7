ghost use Rattle.std.specs.Prelude.{◌≡◌, Bool, true};

// An item that can be told to be the same as another, whatever else the two hold: so it is no `PartialEq`.
pub trait Same {
    ghost alike: { Self → Self → Bool };

    fn same(&self, other: &Self) -> bool
        ensures { result ≡ alike self.now other.now };

    ghost reflexive: { (x : Self) → alike x x ≡ true };

    ghost symmetric: { (x y : Self) → alike x y ≡ alike y x };

    ghost transitive: { (x y z : Self) → alike x y ≡ true → alike y z ≡ true → alike x z ≡ true };
}
