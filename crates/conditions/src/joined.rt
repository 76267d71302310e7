ghost use Rattle.std.specs.Prelude.{◌≡◌};
ghost use Rattle.conditions.specs.Bounded.{split_bounded};
ghost use Rattle.conditions.specs.Sources.{joined, split_at};

use crate::conditions::Conditions;

// Two sources as one: the conditions below the cut are those of the first, the rest those of the second.
#[derive(Drop)]
pub struct Joined<'a, C, D> {
    cut: u32,
    below: &'a C,
    above: &'a D,
}

impl<'a, C: Conditions, D: Conditions> Joined<'a, C, D> {
    pub fn new(cut: u32, below: &'a C, above: &'a D) -> Joined<'a, C, D>
        ensures { joined C.Conditions.holding D.Conditions.holding result ≡ split_at cut (C.Conditions.holding below.now) (D.Conditions.holding above.now) }
    {
        Joined { cut, below, above }
    }
}

impl<'a, C: Conditions, D: Conditions> Conditions for Joined<'a, C, D> {
    ghost holding = { joined C.Conditions.holding D.Conditions.holding };

    ghost bounded = { λ s. split_bounded s.cut _ _ (C.Conditions.bounded s.below.now) (D.Conditions.bounded s.above.now) };

    fn holds(&self, condition: u32) -> bool {
        if condition < self.cut {
            self.below.holds(condition)
        } else {
            self.above.holds(condition)
        }
    }
}
