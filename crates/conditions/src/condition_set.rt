ghost use Rattle.std.specs.Prelude.{◌≡◌};
ghost use Rattle.rows.specs.Rows.{numbers};
ghost use Rattle.conditions.specs.Bounded.{given_bounded};
ghost use Rattle.conditions.specs.Sources.{given};

use crate::conditions::Conditions;
use rows::Row;

// A set of conditions given outright: those in it hold.
#[derive(Clone, Copy)]
pub struct ConditionSet {
    members: Row,
}

impl ConditionSet {
    pub fn new(members: Row) -> ConditionSet
        ensures { given result ≡ numbers members }
    {
        ConditionSet { members }
    }
}

impl Conditions for ConditionSet {
    ghost holding = { given };

    ghost bounded = { given_bounded };

    fn holds(&self, condition: u32) -> bool {
        self.members.contains(condition)
    }
}
