// Sets of conditions: those that hold now, and whether all of some do.
ghost use Rattle.std.specs.Prelude.{◌≡◌};
ghost use Rattle.rows.specs.Rows.{numbers};
ghost use Rattle.conditions.specs.Active.{all_hold};

use crate::conditions::{CONDITION_COUNT, Conditions};
use rows::Row;

// The conditions that hold now, as a set.
pub fn conditions_now<C: Conditions>(source: &C) -> Row
    ensures { numbers result ≡ C.holding source.now }
{
    let mut conditions = Row::new();
    for condition in 0..CONDITION_COUNT {
        if source.holds(condition) {
            conditions.insert(condition);
        }
    }
    conditions
}

// Whether every number of one set is in the other: the row's own test, by the word of the rules.
pub fn is_within(wanted: Row, there: Row) -> bool
    ensures { result ≡ all_hold (numbers wanted) (numbers there) }
{
    wanted.is_within(there)
}
