ghost use Rattle.std.specs.Prelude.{◌≡◌};
ghost use Rattle.rows.specs.Numbers.{no_numbers};
ghost use Rattle.conditions.specs.Bounded.{sensed_bounded};
ghost use Rattle.conditions.specs.Limits.{is_condition, accepted_if};
ghost use Rattle.conditions.specs.Sources.{sensed, with_report};

use crate::conditions::{CONDITION_COUNT, Conditions};
use refusals::Refusal;
use rows::Row;

// The last report on each condition: those reported true hold.
#[derive(Clone, Copy)]
pub struct SensorBoard {
    // A row, and no `ConditionSet`: a report changes it by the row's own calls.
    reported: Row,
}

impl SensorBoard {
    // No condition was reported true.
    pub fn new() -> SensorBoard
        ensures { sensed result ≡ no_numbers }
    {
        SensorBoard {
            reported: Row::new(),
        }
    }

    // Takes a report on one condition; a number that is no condition is refused.
    pub fn report(&mut self, condition: u32, holds: bool) -> Result<(), Refusal>
        ensures answer { result ≡ accepted_if (is_condition condition) }
        ensures after { sensed self.new ≡ with_report (sensed self.old) condition holds }
    {
        if condition >= CONDITION_COUNT {
            return Err(Refusal::NoSuchNumber);
        }
        if holds {
            self.reported.insert(condition);
        } else {
            self.reported.remove(condition);
        }
        Ok(())
    }
}

impl Conditions for SensorBoard {
    ghost holding = { sensed };

    ghost bounded = { sensed_bounded };

    fn holds(&self, condition: u32) -> bool {
        self.reported.contains(condition)
    }
}
