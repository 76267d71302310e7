// What tells which conditions hold: sensors the first, windows of the week the rest.
ghost use Rattle.std.specs.Prelude.{◌≡◌, ◌&&◌};
ghost use Rattle.refusals.specs.Said.{told};
ghost use Rattle.conditions.specs.Clocks.{minute_of, windows_of};
ghost use Rattle.conditions.specs.Limits.{is_window, accepted_if};
ghost use Rattle.conditions.specs.Sources.{sensed};
ghost use Rattle.rules.specs.Judging.{judge};
ghost use Rattle.requests.specs.Sites.{site_of, is_sensed, is_timed, holding, reported, given_window};
ghost use Rattle.requests.specs.Calls.{check_call};

use crate::site::Site;
use conditions::{Joined, SensorBoard, WeekClock};
use refusals::Refusal;
use stores::PairSet;

// The conditions below this are told by sensors, the rest by the clock.
const SENSED: u32 = 16;

// Takes a report on a condition that a sensor tells.
pub(crate) fn sense(board: &mut SensorBoard, condition: u32, holds: bool) -> Result<(), Refusal>
    ensures answer { result ≡ accepted_if (is_sensed condition) }
    ensures after { sensed board.new ≡ reported (sensed board.old) condition holds }
{
    if condition >= SENSED {
        return Err(Refusal::NoSuchNumber);
    }
    board.report(condition, holds)
}

// Gives its window to a condition that the clock tells.
pub(crate) fn set_window(
    clock: &mut WeekClock,
    condition: u32,
    from: u32,
    to: u32,
) -> Result<(), Refusal>
    ensures answer { result ≡ accepted_if (is_timed condition && is_window from to) }
    ensures minute { minute_of clock.new ≡ minute_of clock.old }
    ensures windows { windows_of clock.new ≡ given_window (windows_of clock.old) condition from to }
{
    if condition < SENSED {
        return Err(Refusal::NoSuchNumber);
    }
    clock.set_window(condition, from, to)
}

impl<S: PairSet, T: PairSet> Site<S, T> {
    // Whether the session may do the operation on the device, by sensors and clock.
    pub(crate) fn check(&self, session: u32, device: u32, operation: u32) -> Result<bool, Refusal>
        ensures { told result ≡ judge (site_of self.now).house (site_of self.now).state (check_call (holding (site_of self.now)) session device operation) }
    {
        let source = Joined::new(SENSED, &self.board, &self.clock);
        self.house.check_access(session, device, operation, &source)
    }
}
