ghost use Rattle.std.specs.Prelude.{◌≡◌, ◌&&◌};
ghost use Rattle.rows.specs.Numbers.{no_numbers};
ghost use Rattle.conditions.specs.Bounded.{timed_bounded};
ghost use Rattle.conditions.specs.Clocks.{minute_of, windows_of, timed, timed_at, no_windows, moved, with_window};
ghost use Rattle.conditions.specs.Limits.{is_condition, is_minute, is_window, accepted_if};
ghost use Rattle.conditions.specs.Windows.{InWindow};

use crate::conditions::{CONDITION_COUNT, Conditions};
use crate::window::Window;
use refusals::Refusal;

// The last minute of the week, counted from 0.
pub const LAST_MINUTE: u32 = 10_079;
// No window ends later.
pub const WEEK_END: u32 = 10_080;

const WINDOW_COUNT: usize = CONDITION_COUNT as usize;

// The minute of the week, and a window for each condition: those whose window it is in hold.
#[derive(Clone, Copy)]
pub struct WeekClock {
    minute: u32,
    windows: [Window; WINDOW_COUNT],
}

impl WeekClock {
    // At minute 0, with every window empty.
    pub fn new() -> WeekClock
        ensures minute { minute_of result ≡ 0 }
        ensures windows { windows_of result ≡ no_windows }
        ensures holding { timed result ≡ no_numbers }
    {
        WeekClock {
            minute: 0,
            windows: [Window { from: 0, to: 0 }; WINDOW_COUNT],
        }
    }

    // Moves the clock to a minute of the week; any other number is refused.
    pub fn set_minute(&mut self, minute: u32) -> Result<(), Refusal>
        ensures answer { result ≡ accepted_if (is_minute minute) }
        ensures minute { minute_of self.new ≡ moved (minute_of self.old) minute }
        ensures windows { windows_of self.new ≡ windows_of self.old }
        ensures after { timed self.new ≡ timed_at (moved (minute_of self.old) minute) (windows_of self.old) }
    {
        if minute > LAST_MINUTE {
            return Err(Refusal::NoSuchNumber);
        }
        self.minute = minute;
        Ok(())
    }

    // Gives a condition its window; a number out of range is refused.
    pub fn set_window(&mut self, condition: u32, from: u32, to: u32) -> Result<(), Refusal>
        ensures answer { result ≡ accepted_if (is_condition condition && is_window from to) }
        ensures minute { minute_of self.new ≡ minute_of self.old }
        ensures windows { windows_of self.new ≡ with_window (windows_of self.old) condition from to }
        ensures after { timed self.new ≡ timed_at (minute_of self.old) (with_window (windows_of self.old) condition from to) }
    {
        if condition >= CONDITION_COUNT || from > LAST_MINUTE || to > WEEK_END {
            return Err(Refusal::NoSuchNumber);
        }
        self.windows[condition as usize] = Window { from, to };
        Ok(())
    }
}

impl Conditions for WeekClock {
    ghost holding = { timed };

    ghost bounded = { timed_bounded };

    fn holds(&self, condition: u32) -> bool
        ensures exact { result ≡ timed self.now condition }
        ensures words { InWindow (minute_of self.now) (windows_of self.now condition).from (windows_of self.now condition).to result }
    {
        self.windows
            .get(condition as usize)
            .is_some_and(|window| window.contains(self.minute))
    }
}
