// What holds now, by condition; and the environment roles that it makes active.

#![tactic(auto)]

mod activation;
mod condition_set;
mod conditions;
mod holding;
mod joined;
mod sensor_board;
mod week_clock;
mod window;

pub use activation::active_roles;
pub use condition_set::ConditionSet;
pub use conditions::{CONDITION_COUNT, Conditions};
pub use holding::{conditions_now, is_within};
pub use joined::Joined;
pub use sensor_board::SensorBoard;
pub use week_clock::{LAST_MINUTE, WEEK_END, WeekClock};
