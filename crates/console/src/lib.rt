// One box from text to answers: records change its tables or ask something of its house.

#![tactic(auto)]

mod acting;
mod asking;
mod console;
mod doing;
mod reading;
mod reply;

pub use console::Console;
pub use reply::{Reply, Unread};
