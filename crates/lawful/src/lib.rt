// When a draft may open: each rule of a lawful draft, the check of all of them, and the unit whose task holds a pair.

#![tactic(auto)]

mod breach;
mod check;
mod lists;
mod relations;
mod rule;
mod task;

pub use breach::first_breach;
pub use check::check_draft;
pub use relations::is_parted;
pub use rule::Rule;
pub use task::{Task, unit_of};
