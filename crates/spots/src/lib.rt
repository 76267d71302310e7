// What the draft of a house says of a place in one of the two assignment relations.

#![tactic(auto)]

mod asking;

pub use asking::{is_in_task, is_known, is_prohibited};
