// The calls of a running house, and the rules by which each is answered and what it changes.

#![tactic(auto)]

mod call;
mod laws;

pub use call::{Call, Event, LeaseNumbers, Spot};
pub use laws::{answers_are_deserved, granted_by_a_path, one_column_tells, pairs_stay_sound};
