// Runs of a house: lists of calls, their histories, and what holds of every run.

#![tactic(auto)]

mod laws;
mod replaying;
mod sound;

pub use laws::{
    answers_follow_the_rules, changes_came_under_lease, counts_add_up, history_tells_the_state,
    law_of_runs, nothing_forbidden_remains, order_among_units_is_free, refusals_were_deserved,
    uses_had_a_path,
};
pub use replaying::{Machine, replay};
pub use sound::{SoundMachine, replay_sound};
