// The names that are declared, table by table.

#![tactic(auto)]

mod calls;
mod names;
mod register;

pub use names::{NAME_PLACES, Names};
