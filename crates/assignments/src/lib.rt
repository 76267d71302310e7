// What is assigned in a running house: two sets of pairs of any make, and what they reach.

#![tactic(auto)]

mod assignments;
mod changing;
mod paths;
mod reaching;

pub use assignments::Assignments;
