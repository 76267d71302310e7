// Searches over numbers and pairs of numbers, and what they find.

#![tactic(auto)]

mod hits;

pub use hits::first_hit;
