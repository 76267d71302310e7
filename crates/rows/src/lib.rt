// Sets of numbers below 32.

#![tactic(auto)]

mod row;

pub use row::{NUMBERS, Row};
