// Sets of pairs, left below 64 and right below 32: what they mean, rows of bits, and calls over any make.

#![tactic(auto)]

mod bit_rows;
mod pair;
mod pair_set;
mod whole_sets;

pub use bit_rows::BitRows;
pub use pair::Pair;
pub use pair_set::{LEFTS, PairSet, RIGHTS};
pub use rows::Row;
pub use whole_sets::{copy, fill, first_difference};
