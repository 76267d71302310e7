// A set of pairs as the list of them, in memory that is lent to it.

#![tactic(auto)]

mod pair_list;

pub use pair_list::{PLACES, PairList};
