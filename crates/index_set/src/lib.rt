// A set that keeps its items in the order in which they came, in memory that is lent to it.

#![tactic(auto)]

mod calls;
mod index_set;
mod insertion;
mod same;

pub use index_set::IndexSet;
pub use insertion::Insertion;
pub use same::Same;
