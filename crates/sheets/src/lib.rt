// The sheet that table records are written on: the declared names and the draft; and how a record is judged by it.

#![tactic(auto)]

mod judging;
mod making;
mod numbers;
mod sheet;

pub use sheet::Sheet;
