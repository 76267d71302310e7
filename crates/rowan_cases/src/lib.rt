// Rowan House, the worked example: its cases as one table, proved against the rules.

#![tactic(auto)]

mod cases;

pub use cases::cases_hold;
