// What an accepted table record does to the sheet.

#![tactic(auto)]

mod applying;
mod declaring;
mod listing;
mod relating;

pub use applying::apply;
