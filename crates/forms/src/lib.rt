// The fields of a record against the columns of its kind: what they say, and whether they are well written.

#![tactic(auto)]

mod form;
mod spelling;

pub use form::Form;
pub use spelling::is_spelt;
