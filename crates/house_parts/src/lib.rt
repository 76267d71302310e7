// What a running house keeps besides its pairs: to whom each lease is out, and the sessions that live; and which roles
// may not be active together.

#![tactic(auto)]

mod leases;
mod separation;
mod sessions;

pub use leases::{Leases, UNITS};
pub use separation::is_separated;
pub use sessions::{SESSIONS, Sessions};
