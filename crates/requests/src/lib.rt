// What a request does once its numbers are known: the calls that it makes on a running house, or what it sets on the
// sensor board or the week clock.

#![tactic(auto)]

mod asked;
mod asking;
mod changing;
mod laws;
mod site;
mod starting;
mod telling;

pub use asked::{Asked, Change};
pub use laws::{changes_stand_alone, checks_see_both, leases_come_back};
pub use site::Site;
