// One running house over any two sets of pairs: its leases, its changes, its sessions and the check of an access.

#![tactic(auto)]

mod access;
mod changes;
mod house;
mod lease;
mod leasing;
mod opening;
mod sitting;

pub use house::House;
pub use lease::Lease;
