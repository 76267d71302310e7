// Whole runs of a house: the leases that a run takes are held for it, and what comes of it keeps the law of runs.

#![tactic(auto)]

mod acting;
mod comparing;
mod held;
mod keeper;
mod replaying;
mod run;

pub use comparing::{Comparison, compare};
pub use held::HeldLeases;
pub use keeper::Keeper;
pub use replaying::replay;
pub use run::{Failure, Run, Stores};
