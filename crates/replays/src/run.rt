ghost use Rattle.std.specs.Prelude.{◌≡◌};
ghost use Rattle.replays.specs.declared.run.Failure.TheVariants.{Refused, NoMemory};

use crate::held::HeldLeases;
use house::House;
use refusals::Refusal;
use rules::Event;
use std::alloc::AllocError;
use stores::PairSet;

// The two sets of pairs of a house.
#[derive(Drop)]
pub struct Stores<S, T> {
    pub role_pairs: S,
    pub permissions: T,
}

// Why no call was made.
#[derive(Clone, Copy)]
pub enum Failure {
    // The draft may not open.
    Refused(Refusal),
    // There is no memory for the history.
    NoMemory,
}

impl From<Refusal> for Failure {
    ghost from_gives = { λ refusal failure. failure ≡ Refused refusal };

    fn from(refusal: Refusal) -> Failure {
        Failure::Refused(refusal)
    }
}

impl From<AllocError> for Failure {
    ghost from_gives = { λ _ failure. failure ≡ NoMemory };

    fn from(_error: AllocError) -> Failure {
        Failure::NoMemory
    }
}

// What a run leaves: the house, the leases that are still out of it, and the history.
pub struct Run<S: PairSet, T: PairSet> {
    pub house: House<S, T>,
    pub held: HeldLeases,
    pub history: Result<Vec<Event>, Failure>,
}
