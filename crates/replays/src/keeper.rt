ghost use Rattle.house.specs.Views.{draft_of, leases_out};
ghost use Rattle.replays.specs.Holding.{held_of};
ghost use Rattle.replays.specs.Ties.{Tied};

use crate::held::HeldLeases;
use house::House;
use stores::PairSet;

// A house with the leases that are out of it.
pub struct Keeper<S: PairSet, T: PairSet> {
    pub(crate) house: House<S, T>,
    pub(crate) held: HeldLeases,
    ghost tied: { Tied (draft_of house).number (leases_out house) (held_of held) },
}
