// Two houses side by side.
ghost use Rattle.replays.specs.Agreeing.{Compared};

use crate::replaying::replay;
use crate::run::{Run, Stores};
use rules::Call;
use std::alloc::Global;
use stores::PairSet;
use tables::Draft;

// What two runs from the same draft left.
pub struct Comparison<S: PairSet, T: PairSet, U: PairSet, V: PairSet> {
    pub one: Run<S, T>,
    pub two: Run<U, V>,
}

// Opens a house over each of the two pairs of sets with the same draft, and makes the calls on the one and the others on
// the other. The same calls get the same answers and leave the same pairs, leases and sessions, whatever the makes;
// and so do, unit by unit, two lists that have the same calls of each unit, where no answer is 25.
pub fn compare<S: PairSet, T: PairSet, U: PairSet, V: PairSet>(
    heap: Global,
    draft: &Draft,
    one: Stores<S, T>,
    calls: &[Call],
    two: Stores<U, V>,
    others: &[Call],
) -> Comparison<S, T, U, V>
    ensures { Compared draft.now calls.now others.now result }
{
    Comparison {
        one: replay(heap, one, draft, calls),
        two: replay(heap, two, draft, others),
    }
}
