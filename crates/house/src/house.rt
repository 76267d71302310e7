ghost use Rattle.std.specs.Prelude.{◌≡◌, true, false};
ghost use Rattle.assignments.specs.Assigned.{assigned};
ghost use Rattle.lawful.specs.Checking.{is_lawful};
ghost use Rattle.rules.specs.Reaching.{reaches_barred_lem};

use assignments::Assignments;
use house_parts::{Leases, Sessions};
use stores::{BitRows, PairSet};
use tables::Draft;

// A house: the lawful draft that opened it, and what changes while it runs.
// No role reaches a permission that is barred to it.
// Each call but `open` says that it leaves the draft: a struct of its own for what changes would be no plainer.
// Answer, state and draft are three clauses by name, so that a proof takes the one it wants. The numbers of a call are
// passed one by one, as `Call` has them.
#[derive(Drop)]
pub struct House<S: PairSet, T: PairSet> {
    pub(crate) draft: Draft,
    pub(crate) user_roles: BitRows,
    pub(crate) assignments: Assignments<S, T>,
    pub(crate) leases: Leases,
    pub(crate) sessions: Sessions,
    ghost lawful: { is_lawful draft ≡ true },
    ghost sound: { reaches_barred_lem draft (assigned S.PairSet.pairs T.PairSet.pairs assignments) ≡ false },
}
