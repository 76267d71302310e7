// A change under a lease of its own.
ghost use Rattle.std.specs.Prelude.{◌≡◌};
ghost use Rattle.refusals.specs.Said.{said};
ghost use Rattle.house.specs.Views.{draft_of, state_of, answer_of, state_after};
ghost use Rattle.runs.specs.Runs.{final, log};
ghost use Rattle.requests.specs.Calls.{change_call, change_calls};
ghost use Rattle.requests.specs.Answering.{outcome};

use crate::asked::Change;
use house::{House, Lease};
use refusals::Refusal;
use rules::Spot;
use stores::PairSet;

// Makes the change under the lease.
fn change_under<S: PairSet, T: PairSet>(
    house: &mut House<S, T>,
    lease: &Lease,
    change: Change,
    spot: Spot,
) -> Result<(), Refusal>
    ensures answer { said result ≡ answer_of house.old (change_call change lease.now.numbers spot) }
    ensures after { state_of house.new ≡ state_after house.old (change_call change lease.now.numbers spot) }
    ensures same { draft_of house.new ≡ draft_of house.old }
{
    match change {
        Change::Assign => house.assign(lease, spot),
        Change::Revoke => house.revoke(lease, spot),
    }
}

// Acquires the lease of the unit for the user, makes the change and releases the lease, on every way.
// The answer is the first refusal.
pub(crate) fn change_at<S: PairSet, T: PairSet>(
    house: &mut House<S, T>,
    user: u32,
    unit: u32,
    change: Change,
    spot: Spot,
) -> Result<(), Refusal>
    ensures answer { said result ≡ outcome (log (draft_of house.old) (state_of house.old) (change_calls (draft_of house.old) (state_of house.old) user unit change spot)) }
    ensures after { state_of house.new ≡ final (draft_of house.old) (state_of house.old) (change_calls (draft_of house.old) (state_of house.old) user unit change spot) }
    ensures same { draft_of house.new ≡ draft_of house.old }
{
    let lease = house.acquire(unit, user)?;
    let changed = change_under(house, &lease, change, spot);
    let released = house.release(lease);
    changed?;
    released
}
