// The changes of the two assignment relations, each under a lease, which is lent and stays with its holder.
ghost use Rattle.std.specs.Prelude.{◌≡◌, true, is_ok};
ghost use Rattle.refusals.specs.Said.{said};
ghost use Rattle.rules.specs.Spots.{known};
ghost use Rattle.house.specs.Changing.{change_reasons, assigning, after_assigning, revoking, after_revoking};
ghost use Rattle.house.specs.Views.{draft_of, state_of, answer_of, state_after};

use crate::house::House;
use crate::lease::Lease;
use refusals::Refusal;
use rules::{Call, Spot};
use spots::{is_in_task, is_known, is_prohibited};
use stores::PairSet;

impl<S: PairSet, T: PairSet> House<S, T> {
    // The reasons that concern every change.
    fn check_change(&self, lease: &Lease, spot: Spot) -> Result<(), Refusal>
        ensures answer { said result ≡ change_reasons (draft_of self.now) (state_of self.now) lease.now.numbers spot }
        ensures known { is_ok result ≡ true → known (draft_of self.now) spot ≡ true }
    {
        if !self.is_valid(lease.numbers) {
            return Err(Refusal::InvalidLease);
        }
        if !is_known(&self.draft, spot) {
            return Err(Refusal::NoSuchNumber);
        }
        if is_prohibited(&self.draft, spot) {
            return Err(Refusal::ProhibitedPair);
        }
        if !is_in_task(&self.draft, lease.numbers.unit, spot) {
            return Err(Refusal::OutsideTask);
        }
        Ok(())
    }

    // Assigns the pair, unless a reason applies; of 25 the device role of the spot is looked at alone.
    pub fn assign(&mut self, lease: &Lease, spot: Spot) -> Result<(), Refusal>
        ensures column { said result ≡ assigning (draft_of self.old) (state_of self.old) lease.now.numbers spot }
        ensures left { state_of self.new ≡ after_assigning (draft_of self.old) (state_of self.old) lease.now.numbers spot }
        ensures answer { said result ≡ answer_of self.old (Call.Assign lease.now.numbers spot) }
        ensures after { state_of self.new ≡ state_after self.old (Call.Assign lease.now.numbers spot) }
        ensures same { draft_of self.new ≡ draft_of self.old }
    {
        self.check_change(lease, spot)?;
        if self.assignments.contains(spot) {
            return Err(Refusal::AlreadyAssigned);
        }
        if self.assignments.would_reach_barred(&self.draft, spot) {
            return Err(Refusal::WouldReachBarredPermission);
        }
        self.assignments.insert(spot);
        Ok(())
    }

    // Assigns the pair no more, unless a reason applies.
    pub fn revoke(&mut self, lease: &Lease, spot: Spot) -> Result<(), Refusal>
        ensures column { said result ≡ revoking (draft_of self.old) (state_of self.old) lease.now.numbers spot }
        ensures left { state_of self.new ≡ after_revoking (draft_of self.old) (state_of self.old) lease.now.numbers spot }
        ensures answer { said result ≡ answer_of self.old (Call.Revoke lease.now.numbers spot) }
        ensures after { state_of self.new ≡ state_after self.old (Call.Revoke lease.now.numbers spot) }
        ensures same { draft_of self.new ≡ draft_of self.old }
    {
        self.check_change(lease, spot)?;
        if !self.assignments.contains(spot) {
            return Err(Refusal::NotAssigned);
        }
        self.assignments.remove(spot);
        Ok(())
    }
}
