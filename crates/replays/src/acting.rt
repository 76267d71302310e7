// Every call of a running house, under the leases that are held for it.
ghost use Rattle.std.specs.Prelude.{◌≡◌};
ghost use Rattle.refusals.specs.Said.{said};
ghost use Rattle.house.specs.Views.{answer_of, state_after};
ghost use Rattle.replays.specs.Keeping.{draft_in, state_in};

use crate::keeper::Keeper;
use conditions::ConditionSet;
use refusals::{Answer, Refusal};
use rows::Row;
use rules::{Call, LeaseNumbers, Spot};
use runs::Machine;
use stores::PairSet;

// That the draft stays is a clause of each call.
impl<S: PairSet, T: PairSet> Keeper<S, T> {
    // An accepted lease is held.
    fn acquire(&mut self, unit: u32, user: u32) -> Result<(), Refusal>
        ensures answer { said result ≡ answer_of self.old.house (Call.Acquire unit user) }
        ensures after { state_in self.new ≡ state_after self.old.house (Call.Acquire unit user) }
        ensures same { draft_in self.new ≡ draft_in self.old }
    {
        let lease = self.house.acquire(unit, user)?;
        match self.held.insert(lease) {
            None => Ok(()),
            Some(other) => self.house.release(other),
        }
    }

    // A lease that is not held is not out.
    fn assign(&mut self, lease: LeaseNumbers, spot: Spot) -> Result<(), Refusal>
        ensures answer { said result ≡ answer_of self.old.house (Call.Assign lease spot) }
        ensures after { state_in self.new ≡ state_after self.old.house (Call.Assign lease spot) }
        ensures same { draft_in self.new ≡ draft_in self.old }
    {
        let lease = self.held.get(lease).ok_or(Refusal::InvalidLease)?;
        self.house.assign(lease, spot)
    }

    fn revoke(&mut self, lease: LeaseNumbers, spot: Spot) -> Result<(), Refusal>
        ensures answer { said result ≡ answer_of self.old.house (Call.Revoke lease spot) }
        ensures after { state_in self.new ≡ state_after self.old.house (Call.Revoke lease spot) }
        ensures same { draft_in self.new ≡ draft_in self.old }
    {
        let lease = self.held.get(lease).ok_or(Refusal::InvalidLease)?;
        self.house.revoke(lease, spot)
    }

    // A lease that is released is held no more.
    fn release(&mut self, lease: LeaseNumbers) -> Result<(), Refusal>
        ensures answer { said result ≡ answer_of self.old.house (Call.Release lease) }
        ensures after { state_in self.new ≡ state_after self.old.house (Call.Release lease) }
        ensures same { draft_in self.new ≡ draft_in self.old }
    {
        let lease = self.held.remove(lease).ok_or(Refusal::InvalidLease)?;
        self.house.release(lease)
    }
}

impl<S: PairSet, T: PairSet> Machine for Keeper<S, T> {
    ghost draft = { draft_in };

    ghost state = { state_in };

    // Calls are data and no closures, since a history keeps them.
    fn answer(&mut self, call: Call) -> Answer {
        match call {
            Call::Acquire { unit, user } => self.acquire(unit, user).into(),
            Call::Assign { lease, spot } => self.assign(lease, spot).into(),
            Call::Revoke { lease, spot } => self.revoke(lease, spot).into(),
            Call::Release { lease } => self.release(lease).into(),
            Call::Start { session, user } => self.house.start_session(session, user).into(),
            Call::End { session } => self.house.end_session(session).into(),
            Call::Activate { session, role } => self.house.activate_role(session, role).into(),
            Call::Deactivate { session, role } => self.house.deactivate_role(session, role).into(),
            Call::Check {
                session,
                device,
                operation,
                conditions,
            } => {
                let source = ConditionSet::new(conditions);
                self.house
                    .check_access(session, device, operation, &source)
                    .into()
            }
        }
    }
}
