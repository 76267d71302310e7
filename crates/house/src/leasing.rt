ghost use Rattle.std.specs.Prelude.{◌≡◌, false, IfOk};
ghost use Rattle.refusals.specs.Said.{said};
ghost use Rattle.rules.specs.Judging.{valid};
ghost use Rattle.house.specs.Views.{draft_of, state_of, answer_of, state_after};

use crate::house::House;
use crate::lease::Lease;
use refusals::Refusal;
use rules::{Call, LeaseNumbers};
use stores::PairSet;
use tables::{Relation, Table, Thing};

impl<S: PairSet, T: PairSet> House<S, T> {
    // Gives the unit's lease to the user.
    pub fn acquire(&mut self, unit: u32, user: u32) -> Result<Lease, Refusal>
        ensures answer { said result ≡ answer_of self.old (Call.Acquire unit user) }
        ensures lease { IfOk result (λ l. l.numbers ≡ record { house = (draft_of self.old).number; unit = unit; user = user }) }
        ensures after { state_of self.new ≡ state_after self.old (Call.Acquire unit user) }
        ensures same { draft_of self.new ≡ draft_of self.old }
    {
        let unit_declared = self.draft.is_declared(Table::Things(Thing::Unit), unit);
        let user_declared = self.draft.is_declared(Table::Things(Thing::User), user);
        if !(unit_declared && user_declared) {
            return Err(Refusal::NoSuchNumber);
        }
        if !self
            .draft
            .relation(Relation::Administrators)
            .contains(user, unit)
        {
            return Err(Refusal::NotAdministrator);
        }
        if self.leases.holder(unit).is_some() {
            return Err(Refusal::LeaseOut);
        }
        self.leases.give(unit, user);
        Ok(Lease {
            numbers: LeaseNumbers {
                house: self.draft.number,
                unit,
                user,
            },
        })
    }

    // Whether the lease is one of this house, and out to its user.
    pub(crate) fn is_valid(&self, lease: LeaseNumbers) -> bool
        ensures { result ≡ valid (draft_of self.now) (state_of self.now) lease }
    {
        lease.house == self.draft.number
            && self
                .leases
                .holder(lease.unit)
                .is_some_and(|user| user == lease.user)
    }

    // Takes the lease back. It is spent even where that is refused.
    pub fn release(&mut self, lease: Lease) -> Result<(), Refusal>
        ensures answer { said result ≡ answer_of self.old (Call.Release lease.numbers) }
        ensures after { state_of self.new ≡ state_after self.old (Call.Release lease.numbers) }
        ensures same { draft_of self.new ≡ draft_of self.old }
    {
        let Lease { numbers } = lease;
        if !self.is_valid(numbers) {
            return Err(Refusal::InvalidLease);
        }
        self.leases.take_back(numbers.unit);
        Ok(())
    }
}
