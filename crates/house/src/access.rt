// The check of an access.
ghost use Rattle.std.specs.Prelude.{◌≡◌};
ghost use Rattle.refusals.specs.Said.{told};
ghost use Rattle.rows.specs.Rows.{numbers};
ghost use Rattle.rows.specs.declared.row.Row.{Row as Set};
ghost use Rattle.house.specs.Views.{answer_of};

use crate::house::House;
use conditions::{Conditions, active_roles};
use house_parts::SESSIONS;
use refusals::Refusal;
use rules::Call;
use stores::PairSet;
use tables::{Table, Thing};

impl<S: PairSet, T: PairSet> House<S, T> {
    // Whether the session may do the operation on the device under the conditions that hold.
    pub fn check_access<C: Conditions>(
        &self,
        session: u32,
        device: u32,
        operation: u32,
        source: &C,
    ) -> Result<bool, Refusal>
        ensures { (conditions : Set) → numbers conditions ≡ C.Conditions.holding source.now → told result ≡ answer_of self.now (Call.Check session device operation conditions) }
    {
        let device_declared = self.draft.is_declared(Table::Things(Thing::Device), device);
        let operation_declared = self
            .draft
            .is_declared(Table::Things(Thing::Operation), operation);
        if session >= SESSIONS || !(device_declared && operation_declared) {
            return Err(Refusal::NoSuchNumber);
        }
        if self.sessions.user(session).is_none() {
            return Err(Refusal::SessionNotLive);
        }
        let Some(permission) = self.draft.permission_number(device, operation) else {
            return Err(Refusal::NoSuchPermission);
        };
        let active = self.sessions.active_roles(session);
        let roles = active_roles(self.draft.entries.listed(), source);
        Ok(
            self.assignments
                .has_path(&self.draft, active, roles, permission),
        )
    }
}
