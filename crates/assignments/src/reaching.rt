// Which roles would reach a permission that is barred to them.
ghost use Rattle.std.specs.Prelude.{◌≡◌, ◌<◌, true};
ghost use Rattle.rules.specs.Reaching.{column_barred};
ghost use Rattle.assignments.specs.Assigned.{assigned, in_range};

use crate::assignments::Assignments;
use rules::Spot;
use stores::PairSet;
use tables::{Draft, Item, LIST_LIMIT, Relation, RolePair};

impl<S: PairSet, T: PairSet> Assignments<S, T> {
    // Whether a permission assigned to the device role is barred to the role of the role pair.
    fn reaches_barred(&self, draft: &Draft, role_pair: u32, device_role: u32) -> bool
        requires { role_pair < 64 }
        ensures { result ≡ column_barred draft.now (assigned S.PairSet.pairs T.PairSet.pairs self.now) (Spot.RolePair role_pair device_role) }
    {
        let bars = draft.relation(Relation::Bars);
        let role = RolePair::at(draft, role_pair).role;
        (0..LIST_LIMIT).any(|permission| {
            self.permissions.contains(permission, device_role) && bars.contains(permission, role)
        })
    }

    // Whether the permission is barred to the role of a role pair assigned to the device role.
    fn is_barred_there(&self, draft: &Draft, permission: u32, device_role: u32) -> bool
        ensures { result ≡ column_barred draft.now (assigned S.PairSet.pairs T.PairSet.pairs self.now) (Spot.Permission permission device_role) }
    {
        let roles = draft.relation(Relation::Bars).row(permission);
        (0..LIST_LIMIT).zip(&draft.role_pairs.places).any(|(place, role_pair)| {
            self.role_pairs.contains(place, device_role) && roles.contains(role_pair.role)
        })
    }

    // Whether with the pair some role would reach, by the pair's device role, a permission barred to it.
    pub fn would_reach_barred(&self, draft: &Draft, spot: Spot) -> bool
        requires { in_range spot ≡ true }
        ensures { result ≡ column_barred draft.now (assigned S.PairSet.pairs T.PairSet.pairs self.now) spot }
    {
        match spot {
            Spot::RolePair {
                role_pair,
                device_role,
            } => self.reaches_barred(draft, role_pair, device_role),
            Spot::Permission {
                permission,
                device_role,
            } => self.is_barred_there(draft, permission, device_role),
        }
    }
}
