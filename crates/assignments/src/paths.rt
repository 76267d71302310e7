// Authorization paths.
ghost use Rattle.std.specs.Prelude.{◌≡◌, ◌<◌};
ghost use Rattle.rows.specs.Rows.{numbers};
ghost use Rattle.assignments.specs.Assigned.{assigned};
ghost use Rattle.assignments.specs.Paths.{ready_under, way_to};

use crate::assignments::Assignments;
use conditions::is_within;
use rows::Row;
use stores::{PairSet, RIGHTS};
use tables::{Draft, Item, LIST_LIMIT, RolePair};

// Whether the role of a role pair is among the active ones, and its environment roles too.
fn is_ready(draft: &Draft, place: u32, active: Row, environment_roles: Row) -> bool
    requires { place < 64 }
    ensures { result ≡ ready_under draft.now (numbers active) (numbers environment_roles) place }
{
    let role_pair = RolePair::at(draft, place);
    active.contains(role_pair.role) && is_within(role_pair.environment_roles, environment_roles)
}

impl<S: PairSet, T: PairSet> Assignments<S, T> {
    // Whether a role pair and a device role make a path from the active roles to the permission.
    pub fn has_path(
        &self,
        draft: &Draft,
        active: Row,
        environment_roles: Row,
        permission: u32,
    ) -> bool
        ensures { result ≡ way_to draft.now (assigned S.PairSet.pairs T.PairSet.pairs self.now) (numbers active) (numbers environment_roles) permission }
    {
        let mut found = false;
        // The search is left by its label at the first path that serves.
        'search: for place in 0..LIST_LIMIT {
            if is_ready(draft, place, active, environment_roles) {
                for device_role in 0..RIGHTS {
                    if self.role_pairs.contains(place, device_role)
                        && self.permissions.contains(permission, device_role)
                    {
                        found = true;
                        break 'search;
                    }
                }
            }
        }
        found
    }
}
