// Making, loading, asking and changing what is assigned.
ghost use Rattle.std.specs.Prelude.{◌≡◌, true};
ghost use Rattle.rules.specs.Spots.{with_spot, without_spot};
ghost use Rattle.rules.specs.States.{opening_pairs};
ghost use Rattle.assignments.specs.Assigned.{assigned, nothing_assigned, in_range};

use crate::assignments::Assignments;
use rules::Spot;
use stores::{PairSet, copy};
use tables::{Draft, Relation};

impl<S: PairSet, T: PairSet> Assignments<S, T> {
    // Nothing is assigned, whatever the two sets held before. Two parameters: the struct of both is made here.
    pub fn new(mut role_pairs: S, mut permissions: T) -> Assignments<S, T>
        ensures { assigned S.PairSet.pairs T.PairSet.pairs result ≡ nothing_assigned }
    {
        role_pairs.clear();
        permissions.clear();
        Assignments {
            role_pairs,
            permissions,
        }
    }

    // Exactly what the draft assigns is assigned.
    pub fn load(&mut self, draft: &Draft)
        ensures { assigned S.PairSet.pairs T.PairSet.pairs self.new ≡ opening_pairs draft.now }
    {
        copy(
            draft.relation(Relation::RolePairAssignment),
            &mut self.role_pairs,
        );
        copy(
            draft.relation(Relation::PermissionAssignment),
            &mut self.permissions,
        );
    }

    // Whether the pair is assigned. An arm for each set, here and below, since the two can differ in their make.
    pub fn contains(&self, spot: Spot) -> bool
        ensures { result ≡ assigned S.PairSet.pairs T.PairSet.pairs self.now spot }
    {
        match spot {
            Spot::RolePair {
                role_pair,
                device_role,
            } => self.role_pairs.contains(role_pair, device_role),
            Spot::Permission {
                permission,
                device_role,
            } => self.permissions.contains(permission, device_role),
        }
    }

    // Assigns the pair.
    pub fn insert(&mut self, spot: Spot)
        requires { in_range spot ≡ true }
        ensures { assigned S.PairSet.pairs T.PairSet.pairs self.new ≡ with_spot (assigned S.PairSet.pairs T.PairSet.pairs self.old) spot }
    {
        match spot {
            Spot::RolePair {
                role_pair,
                device_role,
            } => {
                self.role_pairs.insert(role_pair, device_role);
            }
            Spot::Permission {
                permission,
                device_role,
            } => {
                self.permissions.insert(permission, device_role);
            }
        }
    }

    // Assigns the pair no more.
    pub fn remove(&mut self, spot: Spot)
        ensures { assigned S.PairSet.pairs T.PairSet.pairs self.new ≡ without_spot (assigned S.PairSet.pairs T.PairSet.pairs self.old) spot }
    {
        match spot {
            Spot::RolePair {
                role_pair,
                device_role,
            } => {
                self.role_pairs.remove(role_pair, device_role);
            }
            Spot::Permission {
                permission,
                device_role,
            } => {
                self.permissions.remove(permission, device_role);
            }
        }
    }
}
