ghost use Rattle.std.specs.Prelude.{◌≡◌};
ghost use Rattle.rows.specs.Rows.{numbers};
ghost use Rattle.search.specs.Below.{some_below};
ghost use Rattle.stores.specs.Rows.{pairs_in};
ghost use Rattle.lawful.specs.Breaking.{pair_undeclared, parted_by, separated, shared, reaches};

use crate::task::{Task, units_of};
use stores::{BitRows, PairSet, RIGHTS, Row};
use tables::{Draft, LIST_LIMIT, Relation};

// Whether the pair is in the relation and one of its numbers is not declared.
pub fn is_pair_undeclared(draft: &Draft, relation: Relation, left: u32, right: u32) -> bool
    ensures { result ≡ pair_undeclared draft.now relation left right }
{
    draft.relation(relation).contains(left, right) && !draft.declares_pair(relation, left, right)
}

// Whether a role of the set is paired with this one, in either order.
pub fn is_parted(pairs: &BitRows, roles: Row, role: u32) -> bool
    ensures { result ≡ some_below (parted_by (pairs_in pairs.now) (numbers roles) role) 32 }
{
    (0..RIGHTS).any(|other| roles.contains(other)
        && (pairs.contains(role, other) || pairs.contains(other, role)))
}

// Whether the user holds a role that static separation pairs with this one.
pub fn holds_separated(draft: &Draft, user: u32, role: u32) -> bool
    ensures { result ≡ separated draft.now user role }
{
    let roles = draft.relation(Relation::UserRoles).row(user);
    is_parted(draft.relation(Relation::StaticSeparation), roles, role)
}

// Whether two different units have the pair in this task.
pub fn is_shared(draft: &Draft, task: Task, left: u32, device_role: u32) -> bool
    ensures { result ≡ shared draft.now task left device_role }
{
    units_of(draft, task, left, device_role).has_two()
}

// Whether the role reaches the permission: a role pair of the role and the permission are assigned to one device role.
pub fn is_reached(draft: &Draft, role: u32, permission: u32) -> bool
    ensures { result ≡ reaches draft.now role permission }
{
    let assigned = draft.relation(Relation::RolePairAssignment);
    let device_roles = draft
        .relation(Relation::PermissionAssignment)
        .row(permission);
    (0..LIST_LIMIT).zip(&draft.role_pairs.places).any(|(place, role_pair)| role_pair.role == role
        && assigned.row(place).meets(device_roles))
}
