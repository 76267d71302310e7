ghost use Rattle.std.specs.Prelude.{◌≡◌, true};
ghost use Rattle.lawful.specs.Checking.{is_lawful};
ghost use Rattle.lawful.specs.Tasks.{held_by};
ghost use Rattle.rules.specs.Spots.{known, prohibited, in_task};

use lawful::{Task, unit_of};
use rules::Spot;
use stores::PairSet;
use tables::{Draft, Relation, Table, Thing};

// Whether both numbers of the spot are declared. Functions and no methods: draft and spot are types of other crates.
pub fn is_known(draft: &Draft, spot: Spot) -> bool
    ensures { result ≡ known draft.now spot }
{
    let (table, number, device_role) = match spot {
        Spot::RolePair {
            role_pair,
            device_role,
        } => (Table::RolePairs, role_pair, device_role),
        Spot::Permission {
            permission,
            device_role,
        } => (Table::Permissions, permission, device_role),
    };
    draft.is_declared(table, number)
        && draft.is_declared(Table::Things(Thing::DeviceRole), device_role)
}

// Whether the pair may never be assigned.
pub fn is_prohibited(draft: &Draft, spot: Spot) -> bool
    ensures { result ≡ prohibited draft.now spot }
{
    match spot {
        Spot::RolePair {
            role_pair,
            device_role,
        } => draft
            .relation(Relation::ProhibitedPairs)
            .contains(role_pair, device_role),
        Spot::Permission { .. } => false,
    }
}

// Whether the pair is in the task of the unit. In a lawful draft it is in that of one unit at most.
// That the draft is lawful is asked for: a type of lawful drafts would stand between a house and every call on its draft.
pub fn is_in_task(draft: &Draft, unit: u32, spot: Spot) -> bool
    requires { is_lawful draft.now ≡ true }
    ensures { result ≡ in_task draft.now unit spot }
{
    let (task, number, device_role) = match spot {
        Spot::RolePair {
            role_pair,
            device_role,
        } => (Task::RolePairs, role_pair, device_role),
        Spot::Permission {
            permission,
            device_role,
        } => (Task::Permissions, permission, device_role),
    };
    // Some unit or none, taken apart where it is asked for.
    match unit_of(draft, task, number, device_role) {
        Some(holder) => holder == unit,
        None => false,
    }
}
