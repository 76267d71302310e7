ghost use Rattle.std.specs.Prelude.{◌≡◌};
ghost use Rattle.search.specs.Firsts.{first_below};
ghost use Rattle.rows.specs.Rows.{numbers};
ghost use Rattle.lawful.specs.Tasks.{lefts_of, rights_of, held_by, Holder};

use stores::Row;
use tables::{Draft, Relation};

// The two tasks of a unit.
#[derive(Clone, Copy)]
pub enum Task {
    // which role pairs it may assign to which device roles
    RolePairs,
    // which permissions it may assign to which device roles
    Permissions,
}

impl Task {
    // The relation of what is on the left side of the task, and the units.
    pub fn lefts(self) -> Relation
        ensures { result ≡ lefts_of self }
    {
        match self {
            Task::RolePairs => Relation::RoleTaskRolePairs,
            Task::Permissions => Relation::PermissionTaskPermissions,
        }
    }

    // The relation of the device roles of the task, and the units.
    pub fn device_roles(self) -> Relation
        ensures { result ≡ rights_of self }
    {
        match self {
            Task::RolePairs => Relation::RoleTaskDeviceRoles,
            Task::Permissions => Relation::PermissionTaskDeviceRoles,
        }
    }
}

// The units whose task holds the pair.
pub fn units_of(draft: &Draft, task: Task, left: u32, device_role: u32) -> Row
    ensures { numbers result ≡ held_by draft.now task left device_role }
{
    let lefts = draft.relation(task.lefts()).row(left);
    let rights = draft.relation(task.device_roles()).row(device_role);
    lefts.and(rights)
}

// The unit whose task holds the pair. In a lawful draft it is the only one.
// The two numbers of a pair are passed one by one, as the relations take them.
pub fn unit_of(draft: &Draft, task: Task, left: u32, device_role: u32) -> Option<u32>
    ensures exact { result ≡ first_below (held_by draft.now task left device_role) 32 }
    ensures words { Holder draft.now task left device_role result }
{
    units_of(draft, task, left, device_role).first()
}
