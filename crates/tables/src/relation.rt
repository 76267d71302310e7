ghost use Rattle.std.specs.Prelude.{◌≡◌, ◌<◌};
ghost use Rattle.tables.specs.Indices.{relation_index};
ghost use Rattle.tables.specs.Sides.{left_of, right_of};

use crate::table::{Table, Thing};

// The relations of a draft. A unit's tasks are four relations, each from what is in a task to the units.
#[derive(Clone, Copy)]
pub enum Relation {
    UserRoles,
    PermissionAssignment,
    RolePairAssignment,
    Bars,
    StaticSeparation,
    DynamicSeparation,
    Administrators,
    RoleTaskRolePairs,
    RoleTaskDeviceRoles,
    PermissionTaskPermissions,
    PermissionTaskDeviceRoles,
    ProhibitedPairs,
}

impl Relation {
    // Where its pairs stand among the relations of a draft. A method says what
    // the number is; a `From` would not.
    pub fn index(self) -> usize
        ensures value { result ≡ relation_index self }
        ensures bound { result < 12 }
    {
        self as usize
    }

    // The list that the left numbers of its pairs are from.
    pub fn left(self) -> Table
        ensures { result ≡ left_of self }
    {
        match self {
            Relation::UserRoles | Relation::Administrators => Table::Things(Thing::User),
            Relation::StaticSeparation | Relation::DynamicSeparation => Table::Things(Thing::Role),
            Relation::RoleTaskDeviceRoles | Relation::PermissionTaskDeviceRoles => Table::Things(
                Thing::DeviceRole,
            ),
            Relation::PermissionAssignment | Relation::Bars | Relation::PermissionTaskPermissions =>
                Table::Permissions,
            Relation::RolePairAssignment
            | Relation::RoleTaskRolePairs
            | Relation::ProhibitedPairs => Table::RolePairs,
        }
    }

    // The things that the right numbers of its pairs are.
    pub fn right(self) -> Thing
        ensures { result ≡ right_of self }
    {
        match self {
            Relation::UserRoles
            | Relation::Bars
            | Relation::StaticSeparation
            | Relation::DynamicSeparation => Thing::Role,
            Relation::PermissionAssignment
            | Relation::RolePairAssignment
            | Relation::ProhibitedPairs => Thing::DeviceRole,
            Relation::Administrators
            | Relation::RoleTaskRolePairs
            | Relation::RoleTaskDeviceRoles
            | Relation::PermissionTaskPermissions
            | Relation::PermissionTaskDeviceRoles => Thing::Unit,
        }
    }
}
