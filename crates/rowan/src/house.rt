// The example house by numbers: examples/README.md has it in words.
// The calls take numbers, so names for numbers are plainer here than enums with a cast at each use.

use refusals::Refusal;
use rows::Row;
use tables::{Draft, Entry, Permission, Relation, RolePair, Thing};

pub const BOB: u32 = 0;

pub const ANN: u32 = 1;

pub const CAM: u32 = 2;

pub const PARENT: u32 = 0;

pub const KID: u32 = 1;

pub const TV: u32 = 0;

pub const OVEN: u32 = 1;

pub const PLAY: u32 = 0;

pub const HEAT: u32 = 1;

pub const TV_PLAY: u32 = 0;

pub const OVEN_HEAT: u32 = 1;

pub const FUN: u32 = 0;

pub const KITCHEN: u32 = 1;

pub const EVENING: u32 = 0;

pub const LEISURE: u32 = 0;

pub const KID_LEISURE: u32 = 0;

pub const PARENT_ANY: u32 = 1;

pub const KID_ANY: u32 = 2;

pub const GAMES: u32 = 0;

pub const HOME: u32 = 1;

// The set with one number.
fn only(number: u32) -> Row {
    let mut row = Row::new();
    row.insert(number);
    row
}

fn declare(draft: &mut Draft, thing: Thing, count: u32) -> Result<(), Refusal> {
    for _ in 0..count {
        draft.declare(thing)?;
    }
    Ok(())
}

fn relate(draft: &mut Draft, relation: Relation, pairs: &[(u32, u32)]) -> Result<(), Refusal> {
    for &(left, right) in pairs {
        draft.relate(relation, left, right)?;
    }
    Ok(())
}

// Users, roles, devices and all else that is counted, permissions, entries and role pairs.
fn add_lists(draft: &mut Draft) -> Result<(), Refusal> {
    let counts = [
        (Thing::User, 3),
        (Thing::Role, 2),
        (Thing::Device, 2),
        (Thing::Operation, 2),
        (Thing::DeviceRole, 2),
        (Thing::Condition, 1),
        (Thing::EnvironmentRole, 1),
        (Thing::Unit, 2),
    ];
    for (thing, count) in counts {
        declare(draft, thing, count)?;
    }
    for (device, operation) in [(TV, PLAY), (OVEN, HEAT)] {
        draft.add_permission(Permission { device, operation })?;
    }
    draft.add_entry(Entry {
        environment_role: LEISURE,
        conditions: only(EVENING),
    })?;
    let role_pairs = [
        (KID, only(LEISURE)),
        (PARENT, Row::new()),
        (KID, Row::new()),
    ];
    for (role, environment_roles) in role_pairs {
        draft.add_role_pair(RolePair {
            role,
            environment_roles,
        })?;
    }
    Ok(())
}

// Who holds what, what is assigned, barred, separated and prohibited, and who administers which unit.
fn add_relations(draft: &mut Draft) -> Result<(), Refusal> {
    relate(
        draft,
        Relation::UserRoles,
        &[(BOB, PARENT), (ANN, PARENT), (CAM, KID)],
    )?;
    relate(
        draft,
        Relation::PermissionAssignment,
        &[(TV_PLAY, FUN), (OVEN_HEAT, KITCHEN)],
    )?;
    relate(
        draft,
        Relation::RolePairAssignment,
        &[(PARENT_ANY, KITCHEN)],
    )?;
    relate(draft, Relation::Bars, &[(OVEN_HEAT, KID)])?;
    relate(draft, Relation::StaticSeparation, &[(PARENT, KID)])?;
    relate(draft, Relation::ProhibitedPairs, &[(KID_LEISURE, KITCHEN)])?;
    relate(
        draft,
        Relation::Administrators,
        &[(BOB, GAMES), (BOB, HOME), (ANN, HOME)],
    )
}

// What each unit may pair.
fn add_tasks(draft: &mut Draft) -> Result<(), Refusal> {
    relate(
        draft,
        Relation::RoleTaskRolePairs,
        &[(KID_LEISURE, GAMES), (KID_ANY, GAMES), (PARENT_ANY, HOME)],
    )?;
    relate(
        draft,
        Relation::RoleTaskDeviceRoles,
        &[(FUN, GAMES), (KITCHEN, GAMES), (FUN, HOME), (KITCHEN, HOME)],
    )?;
    relate(
        draft,
        Relation::PermissionTaskPermissions,
        &[(TV_PLAY, HOME), (OVEN_HEAT, HOME)],
    )?;
    relate(
        draft,
        Relation::PermissionTaskDeviceRoles,
        &[(FUN, HOME), (KITCHEN, HOME)],
    )
}

pub fn draft() -> Result<Draft, Refusal> {
    let mut draft = Draft::new();
    draft.number = 7;
    add_lists(&mut draft)?;
    add_relations(&mut draft)?;
    add_tasks(&mut draft)?;
    Ok(draft)
}
