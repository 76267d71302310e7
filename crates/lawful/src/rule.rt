use crate::task::Task;
use tables::{Relation, Table};

// What a lawful draft keeps. The first pair of numbers that breaks a rule tells where it is broken.
#[derive(Clone, Copy)]
pub enum Rule {
    // A list has no more items than its limit.
    WithinLimit(Table),
    // The numbers that an item of the list names are declared.
    PermissionsDeclared,
    RolePairsDeclared,
    EntriesDeclared,
    // No two items have the same content.
    PermissionsApart,
    RolePairsApart,
    // Both numbers of each pair are declared.
    PairsDeclared(Relation),
    NumberInRange,
    // No user holds two roles that static separation pairs.
    RolesSeparate,
    // No pair is in the tasks of two units.
    TasksApart(Task),
    NothingProhibited,
    // No role reaches a permission that is barred to it.
    NothingBarred,
}
