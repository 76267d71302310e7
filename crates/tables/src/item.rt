ghost use Rattle.std.specs.Prelude.{◌≡◌, ℕ, ◌<◌, ◌≤◌, Bool};
ghost use Rattle.std.proofs.Common.{rules};
ghost use Rattle.tables.specs.Drafts.{permission_at, role_pair_at, entry_at};
ghost use Rattle.tables.specs.Limits.{table_limit};
ghost use Rattle.tables.specs.Naming.{permission_lacks, role_pair_lacks, entry_lacks, permissions_alike, role_pairs_alike};
ghost use Rattle.tables.specs.declared.draft.Draft.{Draft};
ghost use Rattle.tables.specs.declared.table.Table.{Table};
ghost use Rattle.tables.specs.declared.table.Table.TheVariants.{Permissions, RolePairs, Entries};

use crate::draft::Draft;
use crate::parts::{Entry, Permission, RolePair};
use crate::table::{Table, Thing};

// What a list of a draft has: an item that names numbers of other lists.
pub trait Item: Copy {
    ghost LIST: { Table };

    ghost listed: { Draft → ℕ → Self };

    ghost lacks: { Draft → Self → Bool };

    // The list that such items are in.
    const LIST: Table;

    // The item at a place of the list.
    fn at(draft: &Draft, place: u32) -> Self
        requires { place < 64 }
        ensures { result ≡ listed draft.now place };

    // Whether the item names something that is not declared.
    fn names_undeclared(self, draft: &Draft) -> bool
        ensures { result ≡ lacks draft.now self };

    // A declared number is a place of the list.
    ghost within: { table_limit LIST ≤ 64 };
}

impl Item for Permission {
    ghost LIST = { Permissions };

    ghost listed = { permission_at };

    ghost lacks = { permission_lacks };

    const LIST: Table = Table::Permissions;

    fn at(draft: &Draft, place: u32) -> Permission {
        draft.permissions.at(place)
    }

    fn names_undeclared(self, draft: &Draft) -> bool {
        !(draft.is_declared(Table::Things(Thing::Device), self.device)
            && draft.is_declared(Table::Things(Thing::Operation), self.operation))
    }

    ghost within = { Prim.search rules };
}

impl Item for RolePair {
    ghost LIST = { RolePairs };

    ghost listed = { role_pair_at };

    ghost lacks = { role_pair_lacks };

    const LIST: Table = Table::RolePairs;

    fn at(draft: &Draft, place: u32) -> RolePair {
        draft.role_pairs.at(place)
    }

    fn names_undeclared(self, draft: &Draft) -> bool {
        !draft.is_declared(Table::Things(Thing::Role), self.role)
            || self
                .environment_roles
                .goes_beyond(draft.count(Table::Things(Thing::EnvironmentRole)))
    }

    ghost within = { Prim.search rules };
}

impl Item for Entry {
    ghost LIST = { Entries };

    ghost listed = { entry_at };

    ghost lacks = { entry_lacks };

    const LIST: Table = Table::Entries;

    fn at(draft: &Draft, place: u32) -> Entry {
        draft.entries.at(place)
    }

    fn names_undeclared(self, draft: &Draft) -> bool {
        !draft.is_declared(Table::Things(Thing::EnvironmentRole), self.environment_role)
            || self
                .conditions
                .goes_beyond(draft.count(Table::Things(Thing::Condition)))
    }

    ghost within = { Prim.search rules };
}

// An item whose list has each content only once.
pub trait Distinct: Item {
    ghost alike: { Self → Self → Bool };

    // Whether the other has the same content: `==`, said of the numbers in a set and not of its bits.
    fn is_alike(self, other: Self) -> bool
        ensures { result ≡ alike self other };
}

impl Distinct for Permission {
    ghost alike = { permissions_alike };

    fn is_alike(self, other: Permission) -> bool {
        self == other
    }
}

impl Distinct for RolePair {
    ghost alike = { role_pairs_alike };

    fn is_alike(self, other: RolePair) -> bool {
        self.role == other.role && self.environment_roles.equals(other.environment_roles)
    }
}
