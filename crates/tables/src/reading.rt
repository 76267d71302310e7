ghost use Rattle.std.specs.Prelude.{◌≡◌};
ghost use Rattle.stores.specs.Rows.{pairs_in};
ghost use Rattle.tables.specs.Drafts.{count, declared, related, is_permission_lem, permission_of, Empty};
ghost use Rattle.tables.specs.Naming.{pair_declared};

use crate::draft::Draft;
use crate::items::Items;
use crate::parts::{Entry, Permission, RolePair};
use crate::relation::Relation;
use crate::table::{LIST_LIMIT, Table, Thing};
use stores::{BitRows, Row};

impl Draft {
    // The draft with nothing in it.
    pub fn new() -> Draft
        ensures { Empty result }
    {
        let row = Row::new();
        Draft {
            number: 0,
            counts: [0; 8],
            permissions: Items::empty(Permission {
                device: 0,
                operation: 0,
            }),
            role_pairs: Items::empty(RolePair {
                role: 0,
                environment_roles: row,
            }),
            entries: Items::empty(Entry {
                environment_role: 0,
                conditions: row,
            }),
            relations: [BitRows::new(); 12],
        }
    }

    // How many items a list has.
    pub fn count(&self, table: Table) -> u32
        ensures { result ≡ count self.now table }
    {
        match table {
            Table::Things(thing) => self.counts[thing.index()],
            Table::Permissions => self.permissions.count,
            Table::RolePairs => self.role_pairs.count,
            Table::Entries => self.entries.count,
        }
    }

    // Whether a list has an item of this number, and can have it.
    pub fn is_declared(&self, table: Table, number: u32) -> bool
        ensures { result ≡ declared self.now table number }
    {
        number < self.count(table) && number < table.limit()
    }

    // Whether both numbers of a pair of the relation are declared.
    pub fn declares_pair(&self, relation: Relation, left: u32, right: u32) -> bool
        ensures { result ≡ pair_declared self.now relation left right }
    {
        self.is_declared(relation.left(), left)
            && self.is_declared(Table::Things(relation.right()), right)
    }

    // The pairs of a relation.
    pub fn relation(&self, relation: Relation) -> &BitRows
        ensures { pairs_in result.now ≡ related self.now relation }
    {
        &self.relations[relation.index()]
    }

    // Whether the permission of this number is there, and is that operation of that device.
    fn is_permission(&self, number: u32, device: u32, operation: u32) -> bool
        ensures { result ≡ is_permission_lem self.now device operation number }
    {
        let sought = Permission { device, operation };
        self.is_declared(Table::Permissions, number) && self.permissions.at(number) == sought
    }

    // The number of the permission for an operation of a device. Over numbers, by which it is told how many places count.
    pub fn permission_number(&self, device: u32, operation: u32) -> Option<u32>
        ensures { result ≡ permission_of self.now device operation }
    {
        (0..LIST_LIMIT).find(|number| self.is_permission(*number, device, operation))
    }
}
