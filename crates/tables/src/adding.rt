ghost use Rattle.std.specs.Prelude.{◌≡◌, is_ok, if◌then◌else◌};
ghost use Rattle.tables.specs.Adding.{declaring, adding_permission, adding_role_pair, adding_entry, relating, with_thing, with_permission, with_role_pair, with_entry, with_pair_in, with_related, lists_of};
ghost use Rattle.tables.specs.Drafts.{related};

use crate::draft::Draft;
use crate::item::Item;
use crate::parts::{Entry, Permission, RolePair};
use crate::relation::Relation;
use crate::table::{Table, Thing};
use refusals::Refusal;
use stores::PairSet;

// Calls that add one thing to a draft. Each answers the number of what it added; refused, the draft is as it was.
// They are made outside any text, so the place of a refusal is 0.
impl Draft {
    // One more thing of a kind.
    pub fn declare(&mut self, thing: Thing) -> Result<u32, Refusal>
        ensures answer { result ≡ declaring self.old thing }
        ensures after { self.new ≡ (if is_ok result then with_thing self.old thing else self.old) }
    {
        let index = thing.index();
        let number = self.counts[index];
        if number >= thing.limit() {
            return Err(Refusal::TableFull { at: 0 });
        }
        self.counts[index] = number + 1;
        Ok(number)
    }

    // One more permission.
    pub fn add_permission(&mut self, permission: Permission) -> Result<u32, Refusal>
        ensures answer { result ≡ adding_permission self.old permission }
        ensures after { self.new ≡ (if is_ok result then with_permission self.old permission else self.old) }
    {
        if self
            .permission_number(permission.device, permission.operation)
            .is_some()
        {
            return Err(Refusal::AlreadyDeclared { at: 0 });
        }
        if permission.names_undeclared(self) {
            return Err(Refusal::NotDeclared { at: 0 });
        }
        self.permissions.push(permission)
    }

    // One more role pair. Equal content is let through here; the check of the draft finds it.
    pub fn add_role_pair(&mut self, role_pair: RolePair) -> Result<u32, Refusal>
        ensures answer { result ≡ adding_role_pair self.old role_pair }
        ensures after { self.new ≡ (if is_ok result then with_role_pair self.old role_pair else self.old) }
    {
        if role_pair.names_undeclared(self) {
            return Err(Refusal::NotDeclared { at: 0 });
        }
        self.role_pairs.push(role_pair)
    }

    // One more entry.
    pub fn add_entry(&mut self, entry: Entry) -> Result<u32, Refusal>
        ensures answer { result ≡ adding_entry self.old entry }
        ensures after { self.new ≡ (if is_ok result then with_entry self.old entry else self.old) }
    {
        if entry.names_undeclared(self) {
            return Err(Refusal::NotDeclared { at: 0 });
        }
        self.entries.push(entry)
    }

    // Puts a pair in a relation. A repeat counts once. Said twice: by the pairs of each relation, and by the whole draft.
    pub fn relate(&mut self, relation: Relation, left: u32, right: u32) -> Result<(), Refusal>
        ensures answer { result ≡ relating self.old relation left right }
        ensures pairs { related self.new ≡ (if is_ok result then with_related (related self.old) relation left right else related self.old) }
        ensures rest { lists_of self.new ≡ lists_of self.old }
        ensures exact { self.new ≡ (if is_ok result then with_pair_in self.old relation left right else self.old) }
    {
        if !self.declares_pair(relation, left, right) {
            return Err(Refusal::NotDeclared { at: 0 });
        }
        self.relations[relation.index()].insert(left, right);
        Ok(())
    }
}
