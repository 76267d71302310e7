// What a record adds to a list: a permission, a role pair or an entry. Functions and no methods: sheets and forms are types
// of other crates.
ghost use Rattle.std.specs.Prelude.{◌≡◌};
ghost use Rattle.names.specs.Spellings.{spellings};
ghost use Rattle.drafting.specs.Effects.{set_from_lem, permission_said, role_pair_said, entry_said};

use forms::Form;
use sheets::Sheet;
use stores::Row;
use tables::{Entry, Permission, RolePair};

// The set of the numbers that the fields from a place on say.
fn set_from(sheet: &Sheet<'_>, form: &Form<'_, '_>, from: usize) -> Row
    ensures { result ≡ set_from_lem (spellings sheet.now.names) form.now.kind form.now.values from }
{
    let mut row = Row::new();
    for place in from..form.places() {
        row.insert(sheet.number(form, place));
    }
    row
}

pub(crate) fn permission(sheet: &Sheet<'_>, form: &Form<'_, '_>) -> Permission
    ensures { result ≡ permission_said (spellings sheet.now.names) form.now.kind form.now.values }
{
    Permission {
        device: sheet.number(form, 0),
        operation: sheet.number(form, 1),
    }
}

pub(crate) fn role_pair(sheet: &Sheet<'_>, form: &Form<'_, '_>) -> RolePair
    ensures { result ≡ role_pair_said (spellings sheet.now.names) form.now.kind form.now.values }
{
    RolePair {
        role: sheet.number(form, 1),
        environment_roles: set_from(sheet, form, 2),
    }
}

pub(crate) fn entry(sheet: &Sheet<'_>, form: &Form<'_, '_>) -> Entry
    ensures { result ≡ entry_said (spellings sheet.now.names) form.now.kind form.now.values }
{
    Entry {
        environment_role: sheet.number(form, 0),
        conditions: set_from(sheet, form, 1),
    }
}
