ghost use Rattle.std.specs.Prelude.{◌≡◌};
ghost use Rattle.names.specs.Spellings.{spellings};
ghost use Rattle.drafting.specs.Effects.{names_after, draft_after};
ghost use Rattle.drafting.specs.Fit.{Fit};

use crate::declaring::{count_up, new_name};
use crate::listing::{entry, permission, role_pair};
use crate::relating::sides;
use forms::Form;
use kinds::{Kind, NameTable};
use sheets::Sheet;

// Does what a record says that no reason refuses. Requests change nothing here.
pub fn apply(sheet: &mut Sheet<'_>, form: &Form<'_, '_>)
    requires { Fit (spellings sheet.old.names) sheet.old.draft form.now.kind form.now.values }
    ensures names { spellings sheet.new.names ≡ names_after (spellings sheet.old.names) form.now.kind form.now.values }
    ensures draft { sheet.new.draft ≡ draft_after (spellings sheet.old.names) sheet.old.draft form.now.kind form.now.values }
{
    match form.kind() {
        Kind::Declare(thing) => {
            sheet
                .names
                .declare(NameTable::Things(thing), new_name(form));
            count_up(&mut sheet.draft, thing);
        }
        Kind::Permission => {
            let permission = permission(sheet, form);
            let _ = sheet.draft.add_permission(permission);
        }
        Kind::RolePair => {
            let role_pair = role_pair(sheet, form);
            sheet.names.declare(NameTable::RolePairs, new_name(form));
            let _ = sheet.draft.add_role_pair(role_pair);
        }
        Kind::Entry => {
            let entry = entry(sheet, form);
            let _ = sheet.draft.add_entry(entry);
        }
        Kind::Relate(relation) => {
            let (left, right) = sides(sheet, relation, form);
            let _ = sheet.draft.relate(relation, left, right);
        }
        Kind::Ask(_) => {}
    }
}
