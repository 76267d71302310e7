// The pair that a record puts in a relation.
ghost use Rattle.std.specs.Prelude.{◌≡◌};
ghost use Rattle.kinds.specs.declared.kind.Kind.TheVariants.{Relate};
ghost use Rattle.names.specs.Spellings.{spellings};
ghost use Rattle.drafting.specs.Pairing.{left_place_lem, right_place_lem, left_number, right_number};

use forms::Form;
use sheets::Sheet;
use tables::Relation;

// Where the two sides stand in the record: the left one's name, or the device of its permission, and the right one's name.
fn places(relation: Relation) -> (usize, usize)
    ensures { result ≡ (left_place_lem relation, right_place_lem relation) }
{
    match relation {
        Relation::RoleTaskRolePairs
        | Relation::RoleTaskDeviceRoles
        | Relation::PermissionTaskPermissions
        | Relation::PermissionTaskDeviceRoles => (1, 0),
        Relation::PermissionAssignment | Relation::Bars => (0, 2),
        _ => (0, 1),
    }
}

// The left number and the right one. The relation goes along with the form, whose kind has it.
pub(crate) fn sides(sheet: &Sheet<'_>, relation: Relation, form: &Form<'_, '_>) -> (u32, u32)
    requires { form.now.kind ≡ Relate relation }
    ensures { result ≡ (left_number (spellings sheet.now.names) sheet.now.draft relation form.now.values, right_number (spellings sheet.now.names) relation form.now.values) }
{
    let (left, right) = places(relation);
    let right = sheet.number(form, right);
    match form.kind().permission_place() {
        Some(_) => (sheet.permission(form), right),
        None => (sheet.number(form, left), right),
    }
}
