ghost use Rattle.std.specs.Prelude.{◌≡◌};
ghost use Rattle.kinds.specs.declared.kind.Kind.TheVariants.{Ask};
ghost use Rattle.names.specs.Spellings.{spellings};
ghost use Rattle.console.specs.Requests.{asked_of, role_pair_change, permission_change};

use forms::Form;
use kinds::Request;
use requests::{Asked, Change};
use rules::Spot;
use sheets::Sheet;

// What a request asks, its names as numbers; nothing of the site where it is an opening.
// Requests are data and no closures, as the table of record names has them. The request goes along with the form, whose
// kind has it, so that no arm is left for other kinds.
pub fn asked(sheet: &Sheet<'_>, request: Request, form: &Form<'_, '_>) -> Option<Asked>
    requires { form.now.kind ≡ Ask request }
    ensures { result ≡ asked_of (spellings sheet.now.names) sheet.now.draft request form.now.values }
{
    let first = sheet.number(form, 0);
    let second = sheet.number(form, 1);
    let third = sheet.number(form, 2);
    match request {
        Request::Open => None,
        Request::Start => Some(Asked::Start {
            session: first,
            user: second,
        }),
        Request::End => Some(Asked::End { session: first }),
        Request::Activate => Some(Asked::Activate {
            session: first,
            role: second,
        }),
        Request::Drop => Some(Asked::Drop {
            session: first,
            role: second,
        }),
        Request::CheckAccess => Some(Asked::CheckAccess {
            session: first,
            device: second,
            operation: third,
        }),
        Request::AssignRolePair => Some(asked_role_pair(sheet, Change::Assign, form)),
        Request::RevokeRolePair => Some(asked_role_pair(sheet, Change::Revoke, form)),
        Request::AssignPermission => Some(asked_permission(sheet, Change::Assign, form)),
        Request::RevokePermission => Some(asked_permission(sheet, Change::Revoke, form)),
        Request::Sense => Some(Asked::Sense {
            condition: first,
            holds: form.flag_at(1),
        }),
        Request::Clock => Some(Asked::Clock { minute: first }),
        Request::Window => Some(Asked::Window {
            condition: first,
            from: second,
            to: third,
        }),
    }
}

// A change of a role pair: user, unit, role pair, device role. One function for both changes would be no shorter.
fn asked_role_pair(sheet: &Sheet<'_>, change: Change, form: &Form<'_, '_>) -> Asked
    ensures { result ≡ role_pair_change (spellings sheet.now.names) change form.now.kind form.now.values }
{
    Asked::Change {
        user: sheet.number(form, 0),
        unit: sheet.number(form, 1),
        change,
        spot: Spot::RolePair {
            role_pair: sheet.number(form, 2),
            device_role: sheet.number(form, 3),
        },
    }
}

// A change of a permission: user, unit, device, operation, device role.
fn asked_permission(sheet: &Sheet<'_>, change: Change, form: &Form<'_, '_>) -> Asked
    ensures { result ≡ permission_change (spellings sheet.now.names) sheet.now.draft change form.now.kind form.now.values }
{
    Asked::Change {
        user: sheet.number(form, 0),
        unit: sheet.number(form, 1),
        change,
        spot: Spot::Permission {
            permission: sheet.permission(form),
            device_role: sheet.number(form, 4),
        },
    }
}
