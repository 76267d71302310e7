// The word of each kind.
ghost use Rattle.std.specs.Prelude.{◌≡◌};
ghost use Rattle.kinds.specs.Words.{words, listed, find, kind_of_lem};

use crate::kind::{Kind, Request};
use tables::{Relation, Thing};
use values::is_word;

// A word and the kind that it names.
#[derive(Clone, Copy)]
struct Word(&'static [u8], Kind);

// All record names: a table that takes no heap, and is searched from its front.
fn word_table() -> &'static [Word]
    ensures { listed result.now ≡ words }
{
    &[
        Word(b"U", Kind::Declare(Thing::User)),
        Word(b"R", Kind::Declare(Thing::Role)),
        Word(b"D", Kind::Declare(Thing::Device)),
        Word(b"OP", Kind::Declare(Thing::Operation)),
        Word(b"DR", Kind::Declare(Thing::DeviceRole)),
        Word(b"EC", Kind::Declare(Thing::Condition)),
        Word(b"ER", Kind::Declare(Thing::EnvironmentRole)),
        Word(b"AR", Kind::Declare(Thing::Unit)),
        Word(b"P", Kind::Permission),
        Word(b"RP", Kind::RolePair),
        Word(b"EA", Kind::Entry),
        Word(b"UA", Kind::Relate(Relation::UserRoles)),
        Word(b"PDRA", Kind::Relate(Relation::PermissionAssignment)),
        Word(b"RPDRA", Kind::Relate(Relation::RolePairAssignment)),
        Word(b"PRConstraints", Kind::Relate(Relation::Bars)),
        Word(b"SSDConstraints", Kind::Relate(Relation::StaticSeparation)),
        Word(b"DSDConstraints", Kind::Relate(Relation::DynamicSeparation)),
        Word(b"AUA", Kind::Relate(Relation::Administrators)),
        Word(b"R-AT-RP", Kind::Relate(Relation::RoleTaskRolePairs)),
        Word(b"R-AT-DR", Kind::Relate(Relation::RoleTaskDeviceRoles)),
        Word(b"P-AT-P", Kind::Relate(Relation::PermissionTaskPermissions)),
        Word(
            b"P-AT-DR",
            Kind::Relate(Relation::PermissionTaskDeviceRoles),
        ),
        Word(
            b"ProhibitedAssignment",
            Kind::Relate(Relation::ProhibitedPairs),
        ),
        Word(b"open", Kind::Ask(Request::Open)),
        Word(b"start", Kind::Ask(Request::Start)),
        Word(b"end", Kind::Ask(Request::End)),
        Word(b"activate", Kind::Ask(Request::Activate)),
        Word(b"drop", Kind::Ask(Request::Drop)),
        Word(b"checkAccess", Kind::Ask(Request::CheckAccess)),
        Word(b"assignRPDR", Kind::Ask(Request::AssignRolePair)),
        Word(b"revokeRPDR", Kind::Ask(Request::RevokeRolePair)),
        Word(b"assignPDR", Kind::Ask(Request::AssignPermission)),
        Word(b"revokePDR", Kind::Ask(Request::RevokePermission)),
        Word(b"sense", Kind::Ask(Request::Sense)),
        Word(b"clock", Kind::Ask(Request::Clock)),
        Word(b"window", Kind::Ask(Request::Window)),
    ]
}

// The kind of the first entry that has the word.
fn look_up(table: &[Word], word: &[u8]) -> Option<Kind>
    ensures { result ≡ find (listed table.now) word.now }
{
    table
        .iter()
        .find(|Word(text, _)| is_word(word, text))
        .map(|Word(_, kind)| *kind)
}

// The kind of record that a word names; none where it is no record name.
#[tactic(auto, unfolding(crate::specs::Words::kind_of_lem))]
pub fn kind_of(word: &[u8]) -> Option<Kind>
    ensures { result ≡ kind_of_lem word.now }
{
    look_up(word_table(), word)
}
