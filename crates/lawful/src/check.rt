ghost use Rattle.std.specs.Prelude.{◌≡◌};
ghost use Rattle.lawful.specs.Checking.{refusal_of, first_broken_lem, checked, all_rules};
ghost use Rattle.lawful.specs.Keeping.{Says};

use crate::breach::first_breach;
use crate::rule::Rule;
use crate::task::Task;
use refusals::Refusal;
use tables::{Draft, Relation, Table, Thing};

// The rules in the order in which they are tested: cases and no closures, since the order is a theorem's.
const RULES: [Rule; 34] = [
    Rule::WithinLimit(Table::Things(Thing::User)),
    Rule::WithinLimit(Table::Things(Thing::Role)),
    Rule::WithinLimit(Table::Things(Thing::Device)),
    Rule::WithinLimit(Table::Things(Thing::Operation)),
    Rule::WithinLimit(Table::Things(Thing::DeviceRole)),
    Rule::WithinLimit(Table::Things(Thing::Condition)),
    Rule::WithinLimit(Table::Things(Thing::EnvironmentRole)),
    Rule::WithinLimit(Table::Things(Thing::Unit)),
    Rule::WithinLimit(Table::Permissions),
    Rule::PermissionsDeclared,
    Rule::PermissionsApart,
    Rule::WithinLimit(Table::RolePairs),
    Rule::RolePairsDeclared,
    Rule::RolePairsApart,
    Rule::WithinLimit(Table::Entries),
    Rule::EntriesDeclared,
    Rule::PairsDeclared(Relation::UserRoles),
    Rule::PairsDeclared(Relation::PermissionAssignment),
    Rule::PairsDeclared(Relation::RolePairAssignment),
    Rule::PairsDeclared(Relation::Bars),
    Rule::PairsDeclared(Relation::StaticSeparation),
    Rule::PairsDeclared(Relation::DynamicSeparation),
    Rule::PairsDeclared(Relation::Administrators),
    Rule::PairsDeclared(Relation::RoleTaskRolePairs),
    Rule::PairsDeclared(Relation::RoleTaskDeviceRoles),
    Rule::PairsDeclared(Relation::PermissionTaskPermissions),
    Rule::PairsDeclared(Relation::PermissionTaskDeviceRoles),
    Rule::PairsDeclared(Relation::ProhibitedPairs),
    Rule::NumberInRange,
    Rule::RolesSeparate,
    Rule::TasksApart(Task::RolePairs),
    Rule::TasksApart(Task::Permissions),
    Rule::NothingProhibited,
    Rule::NothingBarred,
];

impl Rule {
    // Why a draft that breaks the rule is refused.
    pub fn refusal(self) -> Refusal
        ensures { result ≡ refusal_of self }
    {
        match self {
            Rule::RolesSeparate => Refusal::SeparatedRolesHeld,
            Rule::TasksApart(_) => Refusal::UnitsOverlap,
            Rule::NothingProhibited => Refusal::ProhibitedPairAssigned,
            Rule::NothingBarred => Refusal::ReachesBarredPermission,
            _ => Refusal::IllFormedDraft,
        }
    }
}

// The first rule that is broken.
fn first_broken(draft: &Draft) -> Option<Rule>
    ensures { result ≡ first_broken_lem draft.now all_rules }
{
    RULES
        .iter()
        .find(|rule| first_breach(draft, **rule).is_some())
        .copied()
}

// Whether the draft may open, or the first reason why not.
pub fn check_draft(draft: &Draft) -> Result<(), Refusal>
    ensures exact { result ≡ checked draft.now }
    ensures words { Says draft.now result }
{
    match first_broken(draft) {
        Some(rule) => Err(rule.refusal()),
        None => Ok(()),
    }
}
