ghost use Rattle.std.specs.Prelude.{◌≡◌, MatchOption};
ghost use Rattle.search.specs.Firsts.{FirstPair};
ghost use Rattle.lawful.specs.Breaking.{breaks, rows_of, columns_of, breach_of};
ghost use Rattle.lawful.specs.Keeping.{Keeps};

use crate::lists::{is_twice, is_undeclared};
use crate::relations::{holds_separated, is_pair_undeclared, is_reached, is_shared};
use crate::rule::Rule;
use search::first_hit;
use stores::{LEFTS, PairSet, RIGHTS};
use tables::{Draft, Entry, LIST_LIMIT, Permission, Relation, RolePair};

// The largest number of a house.
pub const LARGEST_NUMBER: u32 = 999_999;

impl Rule {
    // Whether the pair of numbers breaks the rule.
    fn is_broken_at(self, draft: &Draft, left: u32, right: u32) -> bool
        ensures { result ≡ breaks draft.now self left right }
    {
        match self {
            Rule::WithinLimit(table) => draft.count(table) > table.limit(),
            Rule::PermissionsDeclared => is_undeclared::<Permission>(draft, left),
            Rule::RolePairsDeclared => is_undeclared::<RolePair>(draft, left),
            Rule::EntriesDeclared => is_undeclared::<Entry>(draft, left),
            Rule::PermissionsApart => is_twice::<Permission>(draft, left, right),
            Rule::RolePairsApart => is_twice::<RolePair>(draft, left, right),
            Rule::PairsDeclared(relation) => is_pair_undeclared(draft, relation, left, right),
            Rule::NumberInRange => draft.number > LARGEST_NUMBER,
            Rule::RolesSeparate => draft.relation(Relation::UserRoles).contains(left, right)
                && holds_separated(draft, left, right),
            Rule::TasksApart(task) => is_shared(draft, task, left, right),
            Rule::NothingProhibited => draft
                .relation(Relation::ProhibitedPairs)
                .contains(left, right)
                && draft
                    .relation(Relation::RolePairAssignment)
                    .contains(left, right),
            Rule::NothingBarred => draft.relation(Relation::Bars).contains(left, right)
                && is_reached(draft, right, left),
        }
    }

    // How many left and right numbers a breach of the rule can have.
    fn extent(self) -> (u32, u32)
        ensures { (result.0 ≡ rows_of self) × (result.1 ≡ columns_of self) }
    {
        match self {
            Rule::WithinLimit(_) | Rule::NumberInRange => (1, 1),
            Rule::PermissionsDeclared | Rule::RolePairsDeclared | Rule::EntriesDeclared => (
                LIST_LIMIT, 1,
            ),
            Rule::PermissionsApart | Rule::RolePairsApart => (LIST_LIMIT, LIST_LIMIT),
            Rule::TasksApart(_) => (LEFTS, LEFTS),
            Rule::PairsDeclared(_)
            | Rule::RolesSeparate
            | Rule::NothingProhibited
            | Rule::NothingBarred => (LEFTS, RIGHTS),
        }
    }
}

// The first pair of numbers that breaks the rule, by the left number and then by the right.
pub fn first_breach(draft: &Draft, rule: Rule) -> Option<(u32, u32)>
    ensures exact { result ≡ breach_of draft.now rule }
    ensures first { FirstPair (breaks draft.now rule) (rows_of rule) (columns_of rule) result }
    ensures words { MatchOption result (Keeps draft.now rule) (λ _. Keeps draft.now rule → ⊥) }
{
    let (lefts, rights) = rule.extent();
    first_hit(
        |left, right| rule.is_broken_at(draft, left, right),
        lefts,
        rights,
    )
}
