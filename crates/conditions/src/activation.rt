ghost use Rattle.std.specs.Prelude.{◌≡◌};
ghost use Rattle.rows.specs.Rows.{numbers};
ghost use Rattle.conditions.specs.Active.{active, ActiveByOne};
ghost use Rattle.conditions.specs.Asked.{Known, Among};

use crate::conditions::Conditions;
use rows::Row;
use tables::Entry;

// Asks for the wanted conditions that are not known yet, up to the first that does not hold; for none where one is known to be lacking.
fn ask<C: Conditions>(wanted: Row, source: &C, found: &mut Row, lacking: &mut Row)
    requires { Known (C.holding source.now) (numbers found.now) (numbers lacking.now) }
    ensures known { Known (C.holding source.now) (numbers found.new) (numbers lacking.new) }
    ensures asked { Among (numbers wanted) (C.holding source.now) → Among (numbers wanted) (numbers found.new) }
{
    if wanted.meets(*lacking) {
        return;
    }
    let mut left = wanted.without(*found);
    while let Some(condition) = left.first() {
        if !source.holds(condition) {
            lacking.insert(condition);
            return;
        }
        found.insert(condition);
        left.remove(condition);
    }
}

// The environment roles that are active: each has an entry of which all conditions hold.
// A source is asked at most once for a condition, and for none that no entry wants.
pub fn active_roles<C: Conditions>(entries: &[Entry], source: &C) -> Row
    ensures exact { numbers result ≡ active (C.holding source.now) entries.now }
    ensures words { ActiveByOne (C.holding source.now) entries.now (numbers result) }
{
    let mut holding = Row::new();
    let mut lacking = Row::new();
    let mut roles = Row::new();
    for entry in entries {
        ask(entry.conditions, source, &mut holding, &mut lacking);
        if entry.conditions.is_within(holding) {
            roles.insert(entry.environment_role);
        }
    }
    roles
}
