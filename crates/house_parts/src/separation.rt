ghost use Rattle.std.specs.Prelude.{◌≡◌, ◌&&◌, ◌||◌};
ghost use Rattle.rows.specs.Rows.{numbers};
ghost use Rattle.rules.specs.Judging.{parted};
ghost use Rattle.search.specs.Below.{some_below};

use lawful::is_parted;
use rows::Row;
use stores::PairSet;
use tables::{Draft, Relation};

// Whether dynamic separation pairs the role with itself, or with one that is active.
pub fn is_separated(draft: &Draft, active: Row, role: u32) -> bool
    ensures { result ≡ (parted draft.now role role || some_below (λ a. numbers active a && parted draft.now role a) 32) }
{
    let pairs = draft.relation(Relation::DynamicSeparation);
    pairs.contains(role, role) || is_parted(pairs, active, role)
}
