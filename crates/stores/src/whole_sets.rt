ghost use Rattle.std.specs.Prelude.{◌≡◌, ℕ};
ghost use Rattle.stores.specs.Listed.{listed};
ghost use Rattle.stores.specs.Comparing.{Compared};

use crate::pair::Pair;
use crate::pair_set::{LEFTS, PairSet, RIGHTS};
use search::first_hit;

// Empties the set and puts in each pair of the list that is in bounds.
pub fn fill<S: PairSet>(store: &mut S, list: &[Pair])
    ensures { S.pairs store.new ≡ listed list.now }
{
    store.clear();
    for pair in list {
        store.insert(pair.left, pair.right);
    }
}

// Makes one set hold exactly the pairs of another, whatever the two are made of.
pub fn copy<S: PairSet, T: PairSet>(source: &S, target: &mut T)
    ensures { T.PairSet.pairs target.new ≡ S.PairSet.pairs source.now }
{
    target.clear();
    for left in 0..LEFTS {
        for right in 0..RIGHTS {
            if source.contains(left, right) {
                target.insert(left, right);
            }
        }
    }
}

// The first pair, by its left number and then by its right, that is in one set only.
pub fn first_difference<S: PairSet, T: PairSet>(one: &S, two: &T) -> Option<Pair>
    ensures { Compared (S.PairSet.pairs one.now) (T.PairSet.pairs two.now) result }
{
    let (left, right) = first_hit(
        |left, right| one.contains(left, right) != two.contains(left, right),
        LEFTS,
        RIGHTS,
    )?;
    Some(Pair { left, right })
}
