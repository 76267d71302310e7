ghost use Rattle.std.specs.Prelude.{◌≡◌, ◌≤◌, true, length, take};
ghost use Rattle.index_set.specs.Distinct.{is_distinct};

use crate::same::Same;

// At most `limit` items, no two the same, in order of arrival: the first `len` places of the lent memory, and no heap.
// The limit is a value that the caller hands in, so each call says that it stays.
#[derive(Drop)]
pub struct IndexSet<'a, X: Same> {
    pub(crate) places: &'a mut [X],
    pub(crate) len: usize,
    pub(crate) limit: usize,
    ghost within: { len ≤ limit },
    ghost fits: { limit ≤ length places.now },
    ghost distinct: { is_distinct X.alike (take len places.now) ≡ true },
}
