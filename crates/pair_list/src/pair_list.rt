ghost use Rattle.std.specs.Prelude.{◌≡◌, ℕ, Bool, true, not, ◌&&◌, ◌<◌, ◌≤◌, [], length, MatchResult};
ghost use Rattle.refusals.specs.declared.refusal.Refusal.TheVariants.{MemoryTooShort};
ghost use Rattle.index_set.specs.Items.{items_of};
ghost use Rattle.stores.specs.Bounded.{listed_bounded};
ghost use Rattle.stores.specs.Listed.{listed, all_in_bounds};
ghost use Rattle.stores.specs.Pairs.{no_pairs};

use index_set::{IndexSet, Insertion};
use refusals::Refusal;
use stores::{LEFTS, Pair, PairSet, RIGHTS};

// So many pairs are in bounds: with as many places a list is never full where one of them is absent.
pub const PLACES: usize = 2048;

// A set of pairs as the list of them, in lent memory.
#[derive(Drop)]
pub struct PairList<'a> {
    list: IndexSet<'a, Pair>,
    ghost places: { list.limit ≡ 2048 },
    ghost within: { all_in_bounds (items_of list) ≡ true },
}

impl<'a> PairList<'a> {
    // The empty set, over an empty list of 2,048 places.
    pub fn new(list: IndexSet<'a, Pair>) -> PairList<'a>
        requires places { list.limit ≡ 2048 }
        requires empty { items_of list ≡ [] }
        ensures { listed (items_of result.list) ≡ no_pairs }
    {
        PairList { list }
    }

    // The empty set over memory of 2,048 places; refused where it has fewer.
    pub fn over(memory: &'a mut [Pair]) -> Result<PairList<'a>, Refusal>
        ensures { MatchResult result (λ p. (2048 ≤ length memory.old) × (listed (items_of p.list) ≡ no_pairs)) (λ e. (length memory.old < 2048) × (e ≡ MemoryTooShort)) }
    {
        let list = IndexSet::new(memory, PLACES)?;
        Ok(PairList::new(list))
    }
}

impl<'a> PairSet for PairList<'a> {
    ghost pairs = { λ s. listed (items_of s.list) };

    ghost bounded = { λ s. listed_bounded (items_of s.list) };

    fn contains(&self, left: u32, right: u32) -> bool {
        self.list.index_of(&Pair { left, right }).is_some()
    }

    fn insert(&mut self, left: u32, right: u32) -> bool {
        if left >= LEFTS || right >= RIGHTS {
            return false;
        }
        match self.list.insert(Pair { left, right }) {
            Insertion::Inserted(_) => true,
            Insertion::AlreadyThere(_) => false,
            Insertion::Full => unreachable(),
        }
    }

    fn remove(&mut self, left: u32, right: u32) -> bool {
        match self.list.index_of(&Pair { left, right }) {
            Some(index) => {
                let _ = self.list.shift_remove(index);
                true
            }
            None => false,
        }
    }

    fn clear(&mut self) {
        self.list.clear();
    }
}
