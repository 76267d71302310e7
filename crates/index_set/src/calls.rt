ghost use Rattle.std.specs.Prelude.{◌≡◌, ℕ, ◌-◌, ◌<◌, ◌≤◌, Bool, List, [], ◌∷◌, ◌++◌, length, take, set, if◌then◌else◌, MatchOption, slice_set};
ghost use Rattle.std.specs.List.{slice_get, remove};
ghost use Rattle.index_set.specs.Found.{Absent, Found, place_of, is_alike_at};
ghost use Rattle.index_set.specs.Inserting.{insertion_of, Inserts, grown};
ghost use Rattle.index_set.specs.Items.{items_of, Made};

use crate::index_set::IndexSet;
use crate::insertion::Insertion;
use crate::same::Same;
use refusals::Refusal;

impl<'a, X: Same + Copy> IndexSet<'a, X> {
    // The empty set for at most `limit` items; refused where the memory has fewer places.
    pub fn new(memory: &'a mut [X], limit: usize) -> Result<IndexSet<'a, X>, Refusal>
        ensures { Made limit memory.old result }
    {
        if memory.len() < limit {
            return Err(Refusal::MemoryTooShort);
        }
        Ok(IndexSet {
            places: memory,
            len: 0,
            limit,
        })
    }

    // The items in order of arrival.
    pub fn items(&self) -> &[X]
        ensures { result.now ≡ items_of self.now }
    {
        &self.places[0..self.len]
    }

    pub fn len(&self) -> usize
        ensures { result ≡ length (items_of self.now) }
    {
        self.items().len()
    }

    // The item at `index`.
    pub fn get(&self, index: usize) -> Option<X>
        ensures { result ≡ slice_get (items_of self.now) index }
    {
        self.items().get(index).copied()
    }

    // The index of the item that is the same as `x`. The search goes over the items in order, each with its index.
    pub fn index_of(&self, x: &X) -> Option<usize>
        ensures place { result ≡ place_of X.alike (items_of self.now) x.now }
        ensures words { MatchOption result (Absent X.alike (items_of self.now) x.now) (Found X.alike (items_of self.now) x.now) }
    {
        for (index, item) in self.items().iter().enumerate() {
            if item.same(x) {
                return Some(index);
            }
        }
        None
    }

    // Puts `x` in behind the others, unless the same item is there or there is no room.
    pub fn insert(&mut self, x: X) -> Insertion
        ensures answer { result ≡ insertion_of X.alike self.old.limit (items_of self.old) x }
        ensures words { Inserts X.alike self.old.limit (items_of self.old) x result }
        ensures items { items_of self.new ≡ grown result (items_of self.old) x }
        ensures limit { self.new.limit ≡ self.old.limit }
    {
        if let Some(index) = self.index_of(&x) {
            return Insertion::AlreadyThere(index);
        }
        if self.len == self.limit {
            return Insertion::Full;
        }
        let index = self.len;
        self.places[index] = x;
        self.len = index + 1;
        Insertion::Inserted(index)
    }

    // Puts `x` in the place of the item at `index`, if the two are the same. Here and below the index is tested, as the
    // write wants it in range.
    pub fn replace(&mut self, index: usize, x: X) -> bool
        ensures answer { result ≡ is_alike_at X.alike (items_of self.old) index x }
        ensures items { items_of self.new ≡ (if result then slice_set (items_of self.old) index x else items_of self.old) }
        ensures limit { self.new.limit ≡ self.old.limit }
    {
        if index >= self.len {
            return false;
        }
        let item = self.places[index];
        if !item.same(&x) {
            return false;
        }
        self.places[index] = x;
        true
    }

    // Takes the item at `index` out; those behind it move up by one, and the last place serves again.
    pub fn shift_remove(&mut self, index: usize) -> Option<X>
        ensures answer { result ≡ slice_get (items_of self.old) index }
        ensures items { items_of self.new ≡ remove (items_of self.old) index }
        ensures limit { self.new.limit ≡ self.old.limit }
    {
        if index >= self.len {
            return None;
        }
        let item = self.places[index];
        self.places.copy_within(index + 1..self.len, index);
        self.len -= 1;
        Some(item)
    }

    pub fn clear(&mut self)
        ensures items { items_of self.new ≡ [] }
        ensures limit { self.new.limit ≡ self.old.limit }
    {
        self.len = 0;
    }
}
