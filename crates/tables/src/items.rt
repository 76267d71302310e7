ghost use Rattle.std.specs.Prelude.{◌≡◌, ◌+◌, ◌<◌, slice_index_or, is_ok, if◌then◌else◌, take};
ghost use Rattle.tables.specs.Adding.{next_number};
ghost use Rattle.tables.specs.Lists.{with_item};

use crate::table::LIST_LIMIT;
use refusals::Refusal;

pub const PLACES: usize = LIST_LIMIT as usize;

// A list of which the first `count` places count: an array, since a draft is Copy and takes no heap.
#[derive(Clone, Copy)]
pub struct Items<X> {
    pub count: u32,
    pub places: [X; PLACES],
}

impl<X: Copy> Items<X> {
    // A list with nothing in it: all places hold the blank.
    pub fn empty(blank: X) -> Items<X>
        ensures { result.count ≡ 0 }
    {
        Items {
            count: 0,
            places: [blank; PLACES],
        }
    }

    // The item at a place.
    pub fn at(&self, place: u32) -> X
        requires { place < 64 }
        ensures { result ≡ slice_index_or self.now.places place result }
    {
        self.places[place as usize]
    }

    // The items that count.
    pub fn listed(&self) -> &[X]
        ensures { result.now ≡ take self.now.count self.now.places }
    {
        let count = self.count.min(LIST_LIMIT) as usize;
        &self.places[..count]
    }

    // Puts one more item into the list. Answers its number.
    pub fn push(&mut self, item: X) -> Result<u32, Refusal>
        ensures answer { result ≡ next_number self.old.count 64 }
        ensures after { self.new ≡ (if is_ok result then with_item self.old item else self.old) }
    {
        let number = self.count;
        if number >= LIST_LIMIT {
            return Err(Refusal::TableFull { at: 0 });
        }
        self.places[number as usize] = item;
        self.count = number + 1;
        Ok(number)
    }
}
