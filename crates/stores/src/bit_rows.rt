ghost use Rattle.std.specs.Prelude.{◌≡◌, ℕ, Bool, true, not, ◌&&◌};
ghost use Rattle.stores.specs.Pairs.{in_bounds, no_pairs, with_pair};
ghost use Rattle.rows.specs.Rows.{numbers};
ghost use Rattle.stores.specs.Rows.{pairs_in, rows_with};
ghost use Rattle.stores.specs.Bounded.{rows_bounded};

use crate::pair_set::{LEFTS, PairSet};
use rows::Row;

const ROWS: usize = LEFTS as usize;

// A set of pairs as a row of right numbers for each left number.
#[derive(Clone, Copy)]
pub struct BitRows {
    rows: [Row; ROWS],
}

impl BitRows {
    // The empty set.
    pub fn new() -> BitRows
        ensures { pairs_in result ≡ no_pairs }
    {
        let row = Row::new();
        BitRows { rows: [row; ROWS] }
    }

    // The right numbers that stand with a left number: none for one out of bounds.
    pub fn row(&self, left: u32) -> Row
        ensures { numbers result ≡ pairs_in self.now left }
    {
        if left < LEFTS {
            self.rows[left as usize]
        } else {
            Row::new()
        }
    }
}

impl PairSet for BitRows {
    ghost pairs = { pairs_in };

    ghost bounded = { λ s. rows_bounded s.rows };

    fn contains(&self, left: u32, right: u32) -> bool {
        self.row(left).contains(right)
    }

    // Says besides which rows are left, so that what holds them is a function of what it was.
    fn insert(&mut self, left: u32, right: u32) -> bool
        ensures answer { result ≡ (in_bounds left right && not (pairs_in self.old left right)) }
        ensures after { pairs_in self.new ≡ with_pair (pairs_in self.old) left right }
        ensures exact { self.new ≡ rows_with self.old left right }
    {
        if left >= LEFTS {
            return false;
        }
        self.rows[left as usize].insert(right)
    }

    fn remove(&mut self, left: u32, right: u32) -> bool {
        if left >= LEFTS {
            return false;
        }
        self.rows[left as usize].remove(right)
    }

    fn clear(&mut self) {
        *self = BitRows::new();
    }
}
