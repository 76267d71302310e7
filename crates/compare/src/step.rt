use std::fmt;
use stores::Pair;

// A pair as text.
#[derive(Clone, Copy)]
pub struct Shown(pub Pair);

impl fmt::Display for Shown {
    fn fmt<W: fmt::Write>(&self, f: &mut fmt::Formatter<W>) -> fmt::Result {
        write!(f, "({}, {})", self.0.left, self.0.right)
    }
}

// One call on a set of pairs.
// It is data and no closure, so that it can be shown, and so that the theorem can speak of a list of steps.
#[derive(Clone, Copy)]
pub enum Step {
    Insert(Pair),
    Remove(Pair),
    Contains(Pair),
}

impl fmt::Display for Step {
    fn fmt<W: fmt::Write>(&self, f: &mut fmt::Formatter<W>) -> fmt::Result {
        match *self {
            Step::Insert(pair) => write!(f, "insert {}", Shown(pair)),
            Step::Remove(pair) => write!(f, "remove {}", Shown(pair)),
            Step::Contains(pair) => write!(f, "contains {}", Shown(pair)),
        }
    }
}
