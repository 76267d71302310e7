ghost use Rattle.std.specs.Prelude.{◌≡◌, ℕ, Bool, MatchResult};
ghost use Rattle.compare.specs.Playing.{answer_to, after_step};
ghost use Rattle.compare.specs.Agreeing.{Agreed};

use crate::step::Step;
use std::alloc::{AllocError, Global};
use stores::{Pair, PairSet, fill};

// What two sets answered to one step.
#[derive(Clone, Copy)]
pub struct Answers {
    pub one: bool,
    pub two: bool,
}

pub fn play<S: PairSet>(store: &mut S, step: Step) -> bool
    ensures answer { result ≡ answer_to (S.pairs store.old) step }
    ensures after { S.pairs store.new ≡ after_step (S.pairs store.old) step }
{
    match step {
        Step::Insert(pair) => store.insert(pair.left, pair.right),
        Step::Remove(pair) => store.remove(pair.left, pair.right),
        Step::Contains(pair) => store.contains(pair.left, pair.right),
    }
}

// Fills two sets with the same pairs and plays the same steps on both.
// Where memory for the answers is short, both sets are left as they were.
pub fn compare<S: PairSet, T: PairSet>(
    heap: Global,
    one: &mut S,
    two: &mut T,
    opening: &[Pair],
    steps: &[Step],
) -> Result<Vec<Answers>, AllocError>
    ensures { MatchResult result (λ v. Agreed opening.now steps.now v.items (S.PairSet.pairs one.new) (T.PairSet.pairs two.new)) (λ _. (one.new ≡ one.old) × (two.new ≡ two.old)) }
{
    let mut answers = Vec::with_capacity(heap, steps.len())?;
    fill(one, opening);
    fill(two, opening);
    // Not a collect: its memory could turn out short when steps are already played.
    for step in steps {
        let one = play(one, *step);
        let two = play(two, *step);
        answers.push_reserved(Answers { one, two });
    }
    Ok(answers)
}
