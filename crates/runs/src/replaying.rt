ghost use Rattle.std.specs.Prelude.{◌≡◌, MatchResult};
ghost use Rattle.tables.specs.declared.draft.Draft.{Draft};
ghost use Rattle.rules.specs.States.{State};
ghost use Rattle.rules.specs.Judging.{judge, after};
ghost use Rattle.runs.specs.Law.{Replayed};

use crate::sound::replay_sound;
use refusals::Answer;
use rules::{Call, Event};
use std::alloc::{AllocError, Global};

// What takes calls by the rules: the draft that opened it, and its state.
pub trait Machine {
    ghost draft: { Self → Draft };

    ghost state: { Self → State };

    fn answer(&mut self, call: Call) -> Answer
        ensures answer { result ≡ judge (draft self.old) (state self.old) call }
        ensures after { state self.new ≡ after (draft self.old) (state self.old) call }
        ensures same { draft self.new ≡ draft self.old };
}

// Makes the calls one after another, and gives their history: that of a machine which is sound in every state.
// Where memory for it is short, no call is made and the machine is as it was.
pub fn replay<M: Machine>(
    heap: Global,
    machine: &mut M,
    calls: &[Call],
) -> Result<Vec<Event>, AllocError>
    ensures same { M.draft machine.new ≡ M.draft machine.old }
    ensures run { MatchResult result (λ v. Replayed (M.draft machine.old) (M.state machine.old) calls.now v.items (M.state machine.new)) (λ _. machine.new ≡ machine.old) }
{
    replay_sound(heap, machine, calls)
}
