ghost use Rattle.std.specs.Prelude.{◌≡◌, MatchResult};
ghost use Rattle.tables.specs.declared.draft.Draft.{Draft};
ghost use Rattle.rules.specs.States.{State};
ghost use Rattle.rules.specs.Judging.{judge, after};
ghost use Rattle.runs.specs.Law.{Replayed};

use crate::replaying::Machine;
use refusals::Answer;
use rules::{Call, Event};
use std::alloc::{AllocError, Global};

// What takes calls by the rules where it is sound: an opening leads there, and no call leads away.
pub trait SoundMachine {
    ghost draft: { Self → Draft };

    ghost state: { Self → State };

    ghost sound: { Self → Type 0 };

    fn answer(&mut self, call: Call) -> Answer
        ensures answer { sound self.old → result ≡ judge (draft self.old) (state self.old) call }
        ensures after { sound self.old → state self.new ≡ after (draft self.old) (state self.old) call }
        ensures sound { sound self.old → sound self.new }
        ensures same { draft self.new ≡ draft self.old };
}

// A machine is sound in every state.
impl<M: Machine> SoundMachine for M {
    ghost use Rattle.std.specs.Prelude.{◌≡◌, true};

    ghost draft = { M.draft };

    ghost state = { M.state };

    ghost sound = { λ _. true ≡ true };

    fn answer(&mut self, call: Call) -> Answer {
        Machine::answer(self, call)
    }
}

// Makes the calls one after another, and gives their history: of a sound machine, the one that the rules give.
// Where memory for it is short, no call is made and the machine is as it was.
pub fn replay_sound<M: SoundMachine>(
    heap: Global,
    machine: &mut M,
    calls: &[Call],
) -> Result<Vec<Event>, AllocError>
    ensures same { M.draft machine.new ≡ M.draft machine.old }
    ensures sound { M.sound machine.old → M.sound machine.new }
    ensures run { MatchResult result (λ v. M.sound machine.old → Replayed (M.draft machine.old) (M.state machine.old) calls.now v.items (M.state machine.new)) (λ _. machine.new ≡ machine.old) }
{
    let mut history = Vec::with_capacity(heap, calls.len())?;
    // Not a collect: its memory could turn out short when calls are already made.
    for call in calls {
        let answer = machine.answer(*call);
        history.push_reserved(Event {
            call: *call,
            answer,
        });
    }
    Ok(history)
}
