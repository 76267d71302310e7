// A run from an opening on: a house over two sets of pairs is opened with a draft, and calls are made on it.
ghost use Rattle.std.specs.Prelude.{◌≡◌, Ok, MatchResult};
ghost use Rattle.house.specs.Views.{draft_of, state_of, leases_out};
ghost use Rattle.rules.specs.States.{nobody};
ghost use Rattle.replays.specs.Keeping.{draft_in, state_in};
ghost use Rattle.replays.specs.Playing.{Played};
ghost use Rattle.runs.specs.Law.{Replayed};

use crate::held::HeldLeases;
use crate::keeper::Keeper;
use crate::run::{Failure, Run, Stores};
use house::House;
use refusals::Refusal;
use rules::{Call, Event};
use std::alloc::Global;
use stores::PairSet;
use tables::Draft;

impl<S: PairSet, T: PairSet> Keeper<S, T> {
    // For a house of which no lease is out.
    fn new(house: House<S, T>) -> Keeper<S, T>
        requires { leases_out house ≡ nobody }
        ensures { result.house ≡ house }
    {
        Keeper {
            house,
            held: HeldLeases::new(),
        }
    }

    // Makes the calls, if the house was opened.
    fn play(
        &mut self,
        heap: Global,
        opened: Result<(), Refusal>,
        calls: &[Call],
    ) -> Result<Vec<Event>, Failure>
        ensures same { draft_in self.new ≡ draft_in self.old }
        ensures run { MatchResult result (λ v. (opened ≡ Ok tt) × Replayed (draft_in self.old) (state_in self.old) calls.now v.items (state_in self.new)) (λ f. MatchResult opened (λ _. f ≡ Failure.NoMemory) (λ g. f ≡ Failure.Refused g) × (self.new ≡ self.old)) }
    {
        opened?;
        Ok(runs::replay(heap, self, calls)?)
    }
}

// Opens a house over the two sets with the draft and makes the calls one after another.
// The law of runs holds of exactly what comes back, whatever the makes of the two sets.
pub fn replay<S: PairSet, T: PairSet>(
    heap: Global,
    stores: Stores<S, T>,
    draft: &Draft,
    calls: &[Call],
) -> Run<S, T>
    ensures { Played draft.now calls.now result }
{
    let Stores {
        role_pairs,
        permissions,
    } = stores;
    let mut house = House::new(role_pairs, permissions);
    let opened = house.open(draft);
    let mut keeper = Keeper::new(house);
    let history = keeper.play(heap, opened, calls);
    let Keeper { house, held } = keeper;
    Run {
        house,
        held,
        history,
    }
}
