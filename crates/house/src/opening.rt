ghost use Rattle.std.specs.Prelude.{◌≡◌, true, is_ok, if◌then◌else◌};
ghost use Rattle.lawful.specs.Checking.{is_lawful};
ghost use Rattle.rules.specs.States.{opened};
ghost use Rattle.tables.specs.Drafts.{Empty};
ghost use Rattle.house.specs.Views.{draft_of, state_of, opening};

use crate::house::House;
use assignments::Assignments;
use house_parts::{Leases, Sessions};
use lawful::check_draft;
use refusals::Refusal;
use stores::{BitRows, PairSet};
use tables::{Draft, Relation};

impl<S: PairSet, T: PairSet> House<S, T> {
    // A house that was never opened, over two sets of pairs: nothing is declared in it.
    pub fn new(role_pairs: S, permissions: T) -> House<S, T>
        ensures empty { Empty (draft_of result) }
        ensures state { state_of result ≡ opened (draft_of result) }
    {
        House {
            draft: Draft::new(),
            user_roles: BitRows::new(),
            assignments: Assignments::new(role_pairs, permissions),
            leases: Leases::new(),
            sessions: Sessions::new(),
        }
    }

    // Takes everything from the draft.
    fn load(&mut self, draft: &Draft)
        requires { is_lawful draft.now ≡ true }
        ensures draft { draft_of self.new ≡ draft.now }
        ensures state { state_of self.new ≡ opened draft.now }
    {
        self.assignments.load(draft);
        self.user_roles = *draft.relation(Relation::UserRoles);
        self.leases = Leases::new();
        self.sessions = Sessions::new();
        self.draft = *draft;
    }

    // Opens the house with a draft, unless it is in use or the draft is not lawful. Refused, nothing changes.
    pub fn open(&mut self, draft: &Draft) -> Result<(), Refusal>
        ensures answer { result ≡ opening (state_of self.old) draft.now }
        ensures draft { draft_of self.new ≡ (if is_ok result then draft.now else draft_of self.old) }
        ensures state { state_of self.new ≡ (if is_ok result then opened draft.now else state_of self.old) }
    {
        if self.leases.is_any_out() || self.sessions.is_any_live() {
            return Err(Refusal::HouseInUse);
        }
        check_draft(draft)?;
        self.load(draft);
        Ok(())
    }
}
