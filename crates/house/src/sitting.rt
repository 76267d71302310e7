// The calls of a session.
ghost use Rattle.std.specs.Prelude.{◌≡◌};
ghost use Rattle.refusals.specs.Said.{said};
ghost use Rattle.house.specs.Views.{draft_of, state_of, answer_of, state_after};

use crate::house::House;
use house_parts::{SESSIONS, is_separated};
use refusals::Refusal;
use rules::Call;
use stores::PairSet;
use tables::{Table, Thing};

impl<S: PairSet, T: PairSet> House<S, T> {
    // Starts the session for the user, with no role active.
    pub fn start_session(&mut self, session: u32, user: u32) -> Result<(), Refusal>
        ensures answer { said result ≡ answer_of self.old (Call.Start session user) }
        ensures after { state_of self.new ≡ state_after self.old (Call.Start session user) }
        ensures same { draft_of self.new ≡ draft_of self.old }
    {
        if session >= SESSIONS || !self.draft.is_declared(Table::Things(Thing::User), user) {
            return Err(Refusal::NoSuchNumber);
        }
        if self.sessions.user(session).is_some() {
            return Err(Refusal::SessionLive);
        }
        self.sessions.start(session, user);
        Ok(())
    }

    // Ends the session.
    pub fn end_session(&mut self, session: u32) -> Result<(), Refusal>
        ensures answer { said result ≡ answer_of self.old (Call.End session) }
        ensures after { state_of self.new ≡ state_after self.old (Call.End session) }
        ensures same { draft_of self.new ≡ draft_of self.old }
    {
        if session >= SESSIONS {
            return Err(Refusal::NoSuchNumber);
        }
        if self.sessions.user(session).is_none() {
            return Err(Refusal::SessionNotLive);
        }
        self.sessions.end(session);
        Ok(())
    }

    // Makes a role that the session's user holds active in the session.
    pub fn activate_role(&mut self, session: u32, role: u32) -> Result<(), Refusal>
        ensures answer { said result ≡ answer_of self.old (Call.Activate session role) }
        ensures after { state_of self.new ≡ state_after self.old (Call.Activate session role) }
        ensures same { draft_of self.new ≡ draft_of self.old }
    {
        if session >= SESSIONS || !self.draft.is_declared(Table::Things(Thing::Role), role) {
            return Err(Refusal::NoSuchNumber);
        }
        let Some(user) = self.sessions.user(session) else {
            return Err(Refusal::SessionNotLive);
        };
        if !self.user_roles.contains(user, role) {
            return Err(Refusal::RoleNotHeld);
        }
        if self.sessions.is_active(session, role) {
            return Err(Refusal::RoleUnchanged);
        }
        if is_separated(&self.draft, self.sessions.active_roles(session), role) {
            return Err(Refusal::SeparatedRolesActive);
        }
        self.sessions.activate(session, role);
        Ok(())
    }

    // Drops an active role of the session.
    pub fn deactivate_role(&mut self, session: u32, role: u32) -> Result<(), Refusal>
        ensures answer { said result ≡ answer_of self.old (Call.Deactivate session role) }
        ensures after { state_of self.new ≡ state_after self.old (Call.Deactivate session role) }
        ensures same { draft_of self.new ≡ draft_of self.old }
    {
        if session >= SESSIONS || !self.draft.is_declared(Table::Things(Thing::Role), role) {
            return Err(Refusal::NoSuchNumber);
        }
        if self.sessions.user(session).is_none() {
            return Err(Refusal::SessionNotLive);
        }
        if !self.sessions.is_active(session, role) {
            return Err(Refusal::RoleUnchanged);
        }
        self.sessions.deactivate(session, role);
        Ok(())
    }
}
