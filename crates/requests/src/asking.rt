// Requests to a site.
ghost use Rattle.std.specs.Prelude.{◌≡◌};
ghost use Rattle.requests.specs.Sites.{site_of};
ghost use Rattle.requests.specs.Answering.{answer_to, after_asked};

use crate::asked::Asked;
use crate::changing::change_at;
use crate::site::Site;
use crate::telling::{sense, set_window};
use refusals::Answer;
use stores::PairSet;

impl<S: PairSet, T: PairSet> Site<S, T> {
    // Does what is asked, and answers it.
    pub fn ask(&mut self, asked: Asked) -> Answer
        ensures answer { result ≡ answer_to (site_of self.old) asked }
        ensures after { site_of self.new ≡ after_asked (site_of self.old) asked }
    {
        match asked {
            Asked::Start { session, user } => self.house.start_session(session, user).into(),
            Asked::End { session } => self.house.end_session(session).into(),
            Asked::Activate { session, role } => self.house.activate_role(session, role).into(),
            Asked::Drop { session, role } => self.house.deactivate_role(session, role).into(),
            Asked::CheckAccess {
                session,
                device,
                operation,
            } => self.check(session, device, operation).into(),
            Asked::Change {
                user,
                unit,
                change,
                spot,
            } => change_at(&mut self.house, user, unit, change, spot).into(),
            Asked::Sense { condition, holds } => sense(&mut self.board, condition, holds).into(),
            Asked::Clock { minute } => self.clock.set_minute(minute).into(),
            Asked::Window {
                condition,
                from,
                to,
            } => set_window(&mut self.clock, condition, from, to).into(),
        }
    }
}
