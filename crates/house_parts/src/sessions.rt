ghost use Rattle.std.specs.Prelude.{◌≡◌, ◌<◌, is_some, Some, None};
ghost use Rattle.rules.specs.States.{nobody, none_active, with_at, with_active, without_active, without_session};
ghost use Rattle.rows.specs.Numbers.{no_numbers};
ghost use Rattle.rows.specs.Rows.{numbers};
ghost use Rattle.search.specs.Below.{some_below};
ghost use Rattle.house_parts.specs.Holding.{user_of, active_of};

use rows::Row;

// Sessions are numbered below this.
pub const SESSIONS: u32 = 16;

// For whom a session lives, and the roles that are active in it.
#[derive(Clone, Copy)]
struct Session {
    user: Option<u32>,
    active: Row,
}

impl Session {
    // With no role active.
    fn new(user: Option<u32>) -> Session
        ensures user { result.user ≡ user }
        ensures active { numbers result.active ≡ no_numbers }
    {
        Session {
            user,
            active: Row::new(),
        }
    }
}

// The sessions, by number.
#[derive(Clone, Copy)]
pub struct Sessions {
    sessions: [Session; SESSIONS as usize],
}

impl Sessions {
    // No session lives.
    pub fn new() -> Sessions
        ensures users { user_of result ≡ nobody }
        ensures active { active_of result ≡ none_active }
    {
        Sessions {
            sessions: [Session::new(None); SESSIONS as usize],
        }
    }

    // The user for whom the session lives.
    pub fn user(&self, session: u32) -> Option<u32>
        ensures { result ≡ user_of self.now session }
    {
        self.sessions
            .get(session as usize)
            .and_then(|place| place.user)
    }

    // The roles that are active in the session.
    pub fn active_roles(&self, session: u32) -> Row
        ensures { numbers result ≡ active_of self.now session }
    {
        match self.sessions.get(session as usize) {
            Some(place) => place.active,
            None => Row::new(),
        }
    }

    // Whether the role is active in the session.
    pub fn is_active(&self, session: u32, role: u32) -> bool
        ensures { result ≡ active_of self.now session role }
    {
        self.active_roles(session).contains(role)
    }

    // The session lives for the user, with no role active. Here and below the caller has refused a
    // number out of range.
    pub fn start(&mut self, session: u32, user: u32)
        requires { session < 16 }
        ensures users { user_of self.new ≡ with_at (user_of self.old) session (Some user) }
        ensures active { active_of self.new ≡ without_session (active_of self.old) session }
    {
        self.sessions[session as usize] = Session::new(Some(user));
    }

    // The session lives no more.
    pub fn end(&mut self, session: u32)
        requires { session < 16 }
        ensures users { user_of self.new ≡ with_at (user_of self.old) session None }
        ensures active { active_of self.new ≡ without_session (active_of self.old) session }
    {
        self.sessions[session as usize] = Session::new(None);
    }

    // The role is active in the session.
    pub fn activate(&mut self, session: u32, role: u32)
        requires { (session < 16) × (role < 32) }
        ensures users { user_of self.new ≡ user_of self.old }
        ensures active { active_of self.new ≡ with_active (active_of self.old) session role }
    {
        self.sessions[session as usize].active.insert(role);
    }

    // The role is not active in the session.
    pub fn deactivate(&mut self, session: u32, role: u32)
        requires { session < 16 }
        ensures users { user_of self.new ≡ user_of self.old }
        ensures active { active_of self.new ≡ without_active (active_of self.old) session role }
    {
        self.sessions[session as usize].active.remove(role);
    }

    // Whether some session lives.
    pub fn is_any_live(&self) -> bool
        ensures { result ≡ some_below (λ k. is_some (user_of self.now k)) 16 }
    {
        self.sessions.iter().any(|session| session.user.is_some())
    }
}
