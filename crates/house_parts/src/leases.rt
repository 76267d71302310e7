ghost use Rattle.std.specs.Prelude.{◌≡◌, ◌<◌, is_some, Some, None};
ghost use Rattle.rules.specs.States.{nobody, with_at};
ghost use Rattle.search.specs.Below.{some_below};
ghost use Rattle.house_parts.specs.Holding.{holder_of};

// Units are numbered below this.
pub const UNITS: u32 = 16;

// To whom the lease of each unit is out.
#[derive(Clone, Copy)]
pub struct Leases {
    users: [Option<u32>; UNITS as usize],
}

impl Leases {
    // No lease is out.
    pub fn new() -> Leases
        ensures { holder_of result ≡ nobody }
    {
        Leases {
            users: [None; UNITS as usize],
        }
    }

    // The user who has the unit's lease.
    pub fn holder(&self, unit: u32) -> Option<u32>
        ensures { result ≡ holder_of self.now unit }
    {
        self.users.get(unit as usize).copied().flatten()
    }

    // The unit's lease goes out to the user.
    pub fn give(&mut self, unit: u32, user: u32)
        requires { unit < 16 }
        ensures { holder_of self.new ≡ with_at (holder_of self.old) unit (Some user) }
    {
        self.users[unit as usize] = Some(user);
    }

    // The unit's lease is back.
    pub fn take_back(&mut self, unit: u32)
        ensures { holder_of self.new ≡ with_at (holder_of self.old) unit None }
    {
        if unit < UNITS {
            self.users[unit as usize] = None;
        }
    }

    // Whether some unit's lease is out.
    pub fn is_any_out(&self) -> bool
        ensures { result ≡ some_below (λ u. is_some (holder_of self.now u)) 16 }
    {
        self.users.iter().any(|user| user.is_some())
    }
}
