use rules::Spot;

// The two ways to change a pair.
#[derive(Clone, Copy)]
pub enum Change {
    Assign,
    Revoke,
}

// A request, its names resolved to numbers. Any number may be named. It is data and no closure: the rules speak of it.
#[derive(Clone, Copy)]
pub enum Asked {
    Start {
        session: u32,
        user: u32,
    },
    End {
        session: u32,
    },
    Activate {
        session: u32,
        role: u32,
    },
    Drop {
        session: u32,
        role: u32,
    },
    CheckAccess {
        session: u32,
        device: u32,
        operation: u32,
    },
    Change {
        user: u32,
        unit: u32,
        change: Change,
        spot: Spot,
    },
    Sense {
        condition: u32,
        holds: bool,
    },
    Clock {
        minute: u32,
    },
    Window {
        condition: u32,
        from: u32,
        to: u32,
    },
}
