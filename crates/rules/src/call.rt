use refusals::Answer;
use rows::Row;

// A place in one of the two assignment relations.
#[derive(Clone, Copy)]
pub enum Spot {
    RolePair { role_pair: u32, device_role: u32 },
    Permission { permission: u32, device_role: u32 },
}

// The three numbers that a lease is.
#[derive(Clone, Copy, PartialEq, Eq)]
pub struct LeaseNumbers {
    pub house: u32,
    pub unit: u32,
    pub user: u32,
}

// The calls of a running house. Any number may be named.
#[derive(Clone, Copy)]
pub enum Call {
    Acquire {
        unit: u32,
        user: u32,
    },
    Assign {
        lease: LeaseNumbers,
        spot: Spot,
    },
    Revoke {
        lease: LeaseNumbers,
        spot: Spot,
    },
    Release {
        lease: LeaseNumbers,
    },
    Start {
        session: u32,
        user: u32,
    },
    End {
        session: u32,
    },
    Activate {
        session: u32,
        role: u32,
    },
    Deactivate {
        session: u32,
        role: u32,
    },
    // with the conditions that hold
    Check {
        session: u32,
        device: u32,
        operation: u32,
        conditions: Row,
    },
}

// A call and what it was answered.
#[derive(Clone, Copy)]
pub struct Event {
    pub call: Call,
    pub answer: Answer,
}
