use stores::Row;

// One operation of one device.
#[derive(Clone, Copy, PartialEq, Eq)]
pub struct Permission {
    pub device: u32,
    pub operation: u32,
}

// A role under the condition that a set of environment roles is active.
#[derive(Clone, Copy, PartialEq, Eq)]
pub struct RolePair {
    pub role: u32,
    pub environment_roles: Row,
}

// An environment role is active where all conditions of one of its entries hold.
#[derive(Clone, Copy, PartialEq, Eq)]
pub struct Entry {
    pub environment_role: u32,
    pub conditions: Row,
}
