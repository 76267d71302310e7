use tables::{Relation, Thing};

// What a request asks of the house, the sensor board or the week clock: data, with a word and columns each.
#[derive(Clone, Copy)]
pub enum Request {
    Open,
    Start,
    End,
    Activate,
    Drop,
    CheckAccess,
    AssignRolePair,
    RevokeRolePair,
    AssignPermission,
    RevokePermission,
    Sense,
    Clock,
    Window,
}

// What a record does: declare a thing, add to one of the three lists, put a pair in a relation, or ask.
#[derive(Clone, Copy)]
pub enum Kind {
    Declare(Thing),
    Permission,
    RolePair,
    Entry,
    Relate(Relation),
    Ask(Request),
}
