ghost use Rattle.std.specs.Prelude.{◌≡◌, ◌<◌};
ghost use Rattle.tables.specs.Limits.{thing_limit, table_limit};
ghost use Rattle.tables.specs.Indices.{thing_index};

// Things that are just numbers: a draft only counts them.
#[derive(Clone, Copy)]
pub enum Thing {
    User,
    Role,
    Device,
    Operation,
    DeviceRole,
    Condition,
    EnvironmentRole,
    Unit,
}

impl Thing {
    // Where the count of these stands among the counts of a draft. A method says what the
    // number is; a `From` would not.
    pub fn index(self) -> usize
        ensures value { result ≡ thing_index self }
        ensures bound { result < 8 }
    {
        self as usize
    }

    // The most of these that a house can have.
    pub fn limit(self) -> u32
        ensures { result ≡ thing_limit self }
    {
        match self {
            Thing::Unit => 16,
            _ => 32,
        }
    }
}

// The most permissions, role pairs or entries that a house can have.
pub const LIST_LIMIT: u32 = 64;

// The lists of a draft.
#[derive(Clone, Copy)]
pub enum Table {
    Things(Thing),
    Permissions,
    RolePairs,
    Entries,
}

impl Table {
    // The most items that the list can have.
    pub fn limit(self) -> u32
        ensures { result ≡ table_limit self }
    {
        match self {
            Table::Things(thing) => thing.limit(),
            Table::Permissions | Table::RolePairs | Table::Entries => LIST_LIMIT,
        }
    }
}
