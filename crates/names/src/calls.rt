ghost use Rattle.std.specs.Prelude.{◌≡◌, ◌<◌, ◌≤◌, length, None};
ghost use Rattle.index_set.specs.Found.{place_of};
ghost use Rattle.index_set.specs.Items.{items_of};
ghost use Rattle.std.specs.Str.{bytes_eq};
ghost use Rattle.tables.specs.Limits.{table_limit};
ghost use Rattle.values.specs.Names.{spelling};
ghost use Rattle.names.specs.Tables.{table_of};
ghost use Rattle.names.specs.Spellings.{names_of, spellings, with_name, Made};

use crate::names::{NAME_PLACES, Names, THINGS, UNITS};
use crate::register::{Register, place};
use index_set::IndexSet;
use kinds::NameTable;
use refusals::Refusal;
use tables::Thing;
use values::Name;

impl<'a> Names<'a> {
    // Nine empty tables; refused where the memory has fewer places than they can have names.
    pub fn new(memory: &'a mut [Name]) -> Result<Names<'a>, Refusal>
        ensures { Made memory.old result }
    {
        if memory.len() < NAME_PLACES {
            return Err(Refusal::MemoryTooShort);
        }
        let (users, memory) = memory.split_at_mut(THINGS);
        let (roles, memory) = memory.split_at_mut(THINGS);
        let (devices, memory) = memory.split_at_mut(THINGS);
        let (operations, memory) = memory.split_at_mut(THINGS);
        let (device_roles, memory) = memory.split_at_mut(THINGS);
        let (conditions, memory) = memory.split_at_mut(THINGS);
        let (environment_roles, memory) = memory.split_at_mut(THINGS);
        let (units, role_pairs) = memory.split_at_mut(UNITS);
        Ok(Names {
            users: Register::new(users),
            roles: Register::new(roles),
            devices: Register::new(devices),
            operations: Register::new(operations),
            device_roles: Register::new(device_roles),
            conditions: Register::new(conditions),
            environment_roles: Register::new(environment_roles),
            units: Register::new(units),
            role_pairs: Register::new(role_pairs),
        })
    }

    // The names of a table.
    fn names(&self, table: NameTable) -> &IndexSet<'a, Name>
        ensures names { items_of result.now ≡ names_of self.now table }
        ensures few { result.now.limit ≤ 64 }
    {
        match table {
            NameTable::Things(thing) => match thing {
                Thing::User => &self.users.names,
                Thing::Role => &self.roles.names,
                Thing::Device => &self.devices.names,
                Thing::Operation => &self.operations.names,
                Thing::DeviceRole => &self.device_roles.names,
                Thing::Condition => &self.conditions.names,
                Thing::EnvironmentRole => &self.environment_roles.names,
                Thing::Unit => &self.units.names,
            },
            NameTable::RolePairs => &self.role_pairs.names,
        }
    }

    // The number of the name that the bytes spell in a table; none where no such name is declared there.
    pub fn find(&self, table: NameTable, value: &[u8]) -> Option<u32>
        ensures { result ≡ place_of bytes_eq (spellings self.now table) value.now }
    {
        place(self.names(table), value)
    }

    // Declares a name that a table lacks and has room for.
    // An arm for each table: registers of three types cannot be lent by one function.
    pub fn declare(&mut self, table: NameTable, name: Name)
        requires absent { place_of bytes_eq (spellings self.old table) (spelling name) ≡ None }
        requires room { length (spellings self.old table) < table_limit (table_of table) }
        ensures { spellings self.new ≡ with_name (spellings self.old) table (spelling name) }
    {
        match table {
            NameTable::Things(thing) => match thing {
                Thing::User => self.users.put(name),
                Thing::Role => self.roles.put(name),
                Thing::Device => self.devices.put(name),
                Thing::Operation => self.operations.put(name),
                Thing::DeviceRole => self.device_roles.put(name),
                Thing::Condition => self.conditions.put(name),
                Thing::EnvironmentRole => self.environment_roles.put(name),
                Thing::Unit => self.units.put(name),
            },
            NameTable::RolePairs => self.role_pairs.put(name),
        }
    }
}
