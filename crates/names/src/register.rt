// One register of names.
ghost use Rattle.std.specs.Prelude.{◌≡◌, ◌<◌, ◌≤◌, [], ◌∷◌, ◌++◌, length, None};
ghost use Rattle.index_set.specs.Found.{place_of};
ghost use Rattle.index_set.specs.Items.{items_of};
ghost use Rattle.std.specs.Str.{bytes_eq};
ghost use Rattle.values.specs.Names.{spelling};
ghost use Rattle.names.specs.Spelt.{spelt};

use index_set::IndexSet;
use values::Name;

// Names in order of declaration, no two spelt alike, and at most so many.
#[derive(Drop)]
pub struct Register<'a, const LIMIT: usize> {
    pub(crate) names: IndexSet<'a, Name>,
    ghost limit: { names.limit ≡ LIMIT },
    ghost small: { LIMIT ≤ 64 },
}

impl<'a, const LIMIT: usize> Register<'a, LIMIT> {
    // No name, over memory that has the places.
    pub(crate) fn new(memory: &'a mut [Name]) -> Register<'a, LIMIT>
        requires small { LIMIT ≤ 64 }
        requires places { LIMIT ≤ length memory.old }
        ensures { items_of result.names ≡ [] }
    {
        // The memory has the places.
        let names = IndexSet::new(memory, LIMIT).unwrap();
        Register { names }
    }

    // Puts a name in behind the others.
    pub(crate) fn put(&mut self, name: Name)
        requires absent { place_of bytes_eq (spelt (items_of self.old.names)) (spelling name) ≡ None }
        requires room { length (spelt (items_of self.old.names)) < LIMIT }
        ensures { spelt (items_of self.new.names) ≡ spelt (items_of self.old.names) ++ spelling name ∷ [] }
    {
        self.names.insert(name);
    }
}

// The place of the name that the bytes spell among the names of a register.
pub(crate) fn place(names: &IndexSet<Name>, value: &[u8]) -> Option<u32>
    requires { names.now.limit ≤ 64 }
    ensures { result ≡ place_of bytes_eq (spelt (items_of names.now)) value.now }
{
    let name = Name::new(value)?;
    let index = names.index_of(&name)?;
    Some(index as u32)
}
