ghost use Rattle.stores.specs.Alike.{alike_pair};
ghost use Rattle.std.proofs.Common.{rules};

use index_set::Same;

#[derive(Clone, Copy, Debug, PartialEq, Eq)]
pub struct Pair {
    pub left: u32,
    pub right: u32,
}

impl Same for Pair {
    ghost alike = { alike_pair };

    ghost reflexive = { Prim.search rules };

    ghost symmetric = { Prim.search rules };

    ghost transitive = { Prim.search rules };

    fn same(&self, other: &Pair) -> bool {
        self == other
    }
}
