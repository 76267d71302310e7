ghost use Rattle.std.specs.Prelude.{◌≡◌, length};
ghost use Rattle.kinds.specs.declared.column.NameTable.{NameTable};
ghost use Rattle.names.specs.Spellings.{spellings};
ghost use Rattle.names.specs.Tables.{table_of};
ghost use Rattle.tables.specs.Drafts.{count};

use names::Names;
use tables::Draft;

// What table records build: the declared names, and the draft of a house. There are as many names in each table as items in its list.
// Callers use both fields, and so do the clauses: it has no model.
#[derive(Drop)]
pub struct Sheet<'a> {
    pub names: Names<'a>,
    pub draft: Draft,
    ghost counted: { (t : NameTable) → length (spellings names t) ≡ count draft (table_of t) },
}
