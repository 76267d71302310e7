// What a record declares.
ghost use Rattle.std.specs.Prelude.{◌≡◌, ◌<◌, true, length};
ghost use Rattle.forms.specs.Fields.{value_at_lem};
ghost use Rattle.tables.specs.Adding.{with_thing};
ghost use Rattle.tables.specs.Drafts.{things};
ghost use Rattle.values.specs.Names.{spells_name, spelling};

use forms::Form;
use tables::{Draft, Thing};
use values::Name;

// The name behind the record name.
pub(crate) fn new_name(form: &Form<'_, '_>) -> Name
    requires { spells_name (value_at_lem form.now.values 0) ≡ true }
    ensures { spelling result ≡ value_at_lem form.now.values 0 }
{
    // The check of the record found it well written.
    Name::new(form.value_at(0)).unwrap()
}

// Counts one more thing, as `Draft::declare` does, and says besides that there were eight counts: the sheet's own fact asks it.
pub(crate) fn count_up(draft: &mut Draft, thing: Thing)
    requires { things draft.old thing < 32 }
    ensures after { draft.new ≡ with_thing draft.old thing }
    ensures eight { length draft.old.counts ≡ 8 }
{
    draft.counts[thing.index()] += 1;
}
