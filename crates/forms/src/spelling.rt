ghost use Rattle.std.specs.Prelude.{◌≡◌};
ghost use Rattle.forms.specs.Spelling.{spelt};

use kinds::Column;
use values::{Name, flag, number};

// Whether a value is written as a column wants: a name, a number or a flag.
pub fn is_spelt(column: Column, value: &[u8]) -> bool
    ensures { result ≡ spelt column value.now }
{
    match column {
        Column::New(_) | Column::Known(_) => Name::new(value).is_some(),
        Column::Number => number(value).is_some(),
        Column::Flag => flag(value).is_some(),
    }
}
