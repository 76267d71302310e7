ghost use Rattle.std.specs.Prelude.{◌≡◌, ◌-◌, length};
ghost use Rattle.forms.specs.Fields.{values, value_at_lem, written_number, written_flag};
ghost use Rattle.forms.specs.Spelling.{all_spelt};
ghost use Rattle.kinds.specs.Columns.{column_at};

use crate::spelling::is_spelt;
use kinds::{Column, Kind};
use records::Field;
use std::marker::Model;
use values::{flag, number};

// A record of a known kind, with the fields that are kept of it. The first is its name; place 0 is that of the field behind it.
#[derive(Drop)]
pub struct Form<'f, 'a> {
    kind: Kind,
    fields: &'f [Field<'a>],
}

impl<'f, 'a> Model for Form<'f, 'a> {
    ghost use Rattle.forms.specs.Fields.{Content};

    ghost Value = { Content };

    ghost use Rattle.forms.specs.Fields.{values};

    ghost view = { λ f. record { kind = f.kind; values = values f.fields.now } };
}

impl<'f, 'a> Form<'f, 'a> {
    pub fn new(kind: Kind, fields: &'f [Field<'a>]) -> Form<'f, 'a>
        ensures kind { result.kind ≡ kind }
        ensures values { result.values ≡ values fields.now }
    {
        Form { kind, fields }
    }

    pub fn kind(&self) -> Kind
        ensures { result ≡ self.now.kind }
    {
        self.kind
    }

    // How many fields stand behind the record name.
    pub fn places(&self) -> usize
        ensures { result ≡ length self.now.values - 1 }
    {
        self.fields.len().saturating_sub(1)
    }

    // The column that a place has.
    pub fn column(&self, place: usize) -> Column
        ensures { result ≡ column_at self.now.kind place }
    {
        self.kind.column(place)
    }

    // The value of the field at a place; empty where there is none.
    pub fn value_at(&self, place: usize) -> &'a [u8]
        ensures { result.now ≡ value_at_lem self.now.values place }
    {
        match self.fields {
            [_, rest @ ..] => match rest.get(place) {
                Some(field) => field.value(),
                None => b"",
            },
            [] => b"",
        }
    }

    // The number that is written at a place; 0 where none is, here and above: the check of a record has refused that.
    pub fn number_at(&self, place: usize) -> u32
        ensures { result ≡ written_number (value_at_lem self.now.values place) }
    {
        number(self.value_at(place)).unwrap_or(0)
    }

    // The flag that is written at a place; false where none is.
    pub fn flag_at(&self, place: usize) -> bool
        ensures { result ≡ written_flag (value_at_lem self.now.values place) }
    {
        flag(self.value_at(place)).unwrap_or(false)
    }

    // Whether every field behind the record name is written as its column wants.
    pub fn is_spelt(&self) -> bool
        ensures { result ≡ all_spelt self.now.kind self.now.values }
    {
        (0..self.places()).all(|place| is_spelt(self.column(place), self.value_at(place)))
    }
}
