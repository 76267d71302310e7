ghost use Rattle.std.specs.Prelude.{◌≡◌};
ghost use Rattle.records.specs.Views.{place_of, value_of};

// A field: its value, which is a part of the text, and the place of its first byte in the text.
#[derive(Clone, Copy)]
pub enum Field<'a> {
    Bare { part: &'a [u8], at: usize },
    // The part lies between the quotes, and the place is that of the opening one.
    Quoted { part: &'a [u8], at: usize },
}

impl<'a> Field<'a> {
    pub fn value(self) -> &'a [u8]
        ensures { result.now ≡ value_of self.entry }
    {
        match self {
            Field::Bare { part, .. } | Field::Quoted { part, .. } => part,
        }
    }

    pub fn place(self) -> usize
        ensures { result ≡ place_of self.entry }
    {
        match self {
            Field::Bare { at, .. } | Field::Quoted { at, .. } => at,
        }
    }
}
