use records::Field;

// What a reader finds, in the order of the text.
#[derive(Clone, Copy, PartialEq, Eq)]
pub enum Event {
    Bare { at: usize, len: usize },
    Quoted { at: usize, len: usize },
    Record { start: usize, next: usize },
    Fault { at: usize },
}

impl From<Field<'_>> for Event {
    fn from(field: Field<'_>) -> Event {
        let len = field.value().len();
        match field {
            Field::Bare { at, .. } => Event::Bare { at, len },
            Field::Quoted { at, .. } => Event::Quoted { at, len },
        }
    }
}
