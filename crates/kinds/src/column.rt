use tables::Thing;

// The tables that have names of their own.
#[derive(Clone, Copy)]
pub enum NameTable {
    Things(Thing),
    RolePairs,
}

// What a field behind the record name has to be: a name to be declared, a declared name, a number or a flag.
#[derive(Clone, Copy)]
pub enum Column {
    New(NameTable),
    Known(NameTable),
    Number,
    Flag,
}
