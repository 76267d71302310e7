// What became of an item that was to be put in. A repeat is an outcome and no
// error, so this is no Result.
#[derive(Clone, Copy, Debug)]
pub enum Insertion {
    // It was put in behind the others, at this index.
    Inserted(usize),
    // The same item stands at this index.
    AlreadyThere(usize),
    // There is no room.
    Full,
}
