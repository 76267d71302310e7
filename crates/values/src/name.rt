ghost use Rattle.std.specs.Prelude.{◌≡◌, ◌<◌, ◌≤◌, true, length, take};
ghost use Rattle.values.specs.Letters.{letters, Blank};

// The most bytes of a name.
pub(crate) const LONGEST: usize = 24;

// A name of 1 to 24 letters, digits or underscores; the bytes behind it are 0.
// An array with a length beside it, so that a name is copied and needs no heap.
#[derive(Clone, Copy)]
pub struct Name {
    pub(crate) bytes: [u8; LONGEST],
    pub(crate) len: usize,
    ghost whole: { length bytes ≡ 24 },
    ghost some: { 0 < len },
    ghost fits: { len ≤ 24 },
    ghost spelt: { letters (take len bytes) ≡ true },
    ghost blank: { Blank len bytes },
}
