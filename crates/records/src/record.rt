ghost use Rattle.std.specs.Prelude.{◌≡◌, min};

// Fields behind these are counted, not kept.
pub const KEPT_FIELDS: usize = 40;

// A record: how many fields it has in all, the place of its first byte, and the place where the next one begins.
#[derive(Clone, Copy)]
pub struct Record {
    pub count: usize,
    pub start: usize,
    pub next: usize,
}

impl Record {
    // How many of its fields are kept.
    pub fn kept(self) -> usize
        ensures { result ≡ min self.count 40 }
    {
        self.count.min(KEPT_FIELDS)
    }
}
