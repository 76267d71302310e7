ghost use Rattle.std.specs.Prelude.{◌≡◌};
ghost use Rattle.conditions.specs.Windows.{in_window};

use std::cmp::Ordering;

// A part of the week, from one minute up to but not at another.
// It crosses the week's end where it ends before it starts, and is empty where it ends as it starts.
#[derive(Clone, Copy)]
pub struct Window {
    pub from: u32,
    pub to: u32,
}

impl Window {
    pub fn contains(self, minute: u32) -> bool
        ensures { result ≡ in_window minute self.from self.to }
    {
        match self.from.cmp(&self.to) {
            Ordering::Less => self.from <= minute && minute < self.to,
            Ordering::Greater => self.from <= minute || minute < self.to,
            Ordering::Equal => false,
        }
    }
}
