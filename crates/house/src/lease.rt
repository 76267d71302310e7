ghost use Rattle.std.specs.Prelude.{◌≡◌};

use rules::LeaseNumbers;

// The right to change assignments under one unit. It can be neither copied nor let go: it is made by an accepted
// `acquire` and spent by `release`.
pub struct Lease {
    pub(crate) numbers: LeaseNumbers,
}

impl Lease {
    // The house, the unit and the user of the lease.
    pub fn numbers(&self) -> LeaseNumbers
        ensures { result ≡ self.now.numbers }
    {
        self.numbers
    }
}
