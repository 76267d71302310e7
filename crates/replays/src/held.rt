ghost use Rattle.std.specs.Prelude.{◌≡◌, ◌<◌, true, false, if◌then◌else◌, Some, None, MatchOption};
ghost use Rattle.replays.specs.Holding.{held_of, numbers_in, with_held, none_held, same_numbers, is_lease};

use house::Lease;
use house_parts::UNITS;
use rules::LeaseNumbers;
use std::array;

// Leases that are held, at most one for each unit. It can be neither copied nor let go, as the leases in it.
pub struct HeldLeases {
    by_unit: [Option<Lease>; UNITS as usize],
}

impl HeldLeases {
    pub fn new() -> HeldLeases
        ensures { held_of result ≡ none_held }
    {
        HeldLeases {
            by_unit: array::from_fn(|_unit| None),
        }
    }

    // The lease with these numbers, if it is held.
    pub fn get(&self, numbers: LeaseNumbers) -> Option<&Lease>
        ensures { MatchOption result (is_lease (held_of self.now numbers.unit) numbers ≡ false) (λ l. (l.now.numbers ≡ numbers) × (is_lease (held_of self.now numbers.unit) numbers ≡ true)) }
    {
        if numbers.unit >= UNITS {
            return None;
        }
        match &self.by_unit[numbers.unit as usize] {
            Some(lease) if lease.numbers() == numbers => Some(lease),
            _ => None,
        }
    }

    // Puts the lease in the place of its unit, and gives what was there; a lease of no unit comes back.
    pub fn insert(&mut self, lease: Lease) -> Option<Lease>
        ensures answer { lease.numbers.unit < 16 → numbers_in result ≡ held_of self.old lease.numbers.unit }
        ensures after { lease.numbers.unit < 16 → held_of self.new ≡ with_held (held_of self.old) lease.numbers.unit (Some lease.numbers) }
    {
        let unit = lease.numbers().unit;
        if unit >= UNITS {
            return Some(lease);
        }
        self.by_unit[unit as usize].replace(lease)
    }

    // Takes the lease with these numbers out, if it is held.
    pub fn remove(&mut self, numbers: LeaseNumbers) -> Option<Lease>
        ensures answer { numbers_in result ≡ (if is_lease (held_of self.old numbers.unit) numbers then Some numbers else None) }
        ensures after { held_of self.new ≡ (if is_lease (held_of self.old numbers.unit) numbers then with_held (held_of self.old) numbers.unit None else held_of self.old) }
    {
        if self.get(numbers).is_none() {
            return None;
        }
        self.by_unit[numbers.unit as usize].take()
    }

    // The leases, by unit, for whoever gives them back.
    pub fn into_leases(self) -> [Option<Lease>; UNITS as usize]
        ensures { result ≡ self.by_unit }
    {
        let HeldLeases { by_unit } = self;
        by_unit
    }
}
