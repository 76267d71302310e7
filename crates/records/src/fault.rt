ghost use Rattle.std.specs.Prelude.{◌≡◌};
ghost use Rattle.refusals.specs.declared.refusal.Refusal.TheVariants.{MalformedRecord};

use refusals::Refusal;

// The byte at fault, by its place in what is read.
#[derive(Clone, Copy, Debug)]
pub struct Fault {
    pub at: usize,
}

impl From<Fault> for Refusal {
    ghost from_gives = { λ fault refusal. refusal ≡ MalformedRecord fault.at };

    fn from(fault: Fault) -> Refusal {
        Refusal::MalformedRecord { at: fault.at }
    }
}
