ghost use Rattle.std.specs.Prelude.{◌≡◌};
ghost use Rattle.refusals.specs.Said.{said, told};

use crate::refusal::Refusal;

// What a call answers: it was accepted; or, of an access check, granted or denied; or it was refused.
// One enum and no Result: each of the four is a line of its own.
#[derive(Clone, Copy)]
pub enum Answer {
    Accepted,
    Granted,
    Denied,
    Refused(Refusal),
}

impl From<Result<(), Refusal>> for Answer {
    ghost from_gives = { λ res answer. answer ≡ said res };

    fn from(res: Result<(), Refusal>) -> Answer {
        match res {
            Ok(()) => Answer::Accepted,
            Err(refusal) => Answer::Refused(refusal),
        }
    }
}

// Of an access check.
impl From<Result<bool, Refusal>> for Answer {
    ghost from_gives = { λ res answer. answer ≡ told res };

    fn from(res: Result<bool, Refusal>) -> Answer {
        match res {
            Ok(true) => Answer::Granted,
            Ok(false) => Answer::Denied,
            Err(refusal) => Answer::Refused(refusal),
        }
    }
}
