ghost use Rattle.std.specs.Prelude.{◌≡◌};
ghost use Rattle.console.specs.declared.reply.Unread.TheVariants.{NoMemory};

use refusals::Answer;
use std::alloc::AllocError;
use thiserror::Error;

// What a line of a text is answered, if anything, and how many bytes of the line provided that takes.
#[derive(Clone, Copy)]
pub struct Reply {
    pub answer: Option<Answer>,
    pub written: usize,
}

// Why a text was not read.
#[derive(Clone, Copy, Debug, Error)]
pub enum Unread {
    #[error("the text is too long")]
    TooLong,
    #[error("there is no memory for the answers")]
    NoMemory,
}

impl From<AllocError> for Unread {
    ghost from_gives = { λ _ unread. unread ≡ NoMemory };

    fn from(_: AllocError) -> Unread {
        Unread::NoMemory
    }
}
