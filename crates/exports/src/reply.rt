// What a call says, and the number that stands for it.
ghost use Rattle.exports.specs.Replies.{number};
ghost use Rattle.exports.specs.declared.reply.Failure.TheVariants.{NoMemory, Refused};
ghost use Rattle.std.specs.Prelude.{◌≡◌};

use refusals::Refusal;
use std::alloc::AllocError;

// The two good ends, each with a number of its own for C.
#[derive(Clone, Copy)]
pub(crate) enum Reply {
    Done,
    Short,
}

#[derive(Clone, Copy)]
pub(crate) enum Failure {
    NoMemory,
    Refused(Refusal),
}

// So that `?` carries a refusal, unchanged, out of a call, and a lack of memory.
impl From<Refusal> for Failure {
    ghost from_gives = { λ refusal r. r ≡ Refused refusal };

    fn from(refusal: Refusal) -> Failure {
        Failure::Refused(refusal)
    }
}

impl From<AllocError> for Failure {
    ghost from_gives = { λ _ r. r ≡ NoMemory };

    fn from(_: AllocError) -> Failure {
        Failure::NoMemory
    }
}

// One match: two conversions for the two sides and their join would say the same in more lines.
pub(crate) fn number_of(said: Result<Reply, Failure>) -> u32
    ensures { result ≡ number said }
{
    match said {
        Ok(Reply::Done) => 0,
        Ok(Reply::Short) => 100,
        Err(Failure::NoMemory) => 200,
        Err(Failure::Refused(refusal)) => u32::from(refusal.number()),
    }
}
