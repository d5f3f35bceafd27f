// The results of the calls as answers.
ghost use Rattle.std.specs.Prelude.{◌≡◌, ℕ, List};
ghost use Rattle.sheet.specs.Lines.{told_of};
ghost use Rattle.sheet.specs.Told.{told_done, told_spent, told_draw, told_show};

use super::{Answer, Outcome};
use crate::{Draw, Slip};
use refusals::Refusal;

impl From<Result<(), Refusal>> for Answer<Slip> {
    ghost from_gives = { λ answered answer. (plan set : List ℕ) → told_of answer plan set ≡ told_done answered plan set };

    fn from(answered: Result<(), Refusal>) -> Answer<Slip> {
        Answer {
            outcome: answered.map_or_else(Outcome::Refused, |()| Outcome::Done),
            slip: None,
        }
    }
}

impl From<Result<(), (Refusal, Slip)>> for Answer<Slip> {
    ghost from_gives = { λ answered answer. (plan set : List ℕ) → told_of answer plan set ≡ told_spent answered plan set };

    fn from(answered: Result<(), (Refusal, Slip)>) -> Answer<Slip> {
        match answered {
            Ok(()) => Answer {
                outcome: Outcome::Done,
                slip: None,
            },
            Err((refusal, slip)) => Answer {
                outcome: Outcome::Refused(refusal),
                slip: Some(slip),
            },
        }
    }
}

impl From<Result<Option<Draw>, Refusal>> for Answer<Slip> {
    ghost from_gives = { λ answered answer. (plan set : List ℕ) → told_of answer plan set ≡ told_draw answered plan set };

    fn from(answered: Result<Option<Draw>, Refusal>) -> Answer<Slip> {
        match answered {
            Ok(Some(Draw { lowest, slip })) => Answer {
                outcome: Outcome::Drawn(lowest),
                slip: Some(slip),
            },
            Ok(None) => Answer {
                outcome: Outcome::Short,
                slip: None,
            },
            Err(refusal) => Answer {
                outcome: Outcome::Refused(refusal),
                slip: None,
            },
        }
    }
}

impl From<Result<u32, Refusal>> for Answer<Slip> {
    ghost from_gives = { λ answered answer. (plan set : List ℕ) → told_of answer plan set ≡ told_show answered plan set };

    fn from(answered: Result<u32, Refusal>) -> Answer<Slip> {
        Answer {
            outcome: answered.map_or_else(Outcome::Refused, Outcome::Shown),
            slip: None,
        }
    }
}
