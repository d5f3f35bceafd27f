// One line of a page on a sheet: any call with all that it is given, and its answer.
mod answers;
mod calls;

use crate::Slip;
use refusals::Refusal;

// A call with what it is given, but for the buffers that it is lent. Its slip is an `S`, and its file
// an `F`. A role is any number, since any may be given and is refused.
#[derive(Clone, Copy)]
pub enum Call<S, F> {
    Grade {
        role: u32,
        pkg: u32,
        translator: u32,
        code: u32,
    },
    Strike {
        role: u32,
        pkg: u32,
        translator: u32,
    },
    Load {
        role: u32,
        file: F,
    },
    Draw {
        role: u32,
    },
    Publish {
        role: u32,
        slip: S,
    },
    Withdraw {
        role: u32,
        slip: S,
    },
    Show {
        role: u32,
    },
}

// A call with the slip itself and the file as it is lent.
pub type Line<'a> = Call<Slip, &'a [u8]>;

#[derive(Clone, Copy)]
pub enum Outcome {
    Done,
    Drawn(u32),
    Short,
    Shown(u32),
    Refused(Refusal),
}

// The slip is a new one, or one that is handed back.
#[derive(Clone, Copy)]
pub struct Answer<S> {
    pub outcome: Outcome,
    pub slip: Option<S>,
}
