// What one line of the input asks for.

// Numbers stand in the order of the line. A role is any number, since a line with a number that names
// no role is a call all the same, which the sheet refuses. The word of a line that is none of these
// stays a part of the input.
#[derive(Clone, Copy)]
pub enum Command<'a> {
    Open {
        packages: u32,
        translators: u32,
    },
    Grade {
        role: u32,
        pkg: u32,
        translator: u32,
        code: u32,
    },
    Strike {
        role: u32,
        pkg: u32,
        translator: u32,
    },
    Draw {
        role: u32,
    },
    Publish {
        role: u32,
    },
    Withdraw {
        role: u32,
    },
    Show {
        role: u32,
    },
    Unknown(&'a [u8]),
}
