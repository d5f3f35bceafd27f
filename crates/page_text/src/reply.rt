// What one line of the output says.
mod text;

use refusals::Refusal;

// A plan is the translators of packages 1, 2, .. and comes with its lowest code.
#[derive(Clone, Copy)]
pub enum Reply<'a> {
    Ok,
    Short,
    Drawn { code: u32, plan: &'a [u16] },
    Shown { code: u32, plan: &'a [u16] },
    Refused(Refusal),
    BadLine,
    NoSlip,
    Withdrawn,
    TooLong,
}
