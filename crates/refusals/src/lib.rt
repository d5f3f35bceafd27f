// Why a call is refused: eleven reasons, each with its number, and the fault that comes with a
// file that cannot be read.
#![tactic(auto)]

mod fault;
mod refusal;
mod words;

pub use fault::{Cause, Fault, Layer};
pub use refusal::Refusal;
