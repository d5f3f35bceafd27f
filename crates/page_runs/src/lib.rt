// A page in text, from the bytes of the input to the bytes of the output.
#![tactic(auto)]

mod calling;
mod run;
mod step;
mod telling;

pub use run::{MOST_BYTES, answers};
