// Lines, words and numbers of a text given as bytes.
#![tactic(auto)]

mod digits;
mod lines;
mod pieces;

pub use digits::{numbers, numeral};
pub use lines::Lines;
pub use pieces::first_piece;
