// The text form of a page: a line of input as a command, and an answer as a line of output.
#![tactic(auto)]

mod command;
mod reply;
mod words;

pub use command::Command;
pub use reply::Reply;
pub use words::parse;
