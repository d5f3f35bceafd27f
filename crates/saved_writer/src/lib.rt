// The writer of a saved file.
#![tactic(auto)]

mod writer;

pub use writer::write_file;
