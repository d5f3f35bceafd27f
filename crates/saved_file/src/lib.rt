// The reader of a saved file: the grades in it, or what is wrong with it and where.
#![tactic(auto)]

mod checked;
mod cursor;
mod head;

pub use checked::{CheckedFile, Records, check_file};
pub use grades::KindName;
pub use head::{Head, check_by_itself, read_head};

// One byte more than the longest file: nothing after it can change what is told of one.
pub const ONE_BYTE_TOO_MANY: u64 = 18_440;
