// Matching by augmenting paths: each package a translator of its own, in any pattern of pairs that
// may be matched.
#![tactic(auto)]

mod firsts;
mod members;
mod owners;
mod paths;
mod pattern;

pub use members::Members;
pub use owners::Owners;
pub use pattern::Pattern;

pub const MOST_PACKAGES: u8 = 48;

pub const MOST_TRANSLATORS: u8 = 64;
