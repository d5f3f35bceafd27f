// The whole plan of a table of codes, over each of the two books, for a caller that takes its time.
#![tactic(auto)]

mod exports;
mod filling;
mod runs;

pub use exports::{timing_list_plan, timing_table_plan};
pub use runs::plan_again;
