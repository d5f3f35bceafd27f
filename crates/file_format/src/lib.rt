// The saved file of a sheet: its records, its bytes and its rules, and what holds of every file.
#![tactic(auto)]

mod laws;
mod layout;
mod records;
mod words;

pub use laws::{file_is_right, right_is_the_file, right_or_one_fault, same_grades_same_bytes};
pub use records::{GradeRecord, SheetRecord, Summary};
