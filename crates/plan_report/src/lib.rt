// The report of an office on a saved file: the plan as a table, with the packages to work on.
#![tactic(auto)]

mod firsts;
mod grade;
mod lines;
mod office;
mod whole;

pub use whole::report;
