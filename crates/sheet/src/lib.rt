// The planning sheet: grades, drawn and published plans, and the calls of readers, editors and
// managers.
#![tactic(auto)]

mod entries;
mod page;
mod role;
mod sheet;
mod slip;

pub use entries::{Ask, Entry, Reply, run_page};
pub use page::{Answer, Call, Line, Outcome};
pub use role::Role;
pub use sheet::{Draw, Sheet, Stands};
pub use slip::Slip;
