// The bottleneck: the highest lowest grade of any plan, and the first plan that has it.
#![tactic(auto)]

mod best;
mod floors;
mod leads;
mod table;

pub use best::{BestMatching, best_matching};
use table::Table;
