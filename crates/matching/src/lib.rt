// Matching packages with translators: the first plan with the highest lowest grade, or a set of
// packages that shows why there is none.
#![tactic(auto)]

mod best;
mod into;
mod plan;
mod theorems;

pub use best::{BestPlan, best_plan};
pub use into::{Planned, match_into};
pub use plan::Plan;
pub use theorems::{one_best_plan, short_rules_out, tight_rules_out};
