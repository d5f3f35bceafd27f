// Books: what keeps the grades of pairs of a package and a translator.
#![tactic(auto)]

mod book;
mod counting;
mod pair;
mod reading;
mod sizes;

pub use book::Book;
pub use counting::{is_empty, pass_as_empty, standing_grades};
pub use pair::Pair;
pub use reading::Reading;
pub use sizes::Sizes;
