// The list book: a book of at most 1,024 grades that keeps the pairs with a grade alone.
#![tactic(auto)]

mod book;
mod entry;

pub use book::ListBook;
