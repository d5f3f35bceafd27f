// The table book: one cell for each of 48 × 64 pairs.
#![tactic(auto)]

mod cells;
mod table_book;

pub use table_book::TableBook;
