// The grades of a book as a table of codes that are valid in a kind.
ghost use Rattle.books.specs.Limits.{Within};
ghost use Rattle.bottleneck.specs.Codes.{table_grades};
ghost use Rattle.bottleneck.specs.Grades.{AllValid};
ghost use Rattle.std.specs.Prelude.{◌≡◌, length};

use grades::Kind;
use std::marker::PhantomData;

mod joins;
mod reads;

pub use joins::AtFloor;

// A row has a place for each translator by its number, from 0; so has the table for each package.
const ROW: usize = 65;

const CODES: usize = 49 * ROW;

// Code 0 is no grade, as in the table book, whose array of numbers is a rule of the project.
#[derive(Drop)]
pub struct Table<K: Kind> {
    codes: [u32; CODES],
    pub(crate) packages: u8,
    pub(crate) translators: u8,
    kind: PhantomData<K>,
    ghost sized: { Within packages translators },
    ghost full: { length codes ≡ 3185 },
    ghost valid: { AllValid K.valid (table_grades codes) },
}
