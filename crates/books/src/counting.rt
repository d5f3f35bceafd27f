// What can be told of a book by reading it through.
ghost use Rattle.std.specs.Prelude.{◌≡◌, ◌≤◌, MatchBool, MatchResult};
ghost use Rattle.books.specs.Meaning.{Empty, count, in_row};
ghost use Rattle.refusals.specs.declared.refusal.Refusal.TheVariants.{NotEmpty};

use super::{Book, Reading};
use refusals::Refusal;

// How many grades stand in the row of one package.
fn grades_of_package<R: Reading>(book: &R, pkg: u32) -> u16
    ensures count { result ≡ in_row ((R.meaning book.now).grade pkg) (R.meaning book.now).translators }
    ensures bound { result ≤ 64 }
{
    (1..=u32::from(book.translators()))
        .filter(|&translator| book.grade_of(pkg, translator).is_some())
        .count() as u16
}

// How many grades stand in a book.
pub fn standing_grades<R: Reading>(book: &R) -> u16
    ensures { result ≡ count (R.meaning book.now) }
{
    (1..=u32::from(book.packages()))
        .map(|pkg| grades_of_package(book, pkg))
        .sum()
}

pub fn is_empty<R: Reading>(book: &R) -> bool
    ensures { MatchBool result (Empty (R.meaning book.now)) (Empty (R.meaning book.now) → ⊥) }
{
    standing_grades(book) == 0
}

// Passes a book on if it has no grade, and else hands it back as it was.
pub fn pass_as_empty<B: Book>(book: B) -> Result<B, (Refusal, B)>
    ensures { MatchResult result (λ b. (b ≡ book) × Empty (B.Reading.meaning book)) (λ e. (e ≡ (NotEmpty, book)) × (Empty (B.Reading.meaning book) → ⊥)) }
{
    if is_empty(&book) {
        Ok(book)
    } else {
        Err((Refusal::NotEmpty, book))
    }
}
