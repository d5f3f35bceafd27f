// Filling a book from a table of codes: a row for each package, 0 where there is no grade.
ghost use Rattle.std.specs.Prelude.{◌≡◌, ◌<◌, ◌≤◌, if◌then◌else◌, Ok, MatchResult, ◌==◌};
ghost use Rattle.books.specs.Changes.{put_after, put_answer};
ghost use Rattle.books.specs.Meaning.{Empty, count};
ghost use Rattle.timing.specs.Table.{Overfull, Partly, sheet_of};

use books::{Book, Reading};
use refusals::Refusal;

fn put_code<B: Book>(book: &mut B, pkg: u32, translator: u32, code: u32) -> Result<(), Refusal>
    ensures answer { result ≡ (if code == 0 then Ok tt else put_answer B.LIMIT (B.Reading.meaning book.old) pkg translator code) }
    ensures after { B.Reading.meaning book.new ≡ (if code == 0 then B.Reading.meaning book.old else put_after B.LIMIT (B.Reading.meaning book.old) pkg translator code) }
{
    if code == 0 {
        return Ok(());
    }
    book.put(pkg, translator, code)
}

// The codes of one package, below rows that are filled.
// Rows and columns go by number, not by chunks: a pair is named by both, and a table may end early.
fn fill_row<B: Book>(book: &mut B, codes: &[u32], row: u8) -> Result<(), Refusal>
    requires row { row < (B.Reading.meaning book.old).packages }
    requires filled { Partly B.LIMIT codes.now row 0 (B.Reading.meaning book.old) }
    ensures packages { (B.Reading.meaning book.new).packages ≡ (B.Reading.meaning book.old).packages }
    ensures translators { (B.Reading.meaning book.new).translators ≡ (B.Reading.meaning book.old).translators }
    ensures answer { MatchResult result (λ _. Partly B.LIMIT codes.now row (B.Reading.meaning book.new).translators (B.Reading.meaning book.new)) (λ e. Overfull B.LIMIT (B.Reading.meaning book.old).packages (B.Reading.meaning book.old).translators codes.now e) }
{
    let translators = book.translators();
    for column in 0..translators {
        let at = row as usize * translators as usize + column as usize;
        // past the end of the table there is no grade
        let code = codes.get(at).copied().unwrap_or(0);
        put_code(book, row as u32 + 1, column as u32 + 1, code)?;
    }
    Ok(())
}

// Puts every code of the table, or stops where the book is full.
pub(crate) fn fill<B: Book>(book: &mut B, codes: &[u32]) -> Result<(), Refusal>
    requires { Empty (B.Reading.meaning book.old) }
    ensures { MatchResult result (λ _. (count (B.Reading.meaning book.new) ≤ B.LIMIT) × (B.Reading.meaning book.new ≡ sheet_of (B.Reading.meaning book.old).packages (B.Reading.meaning book.old).translators codes.now)) (λ e. Overfull B.LIMIT (B.Reading.meaning book.old).packages (B.Reading.meaning book.old).translators codes.now e) }
{
    for row in 0..book.packages() {
        fill_row(book, codes, row)?;
    }
    Ok(())
}
