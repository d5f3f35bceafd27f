// Writes the file of what a reading means: its head, and a record for each grade, row by row.
ghost use Rattle.std.specs.Prelude.{◌≡◌, ◌+◌, ◌*◌, ◌≤◌, length, OnOk};
ghost use Rattle.books.specs.Meaning.{count, in_row, one};
ghost use Rattle.file_format.specs.FileOf.{grade_bytes, grades_bytes, head_bytes, of_grade, row_bytes};
ghost use Rattle.saved_writer.specs.Written.{CodeFits, CodesFit, ReadsBack, RowFits, file_of_meaning, put_at, write_after, write_answer};

use books::{Reading, standing_grades};
use file_format::{GradeRecord, SheetRecord};
use grades::Kind;
use refusals::Refusal;

// `out` and `at` stay two: of a struct that held the loan each function would have to say where it ends.

// The six bytes of one grade.
fn write_grade(out: &mut [u8], at: usize, found: GradeRecord)
    requires { at + 6 ≤ length out.old }
    ensures { out.new ≡ put_at out.old at (grade_bytes found.pkg found.translator found.code) }
{
    out[at..at + 6].copy_from_slice(&<[u8; 6]>::from(found));
}

// The counts and the record of section 1.
fn write_head(out: &mut [u8], sheet: SheetRecord, count: u16)
    requires { 7 ≤ length out.old }
    ensures { out.new ≡ put_at out.old 0 (head_bytes sheet.kind sheet.packages sheet.translators count) }
{
    let [low, high] = count.to_le_bytes();
    out[..7].copy_from_slice(&[
        1,
        0,
        sheet.kind,
        sheet.packages,
        sheet.translators,
        low,
        high,
    ]);
}

// The record of one pair, if it has a grade; answers where it ends.
fn write_pair<R: Reading>(book: &R, pkg: u8, translator: u8, out: &mut [u8], at: usize) -> usize
    requires { at + 6 * one ((R.meaning book.now).grade pkg translator) ≤ length out.old }
    ensures ends { result ≡ at + 6 * one ((R.meaning book.now).grade pkg translator) }
    ensures after { out.new ≡ put_at out.old at (of_grade pkg translator ((R.meaning book.now).grade pkg translator)) }
    ensures code { CodeFits ((R.meaning book.now).grade pkg translator) }
{
    match book.grade_of(u32::from(pkg), u32::from(translator)) {
        Some(code) => {
            let found = GradeRecord {
                pkg,
                translator,
                code,
            };
            write_grade(out, at, found);
            at + 6
        }
        None => at,
    }
}

// The records of one package; answers where they end.
fn write_row<R: Reading>(book: &R, pkg: u8, out: &mut [u8], at: usize) -> usize
    requires { at + 6 * in_row ((R.meaning book.now).grade pkg) (R.meaning book.now).translators ≤ length out.old }
    ensures ends { result ≡ at + 6 * in_row ((R.meaning book.now).grade pkg) (R.meaning book.now).translators }
    ensures after { out.new ≡ put_at out.old at (row_bytes pkg ((R.meaning book.now).grade pkg) (R.meaning book.now).translators) }
    ensures codes { RowFits ((R.meaning book.now).grade pkg) (R.meaning book.now).translators }
{
    let mut end = at;
    for translator in 1..=book.translators() {
        end = write_pair(book, pkg, translator, out, end);
    }
    end
}

// The records of all packages, after the head.
fn write_rows<R: Reading>(book: &R, out: &mut [u8])
    requires { 7 + 6 * count (R.meaning book.now) ≤ length out.old }
    ensures after { out.new ≡ put_at out.old 7 (grades_bytes (R.meaning book.now).grade (R.meaning book.now).packages (R.meaning book.now).translators) }
    ensures codes { CodesFit (R.meaning book.now).grade (R.meaning book.now).packages (R.meaning book.now).translators }
{
    let mut at = 7;
    for pkg in 1..=book.packages() {
        at = write_row(book, pkg, out, at);
    }
}

// Writes the file at the start of a buffer and answers its length.
pub fn write_file<K: Kind, R: Reading>(book: &R, out: &mut [u8]) -> Result<usize, Refusal>
    ensures answer { result ≡ write_answer (file_of_meaning K.NUMBER (R.meaning book.now)) out.old }
    ensures after { out.new ≡ write_after (file_of_meaning K.NUMBER (R.meaning book.now)) out.old }
    ensures read_back { OnOk result (ReadsBack K.NUMBER K.valid (R.meaning book.now)) }
{
    let count = standing_grades(book);
    let length = 7 + 6 * usize::from(count);
    if out.len() < length {
        return Err(Refusal::Space);
    }
    let sheet = SheetRecord {
        kind: K::NUMBER,
        packages: book.packages(),
        translators: book.translators(),
    };
    write_head(out, sheet, count);
    write_rows(book, out);
    Ok(length)
}
