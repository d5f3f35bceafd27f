// Putting the records of a checked file into a book.
#![tactic(auto)]

ghost use Rattle.file_loading.specs.Loaded.{RecordsAreTheGrades, with_record, with_records};
ghost use Rattle.std.specs.Prelude.{◌≡◌, ◌&&◌, if◌then◌else◌, nat_le};

use books::Book;
use saved_file::CheckedFile;

// One record, if the file has it.
fn put_record<B: Book>(file: &CheckedFile<'_>, number: u16, book: &mut B)
    ensures { B.Reading.meaning book.new ≡ (if nat_le 1 number && nat_le number file.now.count then with_record B.LIMIT (B.Reading.meaning book.old) file.now.file.now number else B.Reading.meaning book.old) }
{
    if let Some(found) = file.record(number) {
        let _ = book.put(
            u32::from(found.pkg),
            u32::from(found.translator),
            found.code,
        );
    }
}

// All records, in the order of the file.
pub fn put_records<B: Book>(file: &CheckedFile<'_>, book: &mut B)
    ensures after { B.Reading.meaning book.new ≡ with_records B.LIMIT (B.Reading.meaning book.old) file.now.file.now file.now.count }
    ensures grades { RecordsAreTheGrades }
{
    for number in 1..=file.count() {
        put_record(file, number, book);
    }
}
