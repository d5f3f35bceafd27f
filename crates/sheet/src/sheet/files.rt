// Saving the grades of a sheet, and loading them.
ghost use Rattle.std.specs.Prelude.{◌≡◌, ℕ, ◌≤◌, List};
ghost use Rattle.books.specs.Meaning.{Empty};
ghost use Rattle.file_format.specs.FileOf.{grade_in};
ghost use Rattle.file_format.specs.Laws.{Bytes};
ghost use Rattle.file_format.specs.Layout.{count_in};
ghost use Rattle.file_format.specs.Rules.{just, Right};
ghost use Rattle.pages.specs.Files.{file_at};
ghost use Rattle.pages.specs.Lines.{Opening as Opened, Call, Event};
ghost use Rattle.sheet.specs.Files.{save_answer, save_after, LoadGate, LoadsNow, holding};
ghost use Rattle.sheet.specs.Sheets.{LedTo, RanLine, file_of_sheet};
ghost use Rattle.sheet.specs.Told.{asked, told_done};

use super::admission::{Incoming, check_role};
use super::{Sheet, Stands};
use crate::Role;
use books::{Book, is_empty};
use file_loading::put_records;
use grades::Kind;
use refusals::Refusal;
use saved_file::{CheckedFile, check_file};
use saved_writer::write_file;

impl<B: Book, K: Kind> Sheet<B, K> {
    // Writes the file of the grades at the start of a buffer and answers its length. After any page
    // that is the file of the grades that stand there.
    pub fn save(&self, role: u32, out: &mut [u8]) -> Result<usize, Refusal>
        ensures answer { result ≡ save_answer role (file_of_sheet (⟦<Self as Stands>⟧.stood self.now)) out.old }
        ensures after { out.new ≡ save_after role (file_of_sheet (⟦<Self as Stands>⟧.stood self.now)) out.old }
        ensures standing { (o : Opened) (h : List Event) → LedTo o h (⟦<Self as Stands>⟧.stood self.now)
            → file_of_sheet (⟦<Self as Stands>⟧.stood self.now) ≡ file_at o h }
    {
        check_role(Role::Reader, role)?;
        write_file::<K, B>(&self.book, out)
    }

    // Reads a file into a sheet without grades: the whole file is checked, then the limit, and only
    // then is the first record put.
    pub fn load(&mut self, role: u32, file: &[u8]) -> Result<(), Refusal>
        ensures { (plan set : List ℕ)
            → RanLine (⟦<Self as Stands>⟧.stood self.old) (⟦<Self as Stands>⟧.stood self.new)
            (asked role (Call.load file.now) plan set) (told_done result plan set) }
    {
        self.may_load(role)?;
        self.load_now(file)
    }

    fn may_load(&self, role: u32) -> Result<(), Refusal>
        ensures { LoadGate (⟦<Self as Stands>⟧.stood self.now) role result }
    {
        self.let_in(Role::Manager, role, Incoming::Edit)?;
        if !is_empty(&self.book) {
            return Err(Refusal::NotEmpty);
        }
        Ok(())
    }

    fn load_now(&mut self, file: &[u8]) -> Result<(), Refusal>
        requires { Empty (B.Reading.meaning self.old.book) }
        ensures { LoadsNow (⟦<Self as Stands>⟧.stood self.old) file.now result (⟦<Self as Stands>⟧.stood self.new) }
    {
        let checked = check_file::<K>(file, self.sizes())?;
        if checked.count() > B::LIMIT {
            return Err(Refusal::Full);
        }
        put_file::<B, K>(&mut self.book, &checked);
        Ok(())
    }
}

// Puts every record of a file that was checked for this book.
fn put_file<B: Book, K: Kind>(book: &mut B, file: &CheckedFile<'_>)
    requires empty { Empty (B.Reading.meaning book.old) }
    requires room { count_in file.now.file.now ≤ B.LIMIT }
    requires bytes { Bytes file.now.file.now }
    requires right { Right (just K.NUMBER K.valid (B.Reading.meaning book.old).packages (B.Reading.meaning book.old).translators) file.now.file.now }
    ensures { B.Reading.meaning book.new ≡ holding (B.Reading.meaning book.old) (grade_in file.now.file.now) }
{
    put_records(file, book);
}
