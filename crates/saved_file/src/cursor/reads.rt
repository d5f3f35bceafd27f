// The layer of bytes: counts and records are taken from the file, or found not to be whole.
ghost use Rattle.std.specs.Prelude.{◌≡◌, [], ◌∷◌, is_ok, if◌then◌else◌, take};
ghost use Rattle.refusals.specs.declared.fault.Cause.TheVariants.{NotWhole};
ghost use Rattle.file_format.specs.Layout.{two_bytes, three_bytes, six_bytes, whole};
ghost use Rattle.file_format.specs.Rules.{answer, first_broken};
ghost use Rattle.saved_file.specs.Cursors.{Moved, ahead};

use super::Cursor;
use file_format::{GradeRecord, SheetRecord};
use refusals::{Cause, Fault};

impl<'a> Cursor<'a> {
    pub fn new(file: &'a [u8]) -> Cursor<'a>
        ensures file { result.file.now ≡ file.now }
        ensures start { result.at ≡ 0 }
    {
        Cursor { file, at: 0 }
    }

    // The next bytes, for a record of a section (0 for its count).
    fn next_bytes<const N: usize>(&mut self, section: u8, number: u16) -> Result<[u8; N], Fault>
        ensures value { result ≡ answer (first_broken ((NotWhole, whole self.old.file.now self.old.at N) ∷ [])) section number self.old.at (take N (ahead self.old)) }
        ensures moved { Moved self.old self.new (if is_ok result then N else 0) }
    {
        let Some((bytes, _)) = self.file[self.at..].split_first_chunk::<N>() else {
            return Err(Fault::of(Cause::NotWhole, section, number, self.at));
        };
        self.at += N;
        Ok(*bytes)
    }

    // A count of two bytes.
    pub fn count(&mut self, section: u8) -> Result<u16, Fault>
        ensures value { result ≡ answer (first_broken ((NotWhole, whole self.old.file.now self.old.at 2) ∷ [])) section 0 self.old.at (two_bytes (ahead self.old)) }
        ensures moved { Moved self.old self.new (if is_ok result then 2 else 0) }
    {
        Ok(u16::from_le_bytes(self.next_bytes(section, 0)?))
    }

    // The record of section 1, of three bytes.
    pub fn sheet_record(&mut self) -> Result<SheetRecord, Fault>
        ensures value { result ≡ answer (first_broken ((NotWhole, whole self.old.file.now self.old.at 3) ∷ [])) 1 1 self.old.at (three_bytes (ahead self.old)) }
        ensures moved { Moved self.old self.new (if is_ok result then 3 else 0) }
    {
        Ok(SheetRecord::from(self.next_bytes(1, 1)?))
    }

    // A grade record of six bytes.
    pub fn grade_record(&mut self, number: u16) -> Result<GradeRecord, Fault>
        ensures value { result ≡ answer (first_broken ((NotWhole, whole self.old.file.now self.old.at 6) ∷ [])) 2 number self.old.at (six_bytes (ahead self.old)) }
        ensures moved { Moved self.old self.new (if is_ok result then 6 else 0) }
    {
        Ok(GradeRecord::from(self.next_bytes(2, number)?))
    }
}
