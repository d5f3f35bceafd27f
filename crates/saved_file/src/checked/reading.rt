// What a checked file tells.
ghost use Rattle.file_format.specs.Layout.{record_in, sheet_in, six_bytes, start_of, whole};
ghost use Rattle.std.specs.Prelude.{◌≡◌, ◌&&◌, length, if◌then◌else◌, Some, None, nat_le};

use super::CheckedFile;
use file_format::{GradeRecord, SheetRecord};

// The grade record at the front of some bytes, if they are enough.
fn front_record(bytes: &[u8]) -> Option<GradeRecord>
    ensures { result ≡ (if nat_le 6 (length bytes.now) then Some (six_bytes bytes.now) else None) }
{
    // a rule of the project names a pattern of six bytes here
    let &[pkg, translator, c0, c1, c2, c3, ..] = bytes else {
        return None;
    };
    Some(GradeRecord::from([pkg, translator, c0, c1, c2, c3]))
}

impl<'a> CheckedFile<'a> {
    // How many grade records there are.
    pub fn count(&self) -> u16
        ensures { result ≡ self.now.count }
    {
        self.count
    }

    // The kind number and the sizes, where the file is long enough for them.
    pub fn sheet_record(&self) -> Option<SheetRecord>
        ensures { result ≡ (if whole self.now.file.now 2 3 then Some (sheet_in self.now.file.now) else None) }
    {
        let &[_, _, kind, packages, translators, ..] = self.file else {
            return None;
        };
        Some(SheetRecord::from([kind, packages, translators]))
    }

    // The grade record of a number, counted from 1, where there is one.
    pub fn record(&self, number: u16) -> Option<GradeRecord>
        ensures { result ≡ (if nat_le 1 number && nat_le number self.now.count && whole self.now.file.now (start_of number) 6 then Some (record_in self.now.file.now number) else None) }
    {
        if !(1..=self.count).contains(&number) {
            return None;
        }
        let start = 1 + 6 * usize::from(number);
        front_record(self.file.get(start..)?)
    }
}
