// Reading the kind and the sizes of a file from the file itself.
ghost use Rattle.file_format.specs.Layout.{sheet_in};
ghost use Rattle.file_format.specs.Rules.{Faulty, RightPart, first_count, sheet_record};
ghost use Rattle.saved_file.specs.ByItself.{by_itself, three_of};
ghost use Rattle.std.specs.Prelude.{◌≡◌, MatchResult};

use super::Head;
use crate::cursor::Cursor;
use refusals::Fault;

// The kind and the sizes, or the fault in section 1.
pub fn read_head(file: &[u8]) -> Result<Head, Fault>
    ensures { MatchResult result (λ h. RightPart (by_itself file.now) file.now first_count × RightPart (by_itself file.now) file.now sheet_record × (three_of h ≡ sheet_in file.now)) (λ fault. Faulty (by_itself file.now) file.now fault) }
{
    let mut cursor = Cursor::new(file);
    cursor.first_count()?;
    cursor.known_sheet_record()
}
