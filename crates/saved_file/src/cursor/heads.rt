// The record of section 1 of a file of which nothing is expected.
ghost use Rattle.file_format.specs.Layout.{sheet_in};
ghost use Rattle.file_format.specs.Rules.{answer, first_broken, sheet_rules};
ghost use Rattle.saved_file.specs.ByItself.{by_itself, told_three};
ghost use Rattle.std.specs.Prelude.{◌≡◌};

use super::Cursor;
use crate::head::Head;
use books::Sizes;
use grades::KindName;
use refusals::{Cause, Fault};

impl<'a> Cursor<'a> {
    // The record of section 1, of a kind that is there and sizes that a book may have.
    pub fn known_sheet_record(&mut self) -> Result<Head, Fault>
        requires { self.old.at ≡ 2 }
        ensures { told_three result ≡ answer (first_broken (sheet_rules (by_itself self.old.file.now) self.old.file.now)) 1 1 2 (sheet_in self.old.file.now) }
    {
        let found = self.sheet_record()?;
        let Ok(kind) = KindName::try_from(found.kind) else {
            return Err(Fault::of(Cause::Kind, 1, 1, 2));
        };
        let Ok(sizes) = Sizes::check(u32::from(found.packages), u32::from(found.translators)) else {
            return Err(Fault::of(Cause::Sizes, 1, 1, 2));
        };
        Ok(Head { kind, sizes })
    }
}
