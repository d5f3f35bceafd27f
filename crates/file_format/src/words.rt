// The records of a file in words.
ghost use Rattle.file_format.specs.Words.{grade_line, sheet_line, sheet_words};
ghost use Rattle.std.specs.Prelude.{Some};

use super::{GradeRecord, SheetRecord, Summary};
use grades::KindName;
use std::fmt;

impl fmt::Display for SheetRecord {
    ghost output = { λ found. Some (sheet_words found) };

    fn fmt<W: fmt::Write>(&self, f: &mut fmt::Formatter<W>) -> fmt::Result {
        // a checked file is of one of the two
        let kind = KindName::try_from(self.kind).unwrap_or(KindName::Ratings);
        write!(
            f,
            "{kind}, packages {}, translators {}",
            self.packages, self.translators,
        )
    }
}

impl fmt::Display for Summary {
    ghost output = { λ found. Some (sheet_line found.sheet found.grades) };

    fn fmt<W: fmt::Write>(&self, f: &mut fmt::Formatter<W>) -> fmt::Result {
        write!(f, "{}, grades {}", self.sheet, self.grades)
    }
}

impl fmt::Display for GradeRecord {
    ghost output = { λ found. Some (grade_line found) };

    fn fmt<W: fmt::Write>(&self, f: &mut fmt::Formatter<W>) -> fmt::Result {
        write!(
            f,
            "package {}, translator {}: {}",
            self.pkg, self.translator, self.code,
        )
    }
}
