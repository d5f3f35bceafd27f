// The grade records of a checked file, one after the other.
ghost use Rattle.saved_file.specs.Records.{left_of, records_of};
ghost use Rattle.std.specs.Iterator.{YieldsFirst, item_count};
ghost use Rattle.std.specs.Prelude.{◌≡◌, drop};

use super::CheckedFile;
use file_format::GradeRecord;

// The bytes from a record's beginning on, and how many records are still to come.
#[derive(Drop)]
pub struct Records<'a> {
    rest: &'a [u8],
    left: u16,
}

impl<'a> CheckedFile<'a> {
    // The grade records, in the order of the file.
    pub fn records(&self) -> Records<'a>
        ensures { left_of result ≡ records_of (drop 7 self.now.file.now) self.now.count }
    {
        Records {
            rest: self.file.get(7..).unwrap_or(&[]),
            left: self.count,
        }
    }
}

impl<'a> Iterator for Records<'a> {
    type Item = GradeRecord;

    ghost next_gives = { YieldsFirst left_of };

    ghost remaining = { item_count left_of };

    fn next(&mut self) -> Option<GradeRecord> {
        let (bytes, rest) = self.rest.split_first_chunk::<6>()?;
        self.left = self.left.checked_sub(1)?;
        self.rest = rest;
        Some(GradeRecord::from(*bytes))
    }
}
