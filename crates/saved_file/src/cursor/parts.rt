// The counts of the sections and the end of the file, each held to its rules. A fault from below
// goes up as it is.
ghost use Rattle.std.specs.Prelude.{◌≡◌, ◌+◌, is_ok};
ghost use Rattle.file_format.specs.Layout.{count_in, start_of};
ghost use Rattle.file_format.specs.Rules.{answer, first_broken, first_count_rules, second_count_rules, end_rules};
ghost use Rattle.saved_file.specs.Cursors.{MovedIf};

use super::Cursor;
use refusals::{Cause, Fault};

const MOST_RECORDS: u16 = 3072;

impl<'a> Cursor<'a> {
    // Section 1 has one record.
    pub fn first_count(&mut self) -> Result<(), Fault>
        requires { self.old.at ≡ 0 }
        ensures value { result ≡ answer (first_broken (first_count_rules self.old.file.now)) 1 0 0 tt }
        ensures moved { MovedIf (is_ok result) self.old self.new 2 }
    {
        let count = self.count(1)?;
        if count != 1 {
            return Err(Fault::of(Cause::Count, 1, 0, 0));
        }
        Ok(())
    }

    // Section 2 has as many records as a file may have, or fewer.
    pub fn second_count(&mut self) -> Result<u16, Fault>
        requires { self.old.at ≡ 5 }
        ensures value { result ≡ answer (first_broken (second_count_rules self.old.file.now)) 2 0 5 (count_in self.old.file.now) }
        ensures moved { MovedIf (is_ok result) self.old self.new 2 }
    {
        let count = self.count(2)?;
        if count > MOST_RECORDS {
            return Err(Fault::of(Cause::Count, 2, 0, 5));
        }
        Ok(count)
    }

    // Nothing is left over.
    pub fn at_the_end(&self) -> Result<(), Fault>
        requires { self.now.at ≡ start_of (count_in self.now.file.now + 1) }
        ensures { result ≡ answer (first_broken (end_rules self.now.file.now)) 0 0 (start_of (count_in self.now.file.now + 1)) tt }
    {
        if self.at < self.file.len() {
            return Err(Fault::of(Cause::LeftOver, 0, 0, self.at));
        }
        Ok(())
    }
}
