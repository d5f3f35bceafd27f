// Reading a file of which the kind and the sizes are expected: each record is held to its rules, in
// their order.
ghost use Rattle.std.specs.Prelude.{◌≡◌, ◌≤◌, ◌+◌, [], ◌∷◌, MatchResult, is_ok};
ghost use Rattle.books.specs.Limits.{inside};
ghost use Rattle.refusals.specs.declared.fault.Cause.TheVariants.{NotWhole, Place, Code};
ghost use Rattle.file_format.specs.Layout.{after, count_in, six_bytes, start_of, whole};
ghost use Rattle.file_format.specs.Rules.{Faulty, RecordsRight, Right, RightPart, answer, first_broken, first_count, grade_rules, second_count, sheet_record, sheet_rules};

use super::Cursor;
use books::Sizes;
use file_format::GradeRecord;
use grades::Kind;
use refusals::{Cause, Fault};
use std::marker::PhantomData;

// A kind and sizes.
#[derive(Drop)]
pub struct Expected<K> {
    sizes: Sizes,
    kind: PhantomData<K>,
}

// Whether a record comes after the one before it, where there is one.
fn comes_after(before: Option<GradeRecord>, found: GradeRecord) -> bool
    ensures { result ≡ after before found }
{
    before.is_none_or(|last| (last.pkg, last.translator) < (found.pkg, found.translator))
}

impl<K: Kind> Expected<K> {
    ghost use Rattle.saved_file.specs.Cursors.{MovedIf, ahead};
    ghost use Rattle.saved_file.specs.Expecting.{of_kind};

    pub fn new(sizes: Sizes) -> Expected<K>
        ensures { result.sizes ≡ sizes }
    {
        Expected {
            sizes,
            kind: PhantomData,
        }
    }

    // The record of section 1, of the kind and the sizes expected.
    fn sheet_record(&self, cursor: &mut Cursor<'_>) -> Result<(), Fault>
        requires { cursor.old.at ≡ 2 }
        ensures value { result ≡ answer (first_broken (sheet_rules (of_kind K.NUMBER K.valid self.now) cursor.old.file.now)) 1 1 2 tt }
        ensures moved { MovedIf (is_ok result) cursor.old cursor.new 3 }
    {
        let found = cursor.sheet_record()?;
        if found.kind != K::NUMBER {
            return Err(Fault::of(Cause::Kind, 1, 1, 2));
        }
        if (found.packages, found.translators)
            != (self.sizes.packages(), self.sizes.translators())
        {
            return Err(Fault::of(Cause::Sizes, 1, 1, 2));
        }
        Ok(())
    }

    // A grade record by itself: its place inside the sizes, its code valid in the kind.
    fn grade_record(&self, cursor: &mut Cursor<'_>, number: u16) -> Result<GradeRecord, Fault>
        ensures value { result ≡ answer (first_broken ((NotWhole, whole cursor.old.file.now cursor.old.at 6) ∷ (Place, inside self.now.sizes.packages self.now.sizes.translators (six_bytes (ahead cursor.old)).pkg (six_bytes (ahead cursor.old)).translator) ∷ (Code, K.valid (six_bytes (ahead cursor.old)).code) ∷ [])) 2 number cursor.old.at (six_bytes (ahead cursor.old)) }
        ensures moved { MovedIf (is_ok result) cursor.old cursor.new 6 }
    {
        let at = cursor.at;
        let found = cursor.grade_record(number)?;
        if !self
            .sizes
            .holds(u32::from(found.pkg), u32::from(found.translator))
        {
            return Err(Fault::of(Cause::Place, 2, number, at));
        }
        if !K::is_valid(found.code) {
            return Err(Fault::of(Cause::Code, 2, number, at));
        }
        Ok(found)
    }

    // A grade record after the one before it.
    fn next_grade_record(
        &self,
        cursor: &mut Cursor<'_>,
        number: u16,
        before: Option<GradeRecord>,
    ) -> Result<GradeRecord, Fault>
        ensures value { result ≡ answer (first_broken (grade_rules (of_kind K.NUMBER K.valid self.now) cursor.old.file.now cursor.old.at before)) 2 number cursor.old.at (six_bytes (ahead cursor.old)) }
        ensures moved { MovedIf (is_ok result) cursor.old cursor.new 6 }
    {
        let at = cursor.at;
        let found = self.grade_record(cursor, number)?;
        if !comes_after(before, found) {
            return Err(Fault::of(Cause::NotAfter, 2, number, at));
        }
        Ok(found)
    }

    // The grade records, each after the one before.
    fn grade_records(&self, cursor: &mut Cursor<'_>, count: u16) -> Result<(), Fault>
        requires at { cursor.old.at ≡ 7 }
        requires count { (count ≡ count_in cursor.old.file.now) × (count ≤ 3072) }
        requires first { RightPart (of_kind K.NUMBER K.valid self.now) cursor.old.file.now first_count }
        requires sheet { RightPart (of_kind K.NUMBER K.valid self.now) cursor.old.file.now sheet_record }
        requires second { RightPart (of_kind K.NUMBER K.valid self.now) cursor.old.file.now second_count }
        ensures told { MatchResult result (λ _. (cursor.new.at ≡ start_of (count + 1)) × RecordsRight (of_kind K.NUMBER K.valid self.now) cursor.old.file.now count) (λ f. Faulty (of_kind K.NUMBER K.valid self.now) cursor.old.file.now f) }
        ensures file { cursor.new.file.now ≡ cursor.old.file.now }
    {
        let mut before = None;
        for number in 1..=count {
            before = Some(self.next_grade_record(cursor, number, before)?);
        }
        Ok(())
    }

    // How many grade records a right file has; else its fault.
    pub fn read(&self, file: &[u8]) -> Result<u16, Fault>
        ensures { MatchResult result (λ n. (n ≡ count_in file.now) × Right (of_kind K.NUMBER K.valid self.now) file.now) (λ fault. Faulty (of_kind K.NUMBER K.valid self.now) file.now fault) }
    {
        let mut cursor = Cursor::new(file);
        cursor.first_count()?;
        self.sheet_record(&mut cursor)?;
        let count = cursor.second_count()?;
        self.grade_records(&mut cursor, count)?;
        cursor.at_the_end()?;
        Ok(count)
    }
}
