// The records of a saved file, as they are read.

// The record of section 1: a kind number and sizes, as yet unchecked.
#[derive(Clone, Copy, PartialEq, Eq, Debug)]
pub struct SheetRecord {
    pub kind: u8,
    pub packages: u8,
    pub translators: u8,
}

// The record of section 1 with the number of grade records.
#[derive(Clone, Copy, PartialEq, Eq, Debug)]
pub struct Summary {
    pub sheet: SheetRecord,
    pub grades: u16,
}

// A record of section 2: the code of one pair.
#[derive(Clone, Copy, PartialEq, Eq, Debug)]
pub struct GradeRecord {
    pub pkg: u8,
    pub translator: u8,
    pub code: u32,
}
