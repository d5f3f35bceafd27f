// Points, two packages, two translators, and the grades (1, 1) = 700, (1, 2) = 400, (2, 1) = 650.
use books::{Book, Reading, Sizes};
use file_format::GradeRecord;
use file_loading::put_records;
use grades::Points;
use list_book::ListBook;
use refusals::{Fault, Refusal};
use saved_file::check_file;
use saved_writer::write_file;
use std::test::Fail;
use table_book::TableBook;

pub const EXAMPLE: [u8; 25] = [
    0x01, 0x00, 0x01, 0x02, 0x02, 0x03, 0x00, 0x01, 0x01, 0xBC, 0x02, 0x00, 0x00, 0x01, 0x02, 0x90,
    0x01, 0x00, 0x00, 0x02, 0x01, 0x8A, 0x02, 0x00, 0x00,
];

// What is wrong with a file of points, if anything is.
pub fn told(file: &[u8], packages: u32, translators: u32) -> Result<Option<Fault>, Refusal> {
    Ok(check_file::<Points>(file, Sizes::check(packages, translators)?).err())
}

// The same of its first bytes alone.
pub fn told_front(
    file: &[u8],
    length: usize,
    packages: u32,
    translators: u32,
) -> Result<Option<Fault>, Refusal> {
    told(&file[..length.min(file.len())], packages, translators)
}

#[test]
fn example_is_read(rt: HostRuntime) -> Result<(), Fail> {
    let Ok(file) = check_file::<Points>(&EXAMPLE, Sizes::check(2, 2)?) else {
        return Err(Fail::new("refused"));
    };
    assert_eq!(rt; file.count(), 3);
    let second = GradeRecord {
        pkg: 1,
        translator: 2,
        code: 400,
    };
    assert_eq!(rt; file.record(2), Some(second));
    let third = GradeRecord {
        pkg: 2,
        translator: 1,
        code: 650,
    };
    assert_eq!(rt; file.record(3), Some(third));
    assert!(rt;
        file.record(0).is_none() && file.record(4).is_none(),
        "no such record"
    );
    Ok(())
}

#[test]
fn example_is_written(rt: HostRuntime) -> Result<(), Fail> {
    let mut book = TableBook::new(Sizes::check(2, 2)?);
    book.put(2, 1, 650)?;
    book.put(1, 2, 400)?;
    book.put(1, 1, 700)?;
    let mut short = [7u8; 24];
    assert_eq!(rt;
        write_file::<Points, TableBook>(&book, &mut short),
        Err(Refusal::Space)
    );
    assert!(rt; short == [7u8; 24], "as it was");
    let mut buffer = [7u8; 27];
    assert_eq!(rt; write_file::<Points, TableBook>(&book, &mut buffer), Ok(25));
    assert!(rt; buffer.starts_with(&EXAMPLE) && buffer[25] == 7 && buffer[26] == 7);
    Ok(())
}

#[test]
fn example_is_loaded(rt: HostRuntime) -> Result<(), Fail> {
    let Ok(file) = check_file::<Points>(&EXAMPLE, Sizes::check(2, 2)?) else {
        return Err(Fail::new("refused"));
    };
    let mut book = ListBook::new(Sizes::check(2, 2)?);
    put_records(&file, &mut book);
    assert_eq!(rt; book.grade_of(1, 2), Some(400));
    assert_eq!(rt; book.grade_of(2, 2), None);
    let mut buffer = [0u8; 25];
    assert_eq!(rt; write_file::<Points, ListBook>(&book, &mut buffer), Ok(25));
    assert!(rt; buffer.starts_with(&EXAMPLE), "the same bytes");
    Ok(())
}
