// The longest file there is, of 3,072 records, and each cause at its last place.
use crate::example::{told, told_front};
use books::{Book, Sizes};
use grades::Points;
use refusals::{Cause, Fault, Refusal};
use saved_writer::write_file;
use std::test::Fail;
use table_book::TableBook;

const LENGTH: usize = 18_439;

// A grade for every pair, and the file of it with one byte to spare.
fn full_file() -> Result<[u8; 18_440], Refusal> {
    let mut book = TableBook::new(Sizes::check(48, 64)?);
    for pkg in 1..=48 {
        for translator in 1..=64 {
            book.put(pkg, translator, 1000)?;
        }
    }
    let mut file = [0u8; 18_440];
    write_file::<Points, TableBook>(&book, &mut file)?;
    Ok(file)
}

#[test]
fn last_places(rt: HostRuntime) -> Result<(), Fail> {
    let mut file = full_file()?;
    assert_eq!(rt;
        told_front(&file, LENGTH, 48, 64)?,
        None,
        "the longest file"
    );
    let cut = Fault::of(Cause::NotWhole, 2, 3072, 18_433);
    assert_eq!(rt; told_front(&file, LENGTH - 1, 48, 64)?, Some(cut), "cut");
    let over = Fault::of(Cause::LeftOver, 0, 0, LENGTH);
    assert_eq!(rt; told(&file, 48, 64)?, Some(over), "left over");
    file[18_434] = 63;
    let after = Fault::of(Cause::NotAfter, 2, 3072, 18_433);
    assert_eq!(rt;
        told_front(&file, LENGTH, 48, 64)?,
        Some(after),
        "same place"
    );
    file[18_435] = 0;
    file[18_436] = 0;
    let code = Fault::of(Cause::Code, 2, 3072, 18_433);
    assert_eq!(rt; told_front(&file, LENGTH, 48, 64)?, Some(code), "code 0");
    file[18_433] = 49;
    let place = Fault::of(Cause::Place, 2, 3072, 18_433);
    assert_eq!(rt;
        told_front(&file, LENGTH, 48, 64)?,
        Some(place),
        "package 49"
    );
    Ok(())
}
