// Small sheets with the plan and the lowest grade that they have, or none.
use super::sets::is_one_fewer;
use books::{Book, Sizes};
use grades::{Kind, Points, Ratings};
use matching::match_into;
use refusals::Refusal;
use std::process::Abort;
use std::test::Fail;
use table_book::TableBook;

// A grade: package, translator, code.
struct Graded(u32, u32, u32);

fn sheet(packages: u32, translators: u32, grades: &[Graded]) -> Result<TableBook, Refusal> {
    let mut book = TableBook::new(Sizes::check(packages, translators)?);
    for grade in grades {
        book.put(grade.0, grade.1, grade.2)?;
    }
    Ok(book)
}

// The sheet has this plan, with this lowest grade; later places stay as they were.
fn has_plan<K: Kind>(
    rt: &impl Abort,
    book: &TableBook,
    lowest: u32,
    numbers: &[u16],
) -> Result<(), Fail> {
    let mut plan = [77; 4];
    let mut set = [9; 4];
    match match_into::<TableBook, K>(book, &mut plan, &mut set)? {
        Some(planned) => assert_eq!(rt; planned.lowest, lowest),
        None => return Err(Fail::new("short")),
    }
    assert!(rt; numbers.len() < 4);
    for (told, number) in plan.iter().zip(numbers) {
        assert_eq!(rt; told, number);
    }
    assert_eq!(rt; plan[3], 77, "past the packages");
    assert_eq!(rt; set[3], 9, "past the packages");
    assert!(rt;
        is_one_fewer::<TableBook, K>(book, &set, Some(lowest)),
        "a tight set"
    );
    Ok(())
}

fn has_no_plan<K: Kind>(rt: &impl Abort, book: &TableBook) -> Result<(), Fail> {
    let mut plan = [77; 4];
    let mut set = [9; 4];
    match match_into::<TableBook, K>(book, &mut plan, &mut set)? {
        Some(_) => return Err(Fail::new("a plan")),
        None => assert_eq!(rt; plan[0], 77, "the plan buffer is untouched"),
    }
    assert!(rt;
        is_one_fewer::<TableBook, K>(book, &set, None),
        "a short set"
    );
    Ok(())
}

#[test]
fn two_by_two(rt: HostRuntime) -> Result<(), Fail> {
    let rising = sheet(
        2,
        2,
        &[
            Graded(1, 1, 1),
            Graded(1, 2, 3),
            Graded(2, 1, 2),
            Graded(2, 2, 4),
        ],
    )?;
    has_plan::<Points>(&rt, &rising, 2, &[2, 1])?;
    let falling = sheet(
        2,
        2,
        &[
            Graded(1, 1, 4),
            Graded(1, 2, 3),
            Graded(2, 1, 8),
            Graded(2, 2, 4),
        ],
    )?;
    has_plan::<Points>(&rt, &falling, 4, &[1, 2])?;
    let equal = sheet(
        2,
        2,
        &[
            Graded(1, 1, 500),
            Graded(1, 2, 500),
            Graded(2, 1, 500),
            Graded(2, 2, 500),
        ],
    )?;
    has_plan::<Points>(&rt, &equal, 500, &[1, 2])
}

#[test]
fn one_package(rt: HostRuntime) -> Result<(), Fail> {
    has_plan::<Points>(&rt, &sheet(1, 1, &[Graded(1, 1, 1)])?, 1, &[1])?;
    has_no_plan::<Points>(&rt, &sheet(1, 1, &[])?)
}

#[test]
fn three_packages(rt: HostRuntime) -> Result<(), Fail> {
    let one_low = sheet(
        3,
        3,
        &[
            Graded(1, 1, 1),
            Graded(1, 2, 1000),
            Graded(2, 1, 1000),
            Graded(2, 2, 1),
            Graded(3, 1, 1000),
            Graded(3, 3, 1),
        ],
    )?;
    has_plan::<Points>(&rt, &one_low, 1, &[1, 2, 3])?;
    let too_many = sheet(
        3,
        2,
        &[
            Graded(1, 1, 1000),
            Graded(1, 2, 1000),
            Graded(2, 1, 1000),
            Graded(2, 2, 1000),
            Graded(3, 1, 1000),
            Graded(3, 2, 1000),
        ],
    )?;
    has_no_plan::<Points>(&rt, &too_many)
}

#[test]
fn ratings_by_class_and_days(rt: HostRuntime) -> Result<(), Fail> {
    let rated = sheet(
        2,
        2,
        &[
            Graded(1, 1, 1),
            Graded(1, 2, 2562),
            Graded(2, 1, 2306),
            Graded(2, 2, 5120002),
        ],
    )?;
    has_plan::<Ratings>(&rt, &rated, 5120002, &[1, 2])?;
    // the last two codes are no points
    has_no_plan::<Points>(&rt, &rated)
}

#[test]
fn one_short_buffer(rt: HostRuntime) -> Result<(), Fail> {
    let book = sheet(2, 2, &[])?;
    let mut plan = [77; 2];
    let mut set = [9; 1];
    match match_into::<TableBook, Points>(&book, &mut plan, &mut set) {
        Ok(_) => Err(Fail::new("taken")),
        Err(refusal) => {
            assert_eq!(rt; refusal, Refusal::Space);
            Ok(())
        },
    }
}
