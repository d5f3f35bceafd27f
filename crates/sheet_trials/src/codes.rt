// Codes that a sheet takes, and a list book at its limit.
use super::opened::opened;
use books::Sizes;
use grades::{Kind, Points, Ratings};
use list_book::ListBook;
use refusals::Refusal;
use sheet::Sheet;
use std::test::Fail;
use table_book::TableBook;

fn small<K: Kind>() -> Result<Sheet<TableBook, K>, Fail> {
    opened(TableBook::new(Sizes::check(2, 2)?), 7)
}

#[test]
fn codes_not_valid_get_7(rt: HostRuntime) -> Result<(), Fail> {
    let mut points = small::<Points>()?;
    assert_eq!(rt; points.grade(2, 1, 1, 1), Ok(()));
    assert_eq!(rt; points.grade(2, 1, 1, 1000), Ok(()));
    assert_eq!(rt; points.grade(2, 1, 1, 0), Err(Refusal::Grade));
    assert_eq!(rt; points.grade(2, 1, 1, 1001), Err(Refusal::Grade));
    let mut ratings = small::<Ratings>()?;
    assert_eq!(rt; ratings.grade(2, 1, 1, 5_120_004), Ok(()));
    assert_eq!(rt;
        ratings.grade(2, 1, 1, 5_120_260),
        Err(Refusal::Grade),
        "20,001 days"
    );
    assert_eq!(rt; ratings.grade(2, 1, 1, 5), Err(Refusal::Grade), "class 5");
    Ok(())
}

#[test]
fn reasons_that_meet_in_a_grade(rt: HostRuntime) -> Result<(), Fail> {
    let mut sheet = small::<Points>()?;
    assert_eq!(rt;
        sheet.grade(1, 9, 9, 0),
        Err(Refusal::Role),
        "a reader, a place, a code"
    );
    assert_eq!(rt;
        sheet.grade(258, 1, 1, 5),
        Err(Refusal::Role),
        "no role is cut off"
    );
    assert_eq!(rt;
        sheet.grade(2, 257, 1, 5),
        Err(Refusal::Place),
        "no number is cut off"
    );
    assert_eq!(rt;
        sheet.grade(3, 1, 3, 0),
        Err(Refusal::Place),
        "the place before the code"
    );
    assert_eq!(rt;
        sheet.strike(2, 9, 9),
        Err(Refusal::Role),
        "editors do not strike"
    );
    assert_eq!(rt; sheet.strike(3, 3, 1), Err(Refusal::Place));
    assert_eq!(rt; sheet.strike(3, 1, 1), Err(Refusal::NothingThere));
    Ok(())
}

#[test]
fn list_book_full_under_a_sheet(rt: HostRuntime) -> Result<(), Fail> {
    let mut sheet = opened::<_, Points>(ListBook::new(Sizes::check(48, 64)?), 1)?;
    for pkg in 1..=16 {
        for translator in 1..=64 {
            sheet.grade(2, pkg, translator, 10)?;
        }
    }
    assert_eq!(rt; sheet.grade(2, 17, 1, 5), Err(Refusal::Full), "a new pair");
    assert_eq!(rt;
        sheet.grade(2, 17, 1, 0),
        Err(Refusal::Grade),
        "the code before the limit"
    );
    assert_eq!(rt; sheet.grade(2, 1, 1, 5), Ok(()), "an old pair");
    assert_eq!(rt; sheet.strike(3, 16, 64), Ok(()));
    assert_eq!(rt;
        sheet.grade(2, 17, 1, 5),
        Ok(()),
        "a new pair after a strike"
    );
    Ok(())
}
