// Sizes at their limits, a list book at its limit, and passing a book as empty.
use books::{Book, Reading, Sizes, is_empty, pass_as_empty, standing_grades};
use list_book::ListBook;
use refusals::Refusal;
use std::test::Fail;
use table_book::TableBook;

fn size_refused(packages: u32, translators: u32) -> bool {
    matches!(Sizes::check(packages, translators), Err(Refusal::Size))
}

#[test]
fn sizes_at_their_limits(rt: HostRuntime) {
    assert!(rt; !size_refused(48, 64) && !size_refused(1, 1), "taken");
    assert!(rt;
        size_refused(49, 64) && size_refused(48, 65),
        "one too many"
    );
    assert!(rt; size_refused(0, 1) && size_refused(1, 0), "none at all");
    assert!(rt;
        size_refused(256 + 48, 64) && size_refused(48, 256 + 64),
        "nothing is cut off"
    );
}

// Gives each of the pairs of the first `packages` packages a code of its own.
fn fill<B: Book>(book: &mut B, packages: u8) -> Result<(), Refusal> {
    for pkg in 1..=u32::from(packages) {
        for translator in 1..=64 {
            book.put(pkg, translator, (pkg - 1) * 64 + translator)?;
        }
    }
    Ok(())
}

#[test]
fn list_book_at_its_limit(rt: HostRuntime) -> Result<(), Fail> {
    let mut book = ListBook::new(Sizes::check(48, 64)?);
    assert!(rt; is_empty(&book), "a new book");
    fill(&mut book, 16)?;
    assert!(rt; standing_grades(&book) == 1024, "16 rows of 64");
    assert_eq!(rt; book.put(17, 1, 5), Err(Refusal::Full), "a new pair");
    assert_eq!(rt; book.put(16, 64, 9), Ok(()), "an old pair is replaced");
    assert_eq!(rt; book.grade_of(16, 64), Some(9));
    assert_eq!(rt; book.grade_of(16, 63), Some(1023), "no other pair changed");
    assert_eq!(rt; book.take(3, 3), Ok(()));
    assert_eq!(rt; book.take(3, 3), Err(Refusal::NothingThere));
    assert_eq!(rt; book.put(48, 64, 7), Ok(()), "a new pair after a removal");
    assert_eq!(rt; book.put(3, 3, 1), Err(Refusal::Full), "full again");
    Ok(())
}

#[test]
fn table_book_takes_every_pair(rt: HostRuntime) -> Result<(), Fail> {
    let mut book = TableBook::new(Sizes::check(48, 64)?);
    fill(&mut book, 48)?;
    assert!(rt; standing_grades(&book) == 3072);
    assert_eq!(rt; book.grade_of(48, 64), Some(3072));
    assert_eq!(rt; book.grade_of(257, 1), None, "outside the sizes");
    assert_eq!(rt; book.put(49, 1, 5), Err(Refusal::Place));
    assert_eq!(rt;
        book.put(1, 65, 0),
        Err(Refusal::Place),
        "the place before the code"
    );
    assert_eq!(rt; book.put(1, 1, 0), Err(Refusal::Grade));
    assert_eq!(rt; book.take(0, 1), Err(Refusal::Place));
    Ok(())
}

#[test]
fn a_book_with_a_grade_is_handed_back(rt: HostRuntime) -> Result<(), Fail> {
    let mut book = TableBook::new(Sizes::check(48, 64)?);
    book.put(48, 64, 1)?;
    let Err((refusal, book)) = pass_as_empty(book) else {
        return Err(Fail::new("passed with a grade"));
    };
    assert_eq!(rt; refusal, Refusal::NotEmpty);
    assert_eq!(rt; book.grade_of(48, 64), Some(1));
    Ok(())
}
