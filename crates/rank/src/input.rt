// From the lines of the input to a book of points.
use super::problem::Problem;
use books::{Book, Sizes};
use grades::{Kind, Points};
use plain_text::{Lines, numbers};
use refusals::Refusal;
use table_book::TableBook;

// The first line has the sizes, and each other line a package, a translator and points.
pub fn read_book(text: &[u8]) -> Result<TableBook, Problem> {
    let mut lines = Lines::new(text);
    let [packages, translators] = numbers::<2>(lines.next()).ok_or(Problem::BadSizes)?;
    let sizes = Sizes::check(packages, translators).map_err(|refusal| Problem::Refused(
        1, refusal,
    ))?;
    let mut book = TableBook::new(sizes);
    for (number, line) in (2..).zip(lines) {
        let [pkg, translator, points] = numbers::<3>(Some(line)).ok_or(Problem::BadLine(number))?;
        put_points(&mut book, pkg, translator, points).map_err(|refusal| Problem::Refused(
            number, refusal,
        ))?;
    }
    Ok(book)
}

fn put_points(book: &mut TableBook, pkg: u32, translator: u32, points: u32) -> Result<(), Refusal> {
    if !Points::is_valid(points) {
        return Err(Refusal::Grade);
    }
    book.put(pkg, translator, points)
}
