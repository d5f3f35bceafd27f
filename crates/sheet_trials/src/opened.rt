// A sheet over a book without grades.
use books::Book;
use grades::Kind;
use sheet::Sheet;
use std::test::Fail;

pub fn opened<B: Book + Drop, K: Kind>(book: B, tag: u32) -> Result<Sheet<B, K>, Fail> {
    Sheet::open(book, tag).map_err(|_| Fail::new("an empty book is passed"))
}
