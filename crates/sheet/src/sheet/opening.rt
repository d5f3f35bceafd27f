// Opening a sheet over a book.
ghost use Rattle.books.specs.Meaning.{Empty};
ghost use Rattle.refusals.specs.declared.refusal.Refusal.TheVariants.{NotEmpty};
ghost use Rattle.sheet.specs.Sheets.{opened_with, LedTo};
ghost use Rattle.std.specs.Prelude.{◌≡◌, [], MatchResult};

use super::{Sheet, Stands};
use books::{Book, pass_as_empty};
use grades::Kind;
use refusals::Refusal;
use std::marker::PhantomData;

impl<B: Book, K: Kind> Sheet<B, K> {
    // Idle, without grades and without a published plan, if the book is passed as empty; else the
    // book is handed back.
    pub fn open(book: B, tag: u32) -> Result<Sheet<B, K>, (Refusal, B)>
        ensures { MatchResult result
            (λ s. (s.book ≡ book)
            × LedTo (opened_with B.LIMIT K.NUMBER K.valid K.above (B.Reading.meaning book) tag) []
            (⟦<Self as Stands>⟧.stood s))
            (λ e. (e ≡ (NotEmpty, book)) × (Empty (B.Reading.meaning book) → ⊥)) }
    {
        Ok(Sheet {
            book: pass_as_empty(book)?,
            kind: PhantomData,
            tag,
            out: None,
            published: None,
        })
    }
}
