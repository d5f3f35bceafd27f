// A sheet as a value.
ghost use Rattle.std.specs.Prelude.{◌≡◌};

mod admission;
mod drawing;
mod files;
mod grading;
mod opening;
mod slips;
mod stands;

use books::{Reading, Sizes};
pub use drawing::Draw;
use matching::Planned;
pub use stands::Stands;
use std::marker::PhantomData;

// A book with what was drawn and published from it, for one kind of grade. A slip is out where there
// is a drawn plan that is not yet decided on.
#[derive(Drop)]
pub struct Sheet<B, K> {
    book: B,
    kind: PhantomData<K>,
    tag: u32,
    out: Option<Planned>,
    published: Option<Planned>,
}

impl<B: Reading, K> Sheet<B, K> {
    // The sizes of the book.
    fn sizes(&self) -> Sizes
        ensures packages { result.packages ≡ (B.meaning self.now.book).packages }
        ensures translators { result.translators ≡ (B.meaning self.now.book).translators }
    {
        let packages = u32::from(self.book.packages());
        let translators = u32::from(self.book.translators());
        Sizes::check(packages, translators).unwrap()
    }
}
