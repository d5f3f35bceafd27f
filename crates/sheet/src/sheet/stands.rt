// What a sheet means on a page.
use super::Sheet;
use books::Book;
use grades::Kind;

// How it was opened and what stands on it, whatever its book and its kind of grade.
pub trait Stands: Sized {
    ghost use Rattle.sheet.specs.Sheets.{Stood};

    ghost stood: { Self → Stood };
}

impl<B: Book, K: Kind> Stands for Sheet<B, K> {
    ghost use Rattle.sheet.specs.Sheets.{stood_of};

    ghost stood = { stood_of B.LIMIT K.NUMBER K.valid K.above B.Reading.meaning };
}
