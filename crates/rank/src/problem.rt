// What can be wrong with the input, each in one line.
use refusals::Refusal;
use thiserror::Error;

#[derive(Debug, Drop, Error)]
pub enum Problem {
    #[error("the input is over 65536 bytes")]
    TooLong,
    #[error("line 1: write how many packages and translators, as in: 2 3")]
    BadSizes,
    #[error("line {0}: write a package, a translator and points, as in: 1 2 700")]
    BadLine(usize),
    #[error("line {}: refused {}, {}", .0, .1.number(), reason(*.1))]
    Refused(usize, Refusal),
}

// Words of this program alone, so that they are no `Display` of the refusal.
fn reason(refusal: Refusal) -> &'static str {
    match refusal {
        Refusal::Size => "a book has 1 to 48 packages and 1 to 64 translators",
        Refusal::Place => "the package or the translator is outside the sizes",
        Refusal::Grade => "points are 1 to 1000",
        _ => "the book does not take the grade",
    }
}
