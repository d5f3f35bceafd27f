// The sizes of a book: 1 to 48 packages and 1 to 64 translators.
ghost use Rattle.books.specs.Limits.{Within};

mod checks;

// A value of this type has been checked, so whoever makes a book of it need not.
#[derive(Clone, Copy)]
pub struct Sizes {
    packages: u8,
    translators: u8,
    ghost within: { Within packages translators },
}
