// What may be read of a book: its sizes and the grade of a pair.
ghost use Rattle.books.specs.Meaning.{Meaning, Sound};
ghost use Rattle.std.specs.Prelude.{◌≡◌};

// Reading changes nothing. Numbers of packages and translators may be any: a pair outside the sizes
// has no grade.
pub trait Reading: Sized {
    ghost meaning: { Self → Meaning };

    fn packages(&self) -> u8
        ensures { result ≡ (meaning self.now).packages };

    fn translators(&self) -> u8
        ensures { result ≡ (meaning self.now).translators };

    // The code of a pair, or none.
    fn grade_of(&self, pkg: u32, translator: u32) -> Option<u32>
        ensures { result ≡ (meaning self.now).grade pkg translator };

    ghost sound: { (b : Self) → Sound (meaning b) };
}
