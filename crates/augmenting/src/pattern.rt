// Which pairs of a package and a translator may be matched.
ghost use Rattle.std.specs.Prelude.{◌≡◌, ℕ, ◌≤◌, Bool};

pub trait Pattern: Sized {
    // by the numbers of the package and of the translator, from 1
    ghost joins: { Self → ℕ → ℕ → Bool };

    ghost translators: { Self → ℕ };

    fn translator_count(&self) -> u8
        ensures { result ≡ translators self.now };

    fn may_join(&self, pkg: u8, translator: u8) -> bool
        ensures { result ≡ joins self.now pkg translator };

    ghost few: { (s : Self) → translators s ≤ 64 };
}
