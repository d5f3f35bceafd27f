// How sizes come to be, and what they tell.
ghost use Rattle.books.specs.Limits.{inside};
ghost use Rattle.books.specs.Checked.{sizes_of, checked};
ghost use Rattle.std.specs.Prelude.{◌≡◌, is_some, IfSome};

use super::Sizes;
use crate::Pair;
use refusals::Refusal;

const MOST_PACKAGES: u32 = 48;

const MOST_TRANSLATORS: u32 = 64;

impl Sizes {
    // No `TryFrom`: a pair of numbers would be made for the call alone.
    pub fn check(packages: u32, translators: u32) -> Result<Sizes, Refusal>
        ensures { checked result ≡ sizes_of packages translators }
    {
        if (1..=MOST_PACKAGES).contains(&packages)
            && (1..=MOST_TRANSLATORS).contains(&translators)
        {
            Ok(Sizes {
                packages: packages as u8,
                translators: translators as u8,
            })
        } else {
            Err(Refusal::Size)
        }
    }

    pub fn packages(&self) -> u8
        ensures { result ≡ self.now.packages }
    {
        self.packages
    }

    pub fn translators(&self) -> u8
        ensures { result ≡ self.now.translators }
    {
        self.translators
    }

    // Whether both numbers name one that is there.
    pub fn holds(&self, pkg: u32, translator: u32) -> bool
        ensures { result ≡ inside self.now.packages self.now.translators pkg translator }
    {
        (1..=u32::from(self.packages)).contains(&pkg)
            && (1..=u32::from(self.translators)).contains(&translator)
    }

    // The pair that both numbers name, where both are there.
    pub fn pair(&self, pkg: u32, translator: u32) -> Option<Pair>
        ensures there { is_some result ≡ inside self.now.packages self.now.translators pkg translator }
        ensures named { IfSome result (λ pair. (pair.pkg ≡ pkg) × (pair.translator ≡ translator)) }
    {
        if self.holds(pkg, translator) {
            Some(Pair { pkg, translator })
        } else {
            None
        }
    }
}
