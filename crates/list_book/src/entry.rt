// One entry of the list: a pair and its code.
ghost use Rattle.list_book.specs.Entries.{regraded};
ghost use Rattle.list_book.specs.Order.{compared};
ghost use Rattle.std.specs.Prelude.{◌≡◌};

use books::Pair;
use std::cmp::Ordering;

#[derive(Clone, Copy, Default)]
pub struct Entry {
    pub pkg: u32,
    pub translator: u32,
    pub code: u32,
}

impl Entry {
    // Where the entry stands to a pair: by package, and by translator where the packages are the same.
    pub fn compare(&self, pair: Pair) -> Ordering
        ensures { result ≡ compared self.now pair.pkg pair.translator }
    {
        (self.pkg, self.translator).cmp(&(pair.pkg, pair.translator))
    }

    // Replaces the code, and leaves the pair as it is.
    pub fn regrade(&mut self, code: u32)
        ensures { self.new ≡ regraded self.old code }
    {
        self.code = code;
    }
}
