// From one whole matching to the first: package by package, each the first translator that it can
// have while the packages before it keep theirs.
ghost use Rattle.std.specs.Prelude.{◌≡◌, ℕ, ◌<◌, ◌≤◌};
ghost use Rattle.augmenting.specs.Assigned.{Complete, Least, PlacedFirst};

use super::{Owners, Pattern};

impl Owners {
    // Gives a package the first translator that it can have while those before it keep theirs.
    fn place_first<P: Pattern>(&mut self, pattern: &P, pkg: u8)
        ensures { (p : ℕ) → 0 < pkg → pkg ≤ p
            → Complete (P.joins pattern.now) p (P.translators pattern.now) self.old.places
            → PlacedFirst (P.joins pattern.now) p (P.translators pattern.now) pkg self.old.places self.new.places }
    {
        let mut visited = self.marks_before(pkg);
        self.release(pkg);
        self.augment(pattern, pkg, &mut visited);
    }

    // The first matching by translator numbers, package by package, from any whole matching.
    pub fn place_all_first<P: Pattern>(&mut self, pattern: &P, packages: u8)
        ensures complete { Complete (P.joins pattern.now) packages (P.translators pattern.now) self.old.places
            → Complete (P.joins pattern.now) packages (P.translators pattern.now) self.new.places }
        ensures least { Complete (P.joins pattern.now) packages (P.translators pattern.now) self.old.places
            → (k : ℕ) → k < packages → Least (P.joins pattern.now) packages (P.translators pattern.now) self.new.places k }
    {
        for pkg in 1..=packages {
            self.place_first(pattern, pkg);
        }
    }
}
