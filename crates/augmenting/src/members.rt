// Sets of packages.
ghost use Rattle.std.specs.Prelude.{◌≡◌, ℕ, ◌+◌, ◌<◌, true, false, length, ◌≢◌};
ghost use Rattle.augmenting.specs.Owners.{seen};
ghost use Rattle.augmenting.specs.Sets.{OwnersAnd};

use super::{MOST_PACKAGES, Owners};

// At place k whether package k + 1 is a member.
#[derive(Clone, Copy)]
pub struct Members {
    places: [bool; 48],
    ghost full: { length places ≡ 48 },
}

impl Members {
    pub fn none() -> Members
        ensures { (k : ℕ) → seen result.places k ≡ false }
    {
        Members {
            places: [false; 48],
        }
    }

    // A package, and all that own a marked translator.
    pub fn owners_and(pkg: u8, owners: &Owners, visited: &[bool; 64]) -> Members
        ensures { OwnersAnd owners.now.places visited.now pkg result.places }
    {
        let mut set = Members::none();
        set.include(pkg);
        for (owner, is_marked) in owners.places().iter().zip(visited) {
            if *is_marked {
                set.include(*owner);
            }
        }
        set
    }

    // Whether the package of that place is a member.
    pub fn has(&self, place: usize) -> bool
        ensures { result ≡ seen self.now.places place }
    {
        self.places.get(place).copied().unwrap_or(false)
    }

    // Takes in a package by its number.
    fn include(&mut self, pkg: u8)
        ensures one { (k : ℕ) → k + 1 ≡ pkg → k < 48 → seen self.new.places k ≡ true }
        ensures others { (k : ℕ) → (k + 1 ≢ pkg) → seen self.new.places k ≡ seen self.old.places k }
    {
        if (1..=MOST_PACKAGES).contains(&pkg) {
            self.places[usize::from(pkg) - 1] = true;
        }
    }
}
