// Who has whom, while packages get translators one after another.
ghost use Rattle.std.specs.Prelude.{◌≡◌, ℕ, ◌<◌, false, true, length, ◌≢◌, slice_index, nat_lt, ◌&&◌};
ghost use Rattle.augmenting.specs.Owners.{seen};

// At place j stands the number of the package that translator j + 1 has, or 0: the definitions speak
// of these bytes as numbers, and an `Option` in each would be no plainer.
#[derive(Clone, Copy)]
pub struct Owners {
    pub(crate) places: [u8; 64],
    ghost full: { length places ≡ 64 },
}

// Any note may be taken up: what the steps say of a path found holds where it is a matching.
impl From<[u8; 64]> for Owners {
    ghost from_gives = { λ places owners. owners.places ≡ places };

    fn from(places: [u8; 64]) -> Owners {
        Owners { places }
    }
}

impl Owners {
    // Nobody has anyone.
    pub fn none() -> Owners
        ensures { (j : ℕ) → slice_index result.places j ≡ 0 }
    {
        Owners { places: [0; 64] }
    }

    pub fn places(&self) -> &[u8; 64]
        ensures { result.now ≡ self.now.places }
    {
        &self.places
    }

    // Marks the translators of all packages before this one.
    pub(crate) fn marks_before(&self, pkg: u8) -> [bool; 64]
        ensures { (j : ℕ) → seen result j ≡ (nat_lt 0 (slice_index self.now.places j) && nat_lt (slice_index self.now.places j) pkg) }
    {
        // by index: after `iter_mut().zip` no proof knows the marks, and `map` takes several times as long
        let mut marks = [false; 64];
        for (j, owner) in self.places.iter().enumerate() {
            marks[j] = 0 < *owner && *owner < pkg;
        }
        marks
    }

    // Takes its translator from a package.
    pub(crate) fn release(&mut self, pkg: u8)
        ensures freed { (j : ℕ) → slice_index self.old.places j ≡ pkg → slice_index self.new.places j ≡ 0 }
        ensures others { (j : ℕ) → (slice_index self.old.places j ≢ pkg) → slice_index self.new.places j ≡ slice_index self.old.places j }
    {
        for owner in &mut self.places {
            if *owner == pkg {
                *owner = 0;
            }
        }
    }
}
