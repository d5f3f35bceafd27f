// Which pairs of a table count: those with the grade of the floor, or one above it.
ghost use Rattle.bottleneck.specs.Codes.{code_at, table_grades};
ghost use Rattle.bottleneck.specs.Floors.{from_floor};
ghost use Rattle.std.specs.Prelude.{◌≡◌, ℕ, ◌+◌, ◌<◌, ◌≤◌, Some, true, length, slice_index};
ghost use Rattle.std.proofs.Common.{rules};

use super::{ROW, Table};
use augmenting::{MOST_PACKAGES, MOST_TRANSLATORS, Pattern};
use grades::Kind;

// Without a floor no pair counts. The table stands in it, since behind a reference each look at a
// pair takes longer.
#[derive(Drop)]
pub struct AtFloor<K: Kind> {
    pub(crate) table: Table<K>,
    pub(crate) floor: Option<u32>,
    ghost valid: { (code : ℕ) → floor ≡ Some code → K.valid code ≡ true },
}

impl<K: Kind> Table<K> {
    pub(crate) fn code(&self, pkg: u8, translator: u8) -> u32
        ensures { result ≡ code_at self.now.codes pkg translator }
    {
        if pkg <= MOST_PACKAGES && translator <= MOST_TRANSLATORS {
            self.codes[ROW * usize::from(pkg) + usize::from(translator)]
        } else {
            0
        }
    }

    // The codes of a package, one for each translator.
    pub(crate) fn row(&self, pkg: u8) -> &[u32]
        requires { pkg ≤ 48 }
        ensures long { length result.now ≡ self.now.translators }
        ensures codes { (j : ℕ) → j < self.now.translators → slice_index result.now j ≡ code_at self.now.codes pkg (j + 1) }
    {
        let start = ROW * usize::from(pkg) + 1;
        &self.codes[start..start + usize::from(self.translators)]
    }
}

impl<K: Kind> Pattern for AtFloor<K> {
    ghost joins = { λ s k j. from_floor K.above s.floor (table_grades s.table.codes k j) };

    ghost translators = { λ s. s.table.translators };

    ghost few = { Prim.search rules };

    fn translator_count(&self) -> u8 {
        self.table.translators
    }

    fn may_join(&self, pkg: u8, translator: u8) -> bool {
        match self.floor {
            Some(floor) => {
                let code = self.table.code(pkg, translator);
                code != 0 && !K::is_above(floor, code)
            }
            None => false,
        }
    }
}
