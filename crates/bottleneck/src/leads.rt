// The highest grade that leads out of a set of packages, past the translators that are marked.
ghost use Rattle.std.specs.Prelude.{◌≡◌, ℕ, ◌+◌, ◌<◌, ◌≤◌, false, not, ◌&&◌, ◌⊎◌, if◌then◌else◌, Some, ◌==◌};
ghost use Rattle.augmenting.specs.Owners.{seen};
ghost use Rattle.bottleneck.specs.Codes.{table_grades};
ghost use Rattle.bottleneck.specs.Floors.{Highest, HighestInRow, Valid, higher};

use super::Table;
use augmenting::Members;
use grades::Kind;

// The higher of a code, if there is one, and the best so far.
fn higher_of<K: Kind>(code: u32, best: Option<u32>) -> Option<u32>
    ensures { result ≡ (if not (code == 0) && higher K.above code best then Some code else best) }
{
    if code != 0 && best.is_none_or(|old| K::is_above(code, old)) {
        Some(code)
    } else {
        best
    }
}

impl<K: Kind> Table<K> {
    fn highest_in_row(&self, pkg: u8, visited: &[bool; 64], before: Option<u32>) -> Option<u32>
        requires few { pkg ≤ 48 }
        requires right { Valid K.valid before }
        ensures best { HighestInRow K.valid K.above (table_grades self.now.codes) self.now.translators pkg visited.now before result }
        ensures from { (code : ℕ) → result ≡ Some code → (before ≡ Some code)
            ⊎ ((j : ℕ) × (j < self.now.translators) × (seen visited.now j ≡ false) × (table_grades self.now.codes pkg (j + 1) ≡ Some code)) }
    {
        let mut best = before;
        for (code, is_marked) in self.row(pkg).iter().zip(visited) {
            if !*is_marked {
                best = higher_of::<K>(*code, best);
            }
        }
        best
    }

    pub(crate) fn highest(&self, set: &Members, visited: &[bool; 64]) -> Option<u32>
        ensures { Highest K.above (table_grades self.now.codes) self.now.packages self.now.translators set.now.places visited.now result }
    {
        let mut best = None;
        // a fold would owe at each turn that the search of the next row may be called
        for k in 0..self.packages {
            if set.has(usize::from(k)) {
                best = self.highest_in_row(k + 1, visited, best);
            }
        }
        best
    }
}
