// Reading a book into a table.
ghost use Rattle.std.specs.Prelude.{◌≡◌, ℕ, ◌+◌, ◌*◌, ◌<◌, ◌≤◌, slice_index};
ghost use Rattle.bottleneck.specs.Codes.{table_grades, grade_of_code};
ghost use Rattle.bottleneck.specs.Grades.{valid_grades};

use super::{CODES, ROW, Table};
use books::Reading;
use grades::Kind;
use std::marker::PhantomData;

// The code of a pair, or 0 where it has none that is valid in the kind.
fn valid_code<R: Reading, K: Kind>(grades: &R, pkg: u8, translator: u8) -> u32
    ensures { grade_of_code result ≡ valid_grades K.valid (R.meaning grades.now) pkg translator }
{
    match grades.grade_of(u32::from(pkg), u32::from(translator)) {
        Some(code) if K::is_valid(code) => code,
        _ => 0,
    }
}

// The row of one package, into an empty row.
fn read_row<R: Reading, K: Kind>(grades: &R, pkg: u8, codes: &mut [u32; CODES])
    requires within { pkg ≤ 48 }
    requires empty { (x : ℕ) → 65 * pkg ≤ x → slice_index codes.old x ≡ 0 }
    ensures row { (j : ℕ) → j ≤ 64 → grade_of_code (slice_index codes.new (65 * pkg + j)) ≡ valid_grades K.valid (R.meaning grades.now) pkg j }
    ensures before { (x : ℕ) → x < 65 * pkg → slice_index codes.new x ≡ slice_index codes.old x }
    ensures after { (x : ℕ) → 65 * pkg + 64 < x → slice_index codes.new x ≡ 0 }
{
    // by index: through `iter_mut` a whole plan takes an eighth more instructions
    for j in 0..grades.translators() {
        codes[ROW * usize::from(pkg) + usize::from(j + 1)] = valid_code::<R, K>(grades, pkg, j + 1);
    }
}

impl<K: Kind> Table<K> {
    // The valid grades of a book.
    pub fn read<R: Reading>(grades: &R) -> Table<K>
        ensures sizes { (result.packages ≡ (R.meaning grades.now).packages) × (result.translators ≡ (R.meaning grades.now).translators) }
        ensures grades { (k j : ℕ) → table_grades result.codes k j ≡ valid_grades K.valid (R.meaning grades.now) k j }
    {
        let packages = grades.packages();
        let translators = grades.translators();
        let mut codes = [0; CODES];
        for pkg in 1..=packages {
            read_row::<R, K>(grades, pkg, &mut codes);
        }
        Table {
            codes,
            packages,
            translators,
            kind: PhantomData,
        }
    }
}
