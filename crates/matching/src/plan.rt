// A plan as a value: one translator to each package, and none twice.
ghost use Rattle.std.specs.Prelude.{◌≡◌, ℕ, ◌<◌, ◌≤◌, length, ◌≢◌, slice_index};

mod owned;
mod reads;

// At place k the number, from 1, of the translator of package k + 1. An array with its length beside
// it, since a plan is copied and an `ArrayVec` is not.
#[derive(Clone, Copy)]
pub struct Plan {
    packages: u8,
    numbers: [u16; 48],
    ghost few: { (1 ≤ packages) × (packages ≤ 48) },
    ghost full: { length numbers ≡ 48 },
    ghost numbered: { (k : ℕ) → k < packages → (1 ≤ slice_index numbers k) × (slice_index numbers k ≤ 64) },
    ghost apart: { (k l : ℕ) → k < l → l < packages → slice_index numbers k ≢ slice_index numbers l },
}
