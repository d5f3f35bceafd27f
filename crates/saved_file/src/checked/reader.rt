// Reading a whole file: its sections in order, and then nothing.
ghost use Rattle.std.specs.Prelude.{◌≡◌, ℕ, Option as Optional, MatchResult, ◌≢◌};
ghost use Rattle.file_format.specs.FileOf.{Graded, file_of, grade_in};
ghost use Rattle.file_format.specs.Laws.{RightOrOneFault, SameGradesSameBytes};
ghost use Rattle.file_format.specs.Rules.{Faulty, Right, just};

use super::CheckedFile;
use crate::cursor::Expected;
use books::Sizes;
use grades::Kind;
use refusals::Fault;

// Checks a file against a kind and sizes. Nothing is changed; the first fault met is told. A file is
// accepted exactly when it is the file of grades of the kind in these sizes: those in it.
pub fn check_file<'a, K: Kind>(file: &'a [u8], sizes: Sizes) -> Result<CheckedFile<'a>, Fault>
    ensures told { MatchResult result (λ f. (f.file.now ≡ file.now) × Right (just K.NUMBER K.valid sizes.packages sizes.translators) file.now) (λ fault. Faulty (just K.NUMBER K.valid sizes.packages sizes.translators) file.now fault) }
    ensures accepted { MatchResult result (λ _. Graded K.valid sizes.packages sizes.translators (grade_in file.now) × (file.now ≡ file_of K.NUMBER sizes.packages sizes.translators (grade_in file.now))) (λ _. (G : ℕ → ℕ → Optional ℕ) → Graded K.valid sizes.packages sizes.translators G → file.now ≢ file_of K.NUMBER sizes.packages sizes.translators G) }
    ensures once { RightOrOneFault }
    ensures same { SameGradesSameBytes }
{
    let count = Expected::<K>::new(sizes).read(file)?;
    Ok(CheckedFile { file, count })
}
