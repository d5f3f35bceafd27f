// Checking a file of which nothing is expected beforehand.
ghost use Rattle.file_format.specs.Rules.{Faulty, Right};
ghost use Rattle.saved_file.specs.ByItself.{by_itself};
ghost use Rattle.std.specs.Prelude.{◌≡◌, MatchResult};

use super::read_head;
use crate::checked::{CheckedFile, check_file};
use grades::{KindName, Points, Ratings};
use refusals::Fault;

// Checks a file against the kind and the sizes that it names itself.
pub fn check_by_itself<'a>(file: &'a [u8]) -> Result<CheckedFile<'a>, Fault>
    ensures { MatchResult result (λ f. (f.file.now ≡ file.now) × Right (by_itself file.now) file.now) (λ fault. Faulty (by_itself file.now) file.now fault) }
{
    let head = read_head(file)?;
    // here a kind as a value becomes a type; a function passed in its place could not be generic
    match head.kind {
        KindName::Points => check_file::<Points>(file, head.sizes),
        KindName::Ratings => check_file::<Ratings>(file, head.sizes),
    }
}
