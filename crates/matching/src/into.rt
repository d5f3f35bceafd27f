// The best plan and its set, into lent buffers.
ghost use Rattle.std.specs.Prelude.{◌≡◌, ℕ, ◌<◌, ◌≤◌, length, if◌then◌else◌, slice_index};
ghost use Rattle.augmenting.specs.Owners.{seen};
ghost use Rattle.bottleneck.specs.Grades.{valid_grades};
ghost use Rattle.matching.specs.Answers.{Answered};

use super::{Plan, best_plan};
use augmenting::Members;
use books::Reading;
use grades::Kind;
use refusals::Refusal;

// A plan and its lowest grade.
#[derive(Clone, Copy)]
pub struct Planned {
    pub plan: Plan,
    pub lowest: u32,
}

// 1 for each member and 0 for each other, of the first packages.
fn write_members(set: &Members, packages: u8, out: &mut [u8])
    requires { packages ≤ length out.old }
    ensures first { (k : ℕ) → k < packages → slice_index out.new k ≡ (if seen set.now.places k then 1 else 0) }
    ensures rest { (k : ℕ) → packages ≤ k → slice_index out.new k ≡ slice_index out.old k }
{
    for (k, mark) in out[..usize::from(packages)].iter_mut().enumerate() {
        *mark = u8::from(set.has(k));
    }
}

// Writes the translators of the best plan into the first places of one buffer, and the set into
// those of the other. Both need a place for each package, whatever comes out.
pub fn match_into<R: Reading, K: Kind>(
    grades: &R,
    plan: &mut [u16],
    set: &mut [u8],
) -> Result<Option<Planned>, Refusal>
    ensures { let m = R.meaning grades.now in
        Answered K.above (valid_grades K.valid m) m.packages m.translators plan.old set.old plan.new set.new result }
{
    let packages = grades.packages();
    let room = plan.len().min(set.len());
    if room < usize::from(packages) {
        return Err(Refusal::Space);
    }
    match best_plan::<R, K>(grades) {
        Ok(best) => {
            best.plan.write_into(plan)?;
            write_members(&best.tight, packages, set);
            Ok(Some(Planned {
                plan: best.plan,
                lowest: best.lowest,
            }))
        }
        Err(short) => {
            write_members(&short, packages, set);
            Ok(None)
        }
    }
}
