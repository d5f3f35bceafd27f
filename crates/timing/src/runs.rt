// The plan of a book, drawn again and again.
ghost use Rattle.bottleneck.specs.Grades.{valid_grades};
ghost use Rattle.matching.specs.Answers.{Answered};

use books::Reading;
use grades::Kind;
use matching::{Planned, match_into};
use refusals::Refusal;

// As often as is said, but at least once.
pub fn plan_again<R: Reading, K: Kind>(
    grades: &R,
    repeats: u32,
    plan: &mut [u16],
    set: &mut [u8],
) -> Result<Option<Planned>, Refusal>
    ensures { Answered K.above (valid_grades K.valid (R.meaning grades.now)) (R.meaning grades.now).packages (R.meaning grades.now).translators plan.old set.old plan.new set.new result }
{
    let mut answer = match_into::<R, K>(grades, plan, set);
    for _ in 1..repeats {
        answer = match_into::<R, K>(grades, plan, set);
    }
    answer
}
