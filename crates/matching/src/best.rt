// The best plan, as a value.
ghost use Rattle.bottleneck.specs.Grades.{valid_grades};
ghost use Rattle.matching.specs.Answers.{Right};

use super::Plan;
use augmenting::Members;
use books::Reading;
use bottleneck::best_matching;
use grades::Kind;

// A plan, its lowest grade, and a set of packages that is tight there.
#[derive(Clone, Copy)]
pub struct BestPlan {
    pub plan: Plan,
    pub lowest: u32,
    pub tight: Members,
}

// A full plan with the highest lowest grade, the first of these by translator numbers, and a set
// that shows that none has a higher one; or a set that shows that there is no full plan. A code
// that is not valid in the kind counts as no grade.
pub fn best_plan<R: Reading, K: Kind>(grades: &R) -> Result<BestPlan, Members>
    ensures { let m = R.meaning grades.now in Right K.above (valid_grades K.valid m) m.packages m.translators result }
{
    let best = best_matching::<R, K>(grades)?;
    Ok(BestPlan {
        plan: Plan::of_owners(grades.packages(), &best.owners),
        lowest: best.lowest,
        tight: best.tight,
    })
}
