// The first whole matching at the highest lowest grade.
ghost use Rattle.bottleneck.specs.Found.{Found};
ghost use Rattle.bottleneck.specs.Grades.{valid_grades};

use super::Table;
use super::floors::match_all;
use super::table::AtFloor;
use augmenting::{Members, Owners};
use books::Reading;
use grades::Kind;

// Who has whom, the lowest grade of any pair, and a set that is tight there.
#[derive(Clone, Copy)]
pub struct BestMatching {
    pub owners: Owners,
    pub lowest: u32,
    pub tight: Members,
}

// By the grades that are valid in the kind; or a short set, where there is no whole matching.
pub fn best_matching<R: Reading, K: Kind>(grades: &R) -> Result<BestMatching, Members>
    ensures { let m = R.meaning grades.now in Found K.valid K.above (valid_grades K.valid m) m.packages m.translators result }
{
    let mut counted = AtFloor {
        table: Table::<K>::read(grades),
        floor: None,
    };
    let mut best = match_all(&mut counted)?;
    let packages = counted.table.packages;
    best.owners.place_all_first(&counted, packages);
    Ok(best)
}
