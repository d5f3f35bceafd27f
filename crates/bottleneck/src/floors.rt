// One package after another gets a translator; where one is left over, the floor under the grades
// is lowered as little as that asks for.
ghost use Rattle.std.specs.Prelude.{◌≡◌, ℕ, ◌+◌, ◌<◌, ◌≤◌, None, Some, MatchResult, IfOk, IfErr};
ghost use Rattle.augmenting.specs.Assigned.{Complete};
ghost use Rattle.augmenting.specs.Owners.{seen};
ghost use Rattle.augmenting.specs.Sets.{OneFewer};
ghost use Rattle.bottleneck.specs.Codes.{table_grades};
ghost use Rattle.bottleneck.specs.Grades.{graded};
ghost use Rattle.bottleneck.specs.Lowered.{IsLeftOver, Lowered, PlacedBefore, TightAt, at_floor};

use super::table::AtFloor;
use super::{BestMatching, Table};
use augmenting::{Members, Owners};
use grades::Kind;

// A floor, and a set of packages that is tight there.
#[derive(Clone, Copy)]
pub(crate) struct Floor {
    code: u32,
    tight: Members,
}

impl<K: Kind> AtFloor<K> {
    // Lowers the floor to the highest grade that leads out of the set of a package left over, or
    // answers the set, which is short, where there is no such grade.
    fn lower(&mut self, pkg: u8, owners: &Owners, visited: &[bool; 64]) -> Result<Floor, Members>
        requires within { (0 < pkg) × (pkg ≤ self.old.table.packages) }
        requires before { let table = self.old.table in
            PlacedBefore (at_floor K.above table.codes self.old.floor) table.translators pkg owners.now.places }
        requires left { let table = self.old.table in
            IsLeftOver (at_floor K.above table.codes self.old.floor) table.translators pkg owners.now.places visited.now }
        ensures table { self.new.table ≡ self.old.table }
        ensures floor { IfOk result (λ lower. self.new.floor ≡ Some lower.code) }
        ensures set { let table = self.old.table in
            MatchResult result
            (λ lower. Lowered K.valid K.above table.codes table.packages table.translators self.old.floor (Some lower.code) lower.tight.places)
            (λ short. OneFewer (graded (table_grades table.codes)) table.packages table.translators (seen short.places)) }
    {
        let set = Members::owners_and(pkg, owners, visited);
        let code = self.table.highest(&set, visited).ok_or(set)?;
        self.floor = Some(code);
        Ok(Floor { code, tight: set })
    }
}

// Gives one package more a translator, and lowers the floor for it as often as that takes.
fn place<K: Kind>(
    counted: &mut AtFloor<K>,
    pkg: u8,
    start: Floor,
    owners: &mut Owners,
) -> Result<Floor, Members>
    requires within { (0 < pkg) × (pkg ≤ counted.old.table.packages) }
    requires floor { counted.old.floor ≡ Some start.code }
    requires tight { let table = counted.old.table in
        TightAt K.valid K.above (table_grades table.codes) table.packages table.translators (Some start.code) start.tight.places }
    requires before { let table = counted.old.table in
        PlacedBefore (at_floor K.above table.codes (Some start.code)) table.translators pkg owners.old.places }
    ensures table { counted.new.table ≡ counted.old.table }
    ensures floor { IfOk result (λ floor. counted.new.floor ≡ Some floor.code) }
    ensures tight { let table = counted.old.table in IfOk result (λ floor.
        TightAt K.valid K.above (table_grades table.codes) table.packages table.translators (Some floor.code) floor.tight.places) }
    ensures placed { let table = counted.old.table in IfOk result (λ floor.
        PlacedBefore (at_floor K.above table.codes (Some floor.code)) table.translators (pkg + 1) owners.new.places) }
    ensures short { let table = counted.old.table in IfErr result (λ short.
        OneFewer (graded (table_grades table.codes)) table.packages table.translators (seen short.places)) }
{
    let mut floor = start;
    loop {
        let mut visited = [false; 64];
        if owners.augment(counted, pkg, &mut visited) {
            return Ok(floor);
        }
        floor = counted.lower(pkg, owners, &visited)?;
    }
}

// Gives every package a translator at the highest floor at which all can have one, or answers a
// short set where there is no such floor.
pub(crate) fn match_all<K: Kind>(counted: &mut AtFloor<K>) -> Result<BestMatching, Members>
    requires { counted.old.floor ≡ None }
    ensures table { counted.new.table ≡ counted.old.table }
    ensures floor { IfOk result (λ best. counted.new.floor ≡ Some best.lowest) }
    ensures set { let table = counted.old.table in let grades = table_grades table.codes in
        MatchResult result
        (λ best.
        TightAt K.valid K.above grades table.packages table.translators (Some best.lowest) best.tight.places
        × Complete (at_floor K.above table.codes (Some best.lowest)) table.packages table.translators best.owners.places)
        (λ short. OneFewer (graded grades) table.packages table.translators (seen short.places)) }
{
    let mut owners = Owners::none();
    // without a floor no pair counts, so that package 1 is left over
    let mut floor = counted.lower(1, &owners, &[false; 64])?;
    // from 0, since an inclusive range ends in two ways, and a step would have to be proved at both
    for i in 0..counted.table.packages {
        floor = place(counted, i + 1, floor, &mut owners)?;
    }
    Ok(BestMatching {
        owners,
        lowest: floor.code,
        tight: floor.tight,
    })
}
