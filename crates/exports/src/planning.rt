// A plan from a table of codes.
ghost use Rattle.std.specs.Prelude.{◌*◌, take};
ghost use Rattle.exports.specs.Kinds.{above_in, codes_right, right_in};
ghost use Rattle.exports.specs.Planning.{PlannedAs};

use super::checks::first_are_right;
use super::reply::{Failure, Reply};
use super::table::{CodeTable, pairs_of};
use books::Sizes;
use grades::{Kind, KindName, Points, Ratings};
use matching::match_into;
use refusals::Refusal;

// In sizes that have been checked, in one kind.
// The places stay apart: C lends each by itself, and clauses name what each held and holds.
fn plan_in<K: Kind>(
    sizes: Sizes,
    codes: &[u32],
    plan: &mut [u16],
    set: &mut [u8],
    lowest: &mut u32,
) -> Result<Reply, Failure>
    ensures { PlannedAs K.above (codes_right K.valid (take (sizes.packages * sizes.translators) codes.now)) sizes.packages sizes.translators codes.now (record { plan = plan.old; set = set.old; lowest = lowest.old }) (record { plan = plan.new; set = set.new; lowest = lowest.new }) result }
{
    let pairs = pairs_of(sizes);
    // a wrong code is told before a table that is too short
    if !first_are_right::<K>(pairs, codes) {
        return Err(Failure::Refused(Refusal::Grade));
    }
    if codes.len() < pairs {
        return Err(Failure::Refused(Refusal::Space));
    }
    let table = CodeTable { sizes, codes };
    match match_into::<CodeTable, K>(&table, plan, set)? {
        Some(planned) => {
            *lowest = planned.lowest;
            Ok(Reply::Done)
        }
        None => Ok(Reply::Short),
    }
}

// In any sizes and any kind.
pub(crate) fn plan_from_codes(
    kind: u32,
    packages: u32,
    translators: u32,
    codes: &[u32],
    plan: &mut [u16],
    set: &mut [u8],
    lowest: &mut u32,
) -> Result<Reply, Failure>
    ensures { PlannedAs (above_in kind) (right_in kind (take (packages * translators) codes.now)) packages translators codes.now (record { plan = plan.old; set = set.old; lowest = lowest.old }) (record { plan = plan.new; set = set.new; lowest = lowest.new }) result }
{
    let sizes = Sizes::check(packages, translators)?;
    // here a kind as a value becomes a type; a function passed in its place could not be generic
    match KindName::try_from(kind).map_err(|_| Refusal::Grade)? {
        KindName::Points => plan_in::<Points>(sizes, codes, plan, set, lowest),
        KindName::Ratings => plan_in::<Ratings>(sizes, codes, plan, set, lowest),
    }
}
