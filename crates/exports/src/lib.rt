// The planning sheet for programs in other languages: two functions of numbers and slices, which
// keep no state.
#![tactic(auto)]

ghost use Rattle.std.specs.Prelude.{◌*◌, take};
ghost use Rattle.exports.specs.Kinds.{above_in, right_in};
ghost use Rattle.exports.specs.Paging.{PagedAs};
ghost use Rattle.exports.specs.Planning.{PlannedAs};
ghost use Rattle.exports.specs.Replies.{Told};

mod checks;
mod paging;
mod planning;
mod reply;
mod table;

use paging::page_into;
use planning::plan_from_codes;
use reply::number_of;
use std::alloc::Global;

// The best plan by a table of codes, its lowest code and a tight set; or a short set.
#[unsafe(no_mangle)]
pub extern "C" fn planning_sheet_plan(
    // a number, since C hands over a number and any may come
    kind: u32,
    packages: u32,
    translators: u32,
    codes: &[u32],
    plan: &mut [u16],
    set: &mut [u8],
    lowest: &mut u32,
) -> u32
    ensures { Told result (PlannedAs (above_in kind) (right_in kind (take (packages * translators) codes.now)) packages translators codes.now (record { plan = plan.old; set = set.old; lowest = lowest.old }) (record { plan = plan.new; set = set.new; lowest = lowest.new })) }
{
    number_of(plan_from_codes(kind, packages, translators, codes, plan, set, lowest))
}

// What a page of text prints, at the start of a buffer, and its length.
#[unsafe(no_mangle)]
pub extern "C" fn planning_sheet_page(
    heap: Global,
    input: &[u8],
    output: &mut [u8],
    length: &mut usize,
) -> u32
    ensures { Told result (PagedAs input.now (record { bytes = output.old; length = length.old }) (record { bytes = output.new; length = length.new })) }
{
    number_of(page_into(heap, input, output, length))
}
