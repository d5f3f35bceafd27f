// The calls of an office on a sheet of its own: it loads the file, draws, and gives the slip back.
ghost use Rattle.std.specs.Prelude.{◌≤◌, [], length};
ghost use Rattle.file_format.specs.FileOf.{grade_in};
ghost use Rattle.file_format.specs.Rules.{Right, just};
ghost use Rattle.plan_report.specs.Offices.{RanOn, Settled, named_by};
ghost use Rattle.plan_report.specs.Reports.{above_in};
ghost use Rattle.grades.specs.Names.{kind_number};

use books::Sizes;
use grades::{Kind, KindName, Points, Ratings};
use saved_file::Head;
use sheet::{Draw, Role, Sheet};
use table_book::TableBook;

const TAG: u32 = 1;

// One line, as in the page program, which promises the same of points alone.
fn open_sheet<K: Kind>(sizes: Sizes) -> Sheet<TableBook, K>
    ensures { RanOn K.NUMBER K.valid K.above sizes.packages sizes.translators [] result }
{
    Sheet::open(TableBook::new(sizes), TAG).unwrap()
}

// The lowest code of the best plan by the grades of a right file, with the plan and a tight set in
// the buffers; or none, with a short set, where there is no full plan.
fn draw_file<K: Kind + Drop>(
    file: &[u8],
    sizes: Sizes,
    plan: &mut [u16],
    set: &mut [u8],
) -> Option<u32>
    requires right { Right (just K.NUMBER K.valid sizes.packages sizes.translators) file.now }
    requires room { (48 ≤ length plan.old) × (48 ≤ length set.old) }
    ensures { Settled K.above (grade_in file.now) sizes.packages sizes.translators plan.new set.new result }
{
    let manager = Role::Manager.into();
    let mut sheet = open_sheet::<K>(sizes);
    let Ok(()) = sheet.load(manager, file) else {
        unreachable!()
    };
    let Ok(drawn) = sheet.draw(manager, plan, set) else {
        unreachable!()
    };
    let Draw { lowest, slip } = drawn?;
    match sheet.withdraw(manager, slip) {
        Ok(()) => Some(lowest),
        Err((_, _slip)) => unreachable!(),
    }
}

// The same by the kind and the sizes that the file names.
pub(crate) fn draw_by_head(head: Head, file: &[u8], plan: &mut [u16], set: &mut [u8]) -> Option<u32>
    requires right { Right (named_by head) file.now }
    requires room { (48 ≤ length plan.old) × (48 ≤ length set.old) }
    ensures { Settled (above_in (kind_number head.kind)) (grade_in file.now) head.sizes.packages head.sizes.translators plan.new set.new result }
{
    // here a kind as a value becomes a type; a function passed in its place could not be generic
    match head.kind {
        KindName::Points => draw_file::<Points>(file, head.sizes, plan, set),
        KindName::Ratings => draw_file::<Ratings>(file, head.sizes, plan, set),
    }
}
