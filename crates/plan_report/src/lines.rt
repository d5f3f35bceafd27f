// The lines of a report, each into the text; `out` is the writer.
ghost use Rattle.std.specs.Prelude.{◌≡◌, ◌+◌, ◌<◌, ◌≤◌, [], ◌++◌, length, if◌then◌else◌, string_bytes, codes, decimal, OnOk, ◌==◌};
ghost use Rattle.matching.specs.Answers.{member};
ghost use Rattle.plan_report.specs.Texts.{members, pair_line, set_line, table, tight_words, short_words, lowest_line, no_plan_line};
ghost use Rattle.grades.specs.Names.{kind_number};
ghost use Rattle.table_book.specs.Table.{table_meaning};

use super::grade::{Grade, Scale, ToldGrade};
use books::Reading;
use std::alloc::AllocError;
use table_book::TableBook;

// A package of a plan with its translator, and the grade of the two.
#[derive(Clone, Copy)]
struct Pair {
    pkg: u32,
    translator: u32,
    grade: Option<u32>,
}

fn pair_at(grades: &TableBook, place: usize, translator: u16) -> Pair
    requires { place < 48 }
    ensures { result ≡ record { pkg = place + 1; translator = translator; grade = (table_meaning grades.now).grade (place + 1) translator } }
{
    let pkg = place as u32 + 1;
    let translator = u32::from(translator);
    Pair {
        pkg,
        translator,
        grade: grades.grade_of(pkg, translator),
    }
}

fn write_pair(out: &mut String, scale: Scale, pair: Pair) -> Result<(), AllocError>
    ensures { OnOk result (string_bytes out.new ≡ string_bytes out.old ++ pair_line (kind_number scale.kind) scale.lowest pair.pkg pair.translator pair.grade) }
{
    let Pair {
        pkg,
        translator,
        grade,
    } = pair;
    let grade = ToldGrade { scale, grade };
    writeln!(out, "package {pkg}: translator {translator}, {grade}")
}

// The pairs of a plan, by the grades of a book.
fn write_table(
    out: &mut String,
    scale: Scale,
    grades: &TableBook,
    plan: &[u16],
) -> Result<(), AllocError>
    requires { length plan.now ≤ 48 }
    ensures { OnOk result (string_bytes out.new ≡ string_bytes out.old ++ table (kind_number scale.kind) scale.lowest (table_meaning grades.now).grade plan.now (length plan.now)) }
{
    for (place, translator) in plan.iter().enumerate() {
        write_pair(out, scale, pair_at(grades, place, *translator))?;
    }
    Ok(())
}

// The number of a package, where its mark says that it is a member.
fn write_member(out: &mut String, pkg: usize, mark: u8) -> Result<(), AllocError>
    ensures { OnOk result (string_bytes out.new ≡ string_bytes out.old ++ (if mark == 1 then codes " " ++ decimal pkg else [])) }
{
    if mark == 1 {
        write!(out, " {pkg}")?;
    }
    Ok(())
}

// The numbers of the members of a set.
fn write_members(out: &mut String, set: &[u8]) -> Result<(), AllocError>
    ensures { OnOk result (string_bytes out.new ≡ string_bytes out.old ++ members (member set.now) (length set.now)) }
{
    for (place, mark) in set.iter().enumerate() {
        write_member(out, place + 1, *mark)?;
    }
    Ok(())
}

// A line that names the members of a set.
fn write_set(out: &mut String, words: &str, set: &[u8]) -> Result<(), AllocError>
    ensures { OnOk result (string_bytes out.new ≡ string_bytes out.old ++ set_line words.now (member set.now) (length set.now)) }
{
    write!(out, "{words}")?;
    write_members(out, set)?;
    writeln!(out)
}

// The table of a plan, its lowest grade, and a tight set.
pub(crate) fn write_plan(
    out: &mut String,
    scale: Scale,
    grades: &TableBook,
    plan: &[u16],
    set: &[u8],
) -> Result<(), AllocError>
    requires { length plan.now ≤ 48 }
    ensures { OnOk result (string_bytes out.new ≡ string_bytes out.old ++ (table (kind_number scale.kind) scale.lowest (table_meaning grades.now).grade plan.now (length plan.now) ++ (lowest_line (kind_number scale.kind) scale.lowest ++ set_line tight_words (member set.now) (length set.now)))) }
{
    write_table(out, scale, grades, plan)?;
    let lowest = Grade {
        kind: scale.kind,
        code: scale.lowest,
    };
    writeln!(out, "lowest grade: {lowest}")?;
    write_set(out, "packages to work on:", set)
}

// What is told where there is no full plan, with a short set.
pub(crate) fn write_short(out: &mut String, set: &[u8]) -> Result<(), AllocError>
    ensures { OnOk result (string_bytes out.new ≡ string_bytes out.old ++ (no_plan_line ++ set_line short_words (member set.now) (length set.now))) }
{
    writeln!(out, "no full plan")?;
    write_set(out, "packages in each other's way:", set)
}
