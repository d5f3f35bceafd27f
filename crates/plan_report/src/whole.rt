// The whole report.
ghost use Rattle.books.specs.Meaning.{standing};
ghost use Rattle.file_format.specs.FileOf.{grade_in};
ghost use Rattle.file_format.specs.Laws.{Bytes};
ghost use Rattle.file_format.specs.Rules.{Right};
ghost use Rattle.plan_report.specs.Offices.{named_by};
ghost use Rattle.plan_report.specs.Reports.{Report, ReportsAgree, Tells};
ghost use Rattle.plan_report.specs.Texts.{head_line};
ghost use Rattle.grades.specs.Names.{kind_number};
ghost use Rattle.saved_file.specs.ByItself.{by_itself};
ghost use Rattle.std.specs.Prelude.{◌≡◌, IfOk, string_bytes, OnOk};
ghost use Rattle.table_book.specs.Table.{table_meaning};

use super::firsts::{fault_line, head_line};
use super::grade::Scale;
use super::lines::{write_plan, write_short};
use super::office::draw_by_head;
use books::Reading;
use file_loading::put_records;
use saved_file::{CheckedFile, Head, check_by_itself, read_head};
use std::alloc::{AllocError, Global};
use table_book::TableBook;

// The grades of a right file, to be read pair by pair.
fn grades_in(file: &CheckedFile<'_>, head: Head) -> TableBook
    requires bytes { Bytes file.now.file.now }
    requires right { Right (named_by head) file.now.file.now }
    ensures { (table_meaning result).grade ≡ grade_in file.now.file.now }
{
    let mut book = TableBook::new(head.sizes);
    put_records(file, &mut book);
    book
}

// What a draw comes to, after the first line.
fn tell_draw(
    out: &mut String,
    head: Head,
    file: &[u8],
    grades: &TableBook,
) -> Result<(), AllocError>
    requires right { Right (named_by head) file.now }
    requires grades { (table_meaning grades.now).grade ≡ grade_in file.now }
    requires begun { string_bytes out.old ≡ head_line (kind_number head.kind) head.sizes.packages head.sizes.translators (standing (grade_in file.now) head.sizes.packages head.sizes.translators) }
    ensures { OnOk result (Tells (kind_number head.kind) head.sizes.packages head.sizes.translators (grade_in file.now) (string_bytes out.new)) }
{
    let mut plan = [0u16; 48];
    let mut set = [0u8; 48];
    let packages = usize::from(head.sizes.packages());
    match draw_by_head(head, file, &mut plan, &mut set) {
        Some(lowest) => write_plan(
            out,
            Scale {
                kind: head.kind,
                lowest,
            },
            grades,
            &plan[..packages],
            &set[..packages],
        ),
        None => write_short(out, &set[..packages]),
    }
}

// The report on a file that was found right.
fn report_right(heap: Global, file: &[u8], checked: &CheckedFile<'_>) -> Result<String, AllocError>
    requires same { checked.now.file.now ≡ file.now }
    requires right { Right (by_itself file.now) file.now }
    ensures { IfOk result (λ text. Report file.now (string_bytes text)) }
{
    let Ok(head) = read_head(file) else {
        unreachable!()
    };
    let grades = grades_in(checked, head);
    let mut text = head_line(heap, head, checked.count())?;
    tell_draw(&mut text, head, file, &grades)?;
    Ok(text)
}

// The report on a file. It fails only for want of memory.
pub fn report(heap: Global, file: &[u8]) -> Result<String, AllocError>
    ensures told { IfOk result (λ text. Report file.now (string_bytes text)) }
    ensures agree { ReportsAgree }
{
    match check_by_itself(file) {
        Ok(checked) => report_right(heap, file, &checked),
        Err(fault) => fault_line(heap, fault),
    }
}
