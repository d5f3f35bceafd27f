// The calls of the program on its sheet. The slip that it holds stands beside the sheet and goes in
// and out by value, since one in a field behind a `&mut` could be overwritten, and so dropped.
ghost use Rattle.page_runs.specs.Asks.{opening_with};
ghost use Rattle.page_runs.specs.Live.{Live, Closed};
ghost use Rattle.page_runs.specs.Output.{Tells};
ghost use Rattle.page_text.specs.Commands.{said_of};
ghost use Rattle.page_text.specs.Replies.{Told, line_of};
ghost use Rattle.pages.specs.Lines.{Event};
ghost use Rattle.std.specs.Prelude.{◌≡◌, ℕ, List, ◌++◌, string_bytes, OnOk};

use super::step::{call_for, joined, last_line};
use super::telling::{reply_of, tell};
use books::{Reading, Sizes};
use grades::Points;
use page_text::Command;
use sheet::{Answer, Sheet, Slip};
use std::alloc::AllocError;
use table_book::TableBook;

// Runs a command and tells its answer. What is held afterwards comes back, also where the output
// takes no more.
pub(crate) fn answer_command(
    out: &mut String,
    sheet: &mut Sheet<TableBook, Points>,
    sizes: Sizes,
    held: Option<Slip>,
    command: Command<'_>,
) -> (Option<Slip>, Result<(), AllocError>)
    requires { (h : List Event) × Live sizes.packages sizes.translators h sheet.old held }
    ensures { (h : List Event) → Live sizes.packages sizes.translators h sheet.old held
        → (t : Told) × (k : List Event)
        × Live sizes.packages sizes.translators k sheet.new result.0
        × Tells (opening_with sizes.packages sizes.translators) h (said_of command.entry) t k
        × OnOk result.1 (string_bytes out.new ≡ string_bytes out.old ++ line_of t) }
{
    match call_for(command, held) {
        (Err(reply), kept) => (kept, tell(out, reply)),
        (Ok(line), kept) => {
            let mut plan = [0u16; 48];
            let mut set = [0u8; 48];
            let Answer { outcome, slip } = sheet.call(line, &mut plan, &mut set);
            let packages = usize::from(sizes.packages());
            let told = tell(out, reply_of(outcome, &plan[..packages]));
            (joined(kept, slip), told)
        }
    }
}

// A slip that is held is withdrawn with role 3. Answers whether there was one.
pub(crate) fn close(sheet: &mut Sheet<TableBook, Points>, held: Option<Slip>) -> bool
    requires { (p : ℕ) × (t : ℕ) × (h : List Event) × Live p t h sheet.old held }
    ensures { (p t : ℕ) (h : List Event) → Live p t h sheet.old held → Closed p t h result }
{
    let Some(slip) = held else {
        return false;
    };
    let mut plan = [0u16; 48];
    let mut set = [0u8; 48];
    let Answer { outcome: _, slip } = sheet.call(last_line(slip), &mut plan, &mut set);
    match slip {
        None => true,
        Some(_) => unreachable!(),
    }
}
