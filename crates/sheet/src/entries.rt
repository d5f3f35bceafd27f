// A whole page: a list of lines, each with buffers of its own, run in place.
ghost use Rattle.std.specs.Prelude.{◌≡◌, ℕ, List, ◌∷◌};
ghost use Rattle.pages.specs.Files.{StandingGradesAreOfTheKind, SavedGradesComeBack, LoadedFilesAreSavedOnes};
ghost use Rattle.pages.specs.Lines.{Opening as Opened, Event, run_on};
ghost use Rattle.pages.specs.Promises.{EverySlipIsCounted, SameLinesSameAnswers, RefusedLinesComeOff};
ghost use Rattle.pages.specs.Told.{RefusedForTheFirstReason, DrawnLinesHaveTheBestPlan, ShortLinesHaveNoPlan, DrawnWhereThereIsAPlan, ShowsGiveThePublishedPlan, OtherCallsAreDone, SameGradesSamePlan};
ghost use Rattle.sheet.specs.Entries.{asked_in, event_in, events_in};
ghost use Rattle.sheet.specs.Lines.{asked_of};
ghost use Rattle.sheet.specs.Sheets.{LedTo};

use crate::{Answer, Call, Line, Sheet, Slip, Stands};
use books::Book;
use grades::Kind;

// A call by its numbers: a slip by its tag, and the file beside the call.
pub type Ask = Call<u32, ()>;

// The tag is that of a slip that was handed out or back.
pub type Reply = Answer<u32>;

// One line of a page with what it is given, and its answer once it has run.
#[derive(Drop)]
pub struct Entry {
    pub ask: Ask,
    pub file: Vec<u8>,
    pub plan: Vec<u16>,
    pub set: Vec<u8>,
    pub reply: Reply,
}

// Runs every line in turn. Whatever history led to the sheet grows by these lines, all and in order,
// with the answers that the entries then hold; and of every history holds what `call` says.
pub fn run_page<B: Book, K: Kind>(sheet: &mut Sheet<B, K>, page: &mut [Entry])
    ensures ran { (o : Opened) (h : List Event) → LedTo o h (⟦<Sheet<B, K> as Stands>⟧.stood sheet.old)
        → LedTo o (run_on h (events_in page.old page.new)) (⟦<Sheet<B, K> as Stands>⟧.stood sheet.new) }
    ensures refused { RefusedForTheFirstReason }
    ensures drawn { DrawnLinesHaveTheBestPlan }
    ensures short { ShortLinesHaveNoPlan }
    ensures drawn_or_short { DrawnWhereThereIsAPlan }
    ensures shown { ShowsGiveThePublishedPlan }
    ensures done { OtherCallsAreDone }
    ensures counted { EverySlipIsCounted }
    ensures same_answers { SameLinesSameAnswers }
    ensures come_off { RefusedLinesComeOff }
    ensures of_the_kind { StandingGradesAreOfTheKind }
    ensures come_back { SavedGradesComeBack }
    ensures loaded { LoadedFilesAreSavedOnes }
    ensures same_plan { SameGradesSamePlan }
{
    for entry in page {
        run_entry(sheet, entry);
    }
}

fn run_entry<B: Book, K: Kind>(sheet: &mut Sheet<B, K>, entry: &mut Entry)
    ensures { (o : Opened) (h : List Event) → LedTo o h (⟦<Sheet<B, K> as Stands>⟧.stood sheet.old)
        → LedTo o (event_in entry.old entry.new ∷ h) (⟦<Sheet<B, K> as Stands>⟧.stood sheet.new) }
{
    let line = line_of(entry.ask, &entry.file);
    let Answer { outcome, slip } = sheet.call(line, &mut entry.plan, &mut entry.set);
    entry.reply = Reply {
        outcome,
        slip: slip.map(Slip::spend),
    };
}

// The line of an entry. Its slip is made here, inside the crate, of any tag. A map over the two
// parameters of a call has the same seven arms.
fn line_of(ask: Ask, file: &[u8]) -> Line<'_>
    ensures { (plan set : List ℕ) → asked_of result plan set ≡ asked_in ask file.now plan set }
{
    match ask {
        Ask::Grade {
            role,
            pkg,
            translator,
            code,
        } => Line::Grade {
            role,
            pkg,
            translator,
            code,
        },
        Ask::Strike {
            role,
            pkg,
            translator,
        } => Line::Strike {
            role,
            pkg,
            translator,
        },
        Ask::Load { role, file: () } => Line::Load { role, file },
        Ask::Draw { role } => Line::Draw { role },
        Ask::Publish { role, slip: tag } => Line::Publish {
            role,
            slip: Slip::of_tag(tag),
        },
        Ask::Withdraw { role, slip: tag } => Line::Withdraw {
            role,
            slip: Slip::of_tag(tag),
        },
        Ask::Show { role } => Line::Show { role },
    }
}
