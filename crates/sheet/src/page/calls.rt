// Running one line.
ghost use Rattle.std.specs.Prelude.{List, ◌∷◌};
ghost use Rattle.pages.specs.Files.{StandingGradesAreOfTheKind, SavedGradesComeBack, LoadedFilesAreSavedOnes};
ghost use Rattle.pages.specs.Lines.{Opening as Opened, Event};
ghost use Rattle.pages.specs.Promises.{EverySlipIsCounted, SameLinesSameAnswers, RefusedLinesComeOff};
ghost use Rattle.pages.specs.Told.{RefusedForTheFirstReason, DrawnLinesHaveTheBestPlan, ShortLinesHaveNoPlan, DrawnWhereThereIsAPlan, ShowsGiveThePublishedPlan, OtherCallsAreDone, SameGradesSamePlan};
ghost use Rattle.sheet.specs.Lines.{event_of, asked_of, told_of};
ghost use Rattle.sheet.specs.Sheets.{Fits, LedTo, RanLine};

use super::{Answer, Line};
use crate::{Sheet, Slip, Stands};
use books::Book;
use grades::Kind;

impl<B: Book, K: Kind> Sheet<B, K> {
    // Runs a line with its own buffers: every history that led to this sheet grows by this line and
    // its answer. The other clauses are what holds over every such history.
    // They stand here and on `run_page`, since the rules ask both calls to carry these promises.
    pub fn call(&mut self, line: Line<'_>, plan: &mut [u16], set: &mut [u8]) -> Answer<Slip>
        ensures ran { (o : Opened) (h : List Event) → LedTo o h (⟦<Self as Stands>⟧.stood self.old)
            → LedTo o (event_of line.entry plan.old set.old result plan.new set.new ∷ h)
            (⟦<Self as Stands>⟧.stood self.new) }
        ensures refused { RefusedForTheFirstReason }
        ensures drawn { DrawnLinesHaveTheBestPlan }
        ensures short { ShortLinesHaveNoPlan }
        ensures drawn_or_short { DrawnWhereThereIsAPlan }
        ensures shown { ShowsGiveThePublishedPlan }
        ensures done { OtherCallsAreDone }
        ensures counted { EverySlipIsCounted }
        ensures same_answers { SameLinesSameAnswers }
        ensures come_off { RefusedLinesComeOff }
        ensures of_the_kind { StandingGradesAreOfTheKind }
        ensures come_back { SavedGradesComeBack }
        ensures loaded { LoadedFilesAreSavedOnes }
        ensures same_plan { SameGradesSamePlan }
    {
        self.answer_to(line, plan, set)
    }

    fn answer_to(&mut self, line: Line<'_>, plan: &mut [u16], set: &mut [u8]) -> Answer<Slip>
        ensures { Fits (⟦<Self as Stands>⟧.stood self.old)
            → RanLine (⟦<Self as Stands>⟧.stood self.old) (⟦<Self as Stands>⟧.stood self.new)
            (asked_of line.entry plan.old set.old) (told_of result plan.new set.new) }
    {
        match line {
            Line::Grade {
                role,
                pkg,
                translator,
                code,
            } => self.grade(role, pkg, translator, code).into(),
            Line::Strike {
                role,
                pkg,
                translator,
            } => self.strike(role, pkg, translator).into(),
            Line::Load { role, file } => self.load(role, file).into(),
            Line::Draw { role } => self.draw(role, plan, set).into(),
            Line::Publish { role, slip } => self.publish(role, slip).into(),
            Line::Withdraw { role, slip } => self.withdraw(role, slip).into(),
            Line::Show { role } => self.show(role, plan).into(),
        }
    }
}
