// Pages of calls on a sheet, as plain data, and what holds over every page.
#![tactic(auto)]

ghost use Rattle.pages.specs.Files.{StandingGradesAreOfTheKind, SavedGradesComeBack, LoadedFilesAreSavedOnes};
ghost use Rattle.pages.specs.Promises.{EverySlipIsCounted, SameLinesSameAnswers, RefusedLinesComeOff};
ghost use Rattle.pages.specs.Told.{RefusedForTheFirstReason, DrawnLinesHaveTheBestPlan, ShortLinesHaveNoPlan, DrawnWhereThereIsAPlan, ShowsGiveThePublishedPlan, OtherCallsAreDone, SameGradesSamePlan};

// Answers nothing: its contract is what holds of every list of lines that are answered as a page is.
// The sheet's own call says that its lines are.
pub fn holds_on_every_page()
    ensures refused { RefusedForTheFirstReason }
    ensures drawn { DrawnLinesHaveTheBestPlan }
    ensures short { ShortLinesHaveNoPlan }
    ensures drawn_or_short { DrawnWhereThereIsAPlan }
    ensures shown { ShowsGiveThePublishedPlan }
    ensures done { OtherCallsAreDone }
    ensures counted { EverySlipIsCounted }
    ensures same_answers { SameLinesSameAnswers }
    ensures come_off { RefusedLinesComeOff }
    ensures of_the_kind { StandingGradesAreOfTheKind }
    ensures come_back { SavedGradesComeBack }
    ensures loaded { LoadedFilesAreSavedOnes }
    ensures same_plan { SameGradesSamePlan }
{}
