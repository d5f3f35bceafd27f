// What the definitions of a page say of its lines, each in a few words that anybody can hold against
// the rules: each function's contract is a set of facts that a wrong definition would break.
#![tactic(auto)]

ghost use Rattle.page_facts.specs.Accepted.{GoodDraws, GoodGrades, GoodLoads, GoodShows, GoodSlips, GoodStrikes};
ghost use Rattle.page_facts.specs.Alike.{AlikeAnswersAgree, AlikeLineByLine, Equivalence};
ghost use Rattle.page_facts.specs.Buffers.{DrawnLinesInWords, LaterPlacesNeverChange, ShortLinesInWords, WritesLittle};
ghost use Rattle.page_facts.specs.Counted.{NewestLineFirst, SlipCounts};
ghost use Rattle.page_facts.specs.Example.{BytesInTheirPlaces, DamagedFiles, WorkedFile};
ghost use Rattle.page_facts.specs.Grades.{GradedPairsStand, LastLineDecides, LimitIsKept, LoadedGradesStand, OtherLinesLeaveTheGrades, RegradedPairsStand, StruckPairsAreFree};
ghost use Rattle.page_facts.specs.Order.{DrawsNeedRoom, GradeLinesInOrder, LoadsInOrder, ShowsInOrder, SlipOutFirst, StrikesInOrder, WrongSlips};
ghost use Rattle.page_facts.specs.Rights.{RolesByTheTable};
ghost use Rattle.page_facts.specs.Slips.{DrawnPlansAreOut, LastSlipDecides, OtherLinesLeaveThePublished, OtherLinesLeaveTheSlip, ShortDrawsHandOutNone, ShownAsDrawn, SlipsComeFromDraws, SpentSlipsAreGone};
ghost use Rattle.page_facts.specs.Witness.{ThereIsAPage};

pub fn limit_is_kept()
    ensures { LimitIsKept }
{}

// What stands right after a line, and which line a standing grade comes from.
pub fn standing_grades()
    ensures graded { GradedPairsStand }
    ensures struck { StruckPairsAreFree }
    ensures loaded { LoadedGradesStand }
    ensures others { OtherLinesLeaveTheGrades }
    ensures again { RegradedPairsStand }
    ensures last { LastLineDecides }
{}

pub fn slips()
    ensures out { DrawnPlansAreOut }
    ensures spent { SpentSlipsAreGone }
    ensures short { ShortDrawsHandOutNone }
    ensures source { SlipsComeFromDraws }
    ensures others { OtherLinesLeaveTheSlip }
    ensures last { LastSlipDecides }
{}

// Of the words in which slips are counted, and of the history after more lines.
pub fn counted_lines()
    ensures counts { SlipCounts }
    ensures newest { NewestLineFirst }
{}

pub fn published_plans()
    ensures others { OtherLinesLeaveThePublished }
    ensures shown { ShownAsDrawn }
{}

pub fn alike_answers()
    ensures agree { AlikeAnswersAgree }
    ensures equivalence { Equivalence }
    ensures lines { AlikeLineByLine }
{}

pub fn roles_by_the_table()
    ensures { RolesByTheTable }
{}

// Where several reasons hold at once.
pub fn reasons_in_order()
    ensures slip_out { SlipOutFirst }
    ensures wrong_slip { WrongSlips }
    ensures grade { GradeLinesInOrder }
    ensures strike { StrikesInOrder }
    ensures load { LoadsInOrder }
    ensures draw { DrawsNeedRoom }
    ensures show { ShowsInOrder }
{}

// With all of it given, a call is not refused.
pub fn good_lines_are_accepted()
    ensures grade { GoodGrades }
    ensures strike { GoodStrikes }
    ensures load { GoodLoads }
    ensures draw { GoodDraws }
    ensures slip { GoodSlips }
    ensures show { GoodShows }
{}

// What the two buffers of a line hold after it.
pub fn buffers_in_words()
    ensures later { LaterPlacesNeverChange }
    ensures little { WritesLittle }
    ensures drawn { DrawnLinesInWords }
    ensures short { ShortLinesInWords }
{}

// The file that the rules spell out byte by byte.
pub fn worked_file()
    ensures whole { WorkedFile }
    ensures damaged { DamagedFiles }
    ensures places { BytesInTheirPlaces }
{}

// A page of eleven lines with every call and every kind of outcome: what holds of every page holds of
// some.
pub fn there_is_a_page()
    ensures { ThereIsAPage }
{}
