// What the definitions of plans and sets say of sheets whose answer anybody can tell: each
// function's contract is a fact that a wrong definition would break.
#![tactic(auto)]

ghost use Rattle.plan_facts.specs.Codes.{PointsInWords, RatingsInWords};
ghost use Rattle.plan_facts.specs.Even.{EvenSheetsCountUp, ShortEvenSheets, TightSetsOfEvenSheets};
ghost use Rattle.plan_facts.specs.Plans.{BestPlanOrNone, HigherGradesNeverLowerTheBottleneck, LowestGradeIsBelowTheOthers, OneLowestGrade, PlansNameTranslators, TooFewTranslators};
ghost use Rattle.plan_facts.specs.Sets.{Counts, EmptySetsAreNeither, JoinedByGrades, ReachedByAMember, SetsEndAtTheLastPackage, TightSetsAreNotShort};
ghost use Rattle.plan_facts.specs.Single.{HigherGradeIsDrawn, LastTranslatorCounts, UngradedPackageIsShort};

// Of any full plan by valid grades.
pub fn one_lowest_grade()
    ensures one { OneLowestGrade }
    ensures below { LowestGradeIsBelowTheOthers }
{}

// Nothing is computed here: the code that draws is proved to find this plan.
pub fn best_plan_or_none()
    ensures { BestPlanOrNone }
{}

pub fn too_few_translators()
    ensures { TooFewTranslators }
{}

pub fn plans_name_translators()
    ensures { PlansNameTranslators }
{}

pub fn higher_grades_never_lower_the_bottleneck()
    ensures { HigherGradesNeverLowerTheBottleneck }
{}

// Of sheets on which every pair has the same grade.
pub fn even_sheets()
    ensures plan { EvenSheetsCountUp }
    ensures tight { TightSetsOfEvenSheets }
    ensures short { ShortEvenSheets }
{}

// Of sheets of one package.
pub fn single_package()
    ensures last { LastTranslatorCounts }
    ensures higher { HigherGradeIsDrawn }
    ensures none { UngradedPackageIsShort }
{}

// Of counting, reaching, and the pairs that count.
pub fn what_is_counted()
    ensures counts { Counts }
    ensures reached { ReachedByAMember }
    ensures joined { JoinedByGrades }
    ensures ends { SetsEndAtTheLastPackage }
{}

pub fn tight_and_short_sets()
    ensures empty { EmptySetsAreNeither }
    ensures apart { TightSetsAreNotShort }
{}

// Of the codes of both kinds.
pub fn codes_in_words()
    ensures points { PointsInWords }
    ensures ratings { RatingsInWords }
{}
