// What the definitions of plans and sets say of every plan: each function's contract is a theorem.
ghost use Rattle.matching.specs.Theorems.{OneBestPlan, ShortRulesOut, TightRulesOut};

// Two offices with the same grades draw the same plan and tell the same lowest grade.
pub fn one_best_plan()
    ensures { OneBestPlan }
{}

pub fn tight_rules_out()
    ensures { TightRulesOut }
{}

pub fn short_rules_out()
    ensures { ShortRulesOut }
{}
