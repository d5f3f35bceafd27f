// Worked sheets: a list of small sheets, and that each of them gives the answer written beside it.
#![tactic(auto)]

ghost use Rattle.worked_sheets.specs.Right.{EverySheetGivesItsAnswer};

pub fn worked_sheets_hold()
    ensures { EverySheetGivesItsAnswer }
{}
