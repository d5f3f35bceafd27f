// Giving and taking the grade of a pair.
ghost use Rattle.std.specs.Prelude.{◌≡◌, ℕ, List, is_ok, if◌then◌else◌, Some as Holds, None as Lacks};
ghost use Rattle.pages.specs.Lines.{Call};
ghost use Rattle.sheet.specs.Sheets.{RanLine};
ghost use Rattle.sheet.specs.Steps.{grade_answer, strike_answer, with_grade_at};
ghost use Rattle.sheet.specs.Told.{asked, told_done};

use super::admission::Incoming;
use super::{Sheet, Stands};
use crate::Role;
use books::Book;
use grades::Kind;
use refusals::Refusal;

impl<B: Book, K: Kind> Sheet<B, K> {
    // Puts a valid code for a pair.
    pub fn grade(&mut self, role: u32, pkg: u32, translator: u32, code: u32) -> Result<(), Refusal>
        ensures { (plan set : List ℕ)
            → RanLine (⟦<Self as Stands>⟧.stood self.old) (⟦<Self as Stands>⟧.stood self.new)
            (asked role (Call.grade pkg translator code) plan set) (told_done result plan set) }
    {
        self.put_grade(role, pkg, translator, code)
    }

    // Takes the grade of a pair.
    pub fn strike(&mut self, role: u32, pkg: u32, translator: u32) -> Result<(), Refusal>
        ensures { (plan set : List ℕ)
            → RanLine (⟦<Self as Stands>⟧.stood self.old) (⟦<Self as Stands>⟧.stood self.new)
            (asked role (Call.strike pkg translator) plan set) (told_done result plan set) }
    {
        self.take_grade(role, pkg, translator)
    }

    fn put_grade(&mut self, role: u32, pkg: u32, translator: u32, code: u32) -> Result<(), Refusal>
        ensures answer { result ≡ grade_answer (⟦<Self as Stands>⟧.stood self.old) role pkg translator code }
        ensures after { ⟦<Self as Stands>⟧.stood self.new
            ≡ (if is_ok result then with_grade_at (⟦<Self as Stands>⟧.stood self.old) pkg translator (Holds code)
            else ⟦<Self as Stands>⟧.stood self.old) }
    {
        self.let_in(Role::Editor, role, Incoming::Edit)?;
        if !self.sizes().holds(pkg, translator) {
            return Err(Refusal::Place);
        }
        if !K::is_valid(code) {
            return Err(Refusal::Grade);
        }
        self.book.put(pkg, translator, code)
    }

    fn take_grade(&mut self, role: u32, pkg: u32, translator: u32) -> Result<(), Refusal>
        ensures answer { result ≡ strike_answer (⟦<Self as Stands>⟧.stood self.old) role pkg translator }
        ensures after { ⟦<Self as Stands>⟧.stood self.new
            ≡ (if is_ok result then with_grade_at (⟦<Self as Stands>⟧.stood self.old) pkg translator Lacks
            else ⟦<Self as Stands>⟧.stood self.old) }
    {
        self.let_in(Role::Manager, role, Incoming::Edit)?;
        self.book.take(pkg, translator)
    }
}
