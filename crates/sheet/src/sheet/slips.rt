// Publishing and withdrawing the plan whose slip is out.
ghost use Rattle.std.specs.Prelude.{◌≡◌, ℕ, List, is_ok, if◌then◌else◌, None as Lacks};
ghost use Rattle.pages.specs.Lines.{Call};
ghost use Rattle.sheet.specs.Sheets.{RanLine};
ghost use Rattle.sheet.specs.Spending.{handed};
ghost use Rattle.sheet.specs.Steps.{spend_answer, with_plans};
ghost use Rattle.sheet.specs.Told.{asked, told_spent};

use super::admission::Incoming;
use super::{Sheet, Stands};
use crate::{Role, Slip};
use books::Book;
use grades::Kind;
use matching::Planned;
use refusals::Refusal;

impl<B: Book, K: Kind> Sheet<B, K> {
    // Spends the slip and records the drawn plan as the published one.
    pub fn publish(&mut self, role: u32, slip: Slip) -> Result<(), (Refusal, Slip)>
        ensures { (plan set : List ℕ)
            → RanLine (⟦<Self as Stands>⟧.stood self.old) (⟦<Self as Stands>⟧.stood self.new)
            (asked role (Call.publish slip.tag) plan set) (told_spent result plan set) }
    {
        self.published = self.spend_slip(Role::Manager, role, slip)?;
        Ok(())
    }

    // Spends the slip and drops the drawn plan.
    pub fn withdraw(&mut self, role: u32, slip: Slip) -> Result<(), (Refusal, Slip)>
        ensures { (plan set : List ℕ)
            → RanLine (⟦<Self as Stands>⟧.stood self.old) (⟦<Self as Stands>⟧.stood self.new)
            (asked role (Call.withdraw slip.tag) plan set) (told_spent result plan set) }
    {
        self.spend_slip(Role::Editor, role, slip)?;
        Ok(())
    }

    // Spends the slip and answers the plan that was out, or hands the slip back.
    fn spend_slip(
        &mut self,
        least: Role,
        role: u32,
        slip: Slip,
    ) -> Result<Option<Planned>, (Refusal, Slip)>
        ensures answer { handed result ≡ spend_answer least (⟦<Self as Stands>⟧.stood self.old) role slip }
        ensures after { ⟦<Self as Stands>⟧.stood self.new
            ≡ (if is_ok result then with_plans (⟦<Self as Stands>⟧.stood self.old) Lacks (⟦<Self as Stands>⟧.stood self.old).standing.published
            else ⟦<Self as Stands>⟧.stood self.old) }
    {
        // A match, since a closure for map_err would take the slip away from the other arm.
        match self.let_in(least, role, Incoming::Spend(slip.tag())) {
            Ok(next) => {
                let drawn = self.out;
                self.settle(next, None);
                slip.spend();
                Ok(drawn)
            }
            Err(refusal) => Err((refusal, slip)),
        }
    }
}
