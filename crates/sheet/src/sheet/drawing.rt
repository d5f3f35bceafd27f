// Drawing a plan, and showing the published one.
ghost use Rattle.std.specs.Prelude.{◌≡◌, ℕ, List, is_ok, if◌then◌else◌};
ghost use Rattle.pages.specs.Lines.{Call};
ghost use Rattle.sheet.specs.Draws.{DrawsNow};
ghost use Rattle.sheet.specs.Sheets.{Fits, RanLine};
ghost use Rattle.sheet.specs.Steps.{show_answer, shown_in};
ghost use Rattle.sheet.specs.Told.{asked, told_draw, told_show};

use super::admission::{Incoming, Next, check_role};
use super::{Sheet, Stands};
use crate::{Role, Slip};
use books::Book;
use grades::Kind;
use matching::match_into;
use refusals::Refusal;

// What is drawn where there is a full plan.
pub struct Draw {
    pub lowest: u32,
    pub slip: Slip,
}

impl<B: Book, K: Kind> Sheet<B, K> {
    // Writes the best plan and a tight set, and hands out a slip; or writes a short set, where there
    // is no full plan. By a rule of the project the two buffers are lent, each by itself.
    pub fn draw(
        &mut self,
        role: u32,
        plan: &mut [u16],
        set: &mut [u8],
    ) -> Result<Option<Draw>, Refusal>
        ensures { RanLine (⟦<Self as Stands>⟧.stood self.old) (⟦<Self as Stands>⟧.stood self.new)
            (asked role Call.draw plan.old set.old) (told_draw result plan.new set.new) }
    {
        let next = self.let_in(Role::Editor, role, Incoming::Draw)?;
        self.draw_now(next, plan, set)
    }

    fn draw_now(
        &mut self,
        next: Next,
        plan: &mut [u16],
        set: &mut [u8],
    ) -> Result<Option<Draw>, Refusal>
        ensures { DrawsNow (⟦<Self as Stands>⟧.stood self.old) next plan.old set.old plan.new set.new result
            (⟦<Self as Stands>⟧.stood self.new) }
    {
        let drawn = match_into::<B, K>(&self.book, plan, set)?;
        self.settle(next, drawn);
        Ok(drawn.map(|drawn| Draw {
            lowest: drawn.lowest,
            slip: Slip::of_tag(self.tag),
        }))
    }

    // Writes the published plan and answers its lowest code as drawn. Every plan that is published
    // fits, so the second clause is the first in the words of a page.
    pub fn show(&self, role: u32, plan: &mut [u16]) -> Result<u32, Refusal>
        ensures answer { result ≡ show_answer (⟦<Self as Stands>⟧.stood self.now) role plan.old }
        ensures written { plan.new
            ≡ (if is_ok result then shown_in (⟦<Self as Stands>⟧.stood self.now).standing.published plan.old else plan.old) }
        ensures ran { Fits (⟦<Self as Stands>⟧.stood self.now) → (set : List ℕ)
            → RanLine (⟦<Self as Stands>⟧.stood self.now) (⟦<Self as Stands>⟧.stood self.now)
            (asked role Call.show plan.old set) (told_show result plan.new set) }
    {
        self.show_plan(role, plan)
    }

    fn show_plan(&self, role: u32, plan: &mut [u16]) -> Result<u32, Refusal>
        ensures answer { result ≡ show_answer (⟦<Self as Stands>⟧.stood self.now) role plan.old }
        ensures written { plan.new
            ≡ (if is_ok result then shown_in (⟦<Self as Stands>⟧.stood self.now).standing.published plan.old else plan.old) }
    {
        check_role(Role::Reader, role)?;
        let drawn = self.published.ok_or(Refusal::NothingThere)?;
        if plan.len() < usize::from(self.book.packages()) {
            return Err(Refusal::Space);
        }
        drawn.plan.write_into(plan)?;
        Ok(drawn.lowest)
    }
}
