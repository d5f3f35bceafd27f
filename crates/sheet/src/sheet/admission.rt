// Who may call, and when.
ghost use Rattle.sheet.specs.Admission.{role_answer, admission, gate, after};
ghost use Rattle.sheet.specs.Sheets.{drawn_of};
ghost use Rattle.std.specs.Option.{option_map};
ghost use Rattle.std.specs.Prelude.{◌≡◌};

use super::{Sheet, Stands};
use crate::Role;
use books::Book;
use grades::Kind;
use matching::Planned;
use refusals::Refusal;

// A call by what it does to a slip: it wants none out, or spends one of a tag.
#[derive(Clone, Copy)]
pub(crate) enum Incoming {
    Edit,
    Draw,
    Spend(u32),
}

// The state that an accepted call leaves: idle, or, after a draw that finds a plan, a slip out.
#[derive(Clone, Copy)]
pub(crate) enum Next {
    Idle,
    SlipOutIfDrawn,
}

pub(crate) fn check_role(least: Role, role: u32) -> Result<(), Refusal>
    ensures { result ≡ role_answer least role }
{
    if Role::try_from(role)? < least {
        return Err(Refusal::Role);
    }
    Ok(())
}

impl<B, K> Sheet<B, K> {
    // Lets a call in or not, by the role and then by the state.
    pub(crate) fn let_in(&self, least: Role, role: u32, call: Incoming) -> Result<Next, Refusal>
        ensures { result ≡ gate least role (option_map drawn_of self.now.out) self.now.tag call }
    {
        check_role(least, role)?;
        self.admit(call)
    }

    // Lets a call in or not, by the state and the call together, and says which state it leaves.
    pub(crate) fn admit(&self, call: Incoming) -> Result<Next, Refusal>
        ensures { result ≡ admission (option_map drawn_of self.now.out) self.now.tag call }
    {
        match (self.out, call) {
            (Some(_), Incoming::Edit | Incoming::Draw) => Err(Refusal::SlipOut),
            (None, Incoming::Spend(_)) => Err(Refusal::WrongSlip),
            (Some(_), Incoming::Spend(tag)) if tag != self.tag => Err(Refusal::WrongSlip),
            (None, Incoming::Draw) => Ok(Next::SlipOutIfDrawn),
            (None, Incoming::Edit) | (Some(_), Incoming::Spend(_)) => Ok(Next::Idle),
        }
    }
}

impl<B: Book, K: Kind> Sheet<B, K> {
    pub(crate) fn settle(&mut self, next: Next, drawn: Option<Planned>)
        ensures { ⟦<Self as Stands>⟧.stood self.new
            ≡ after (⟦<Self as Stands>⟧.stood self.old) next (option_map drawn_of drawn) }
    {
        self.out = match next {
            Next::Idle => None,
            Next::SlipOutIfDrawn => drawn,
        };
    }
}
