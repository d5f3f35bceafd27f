// One command run on the sheet.
ghost use Rattle.page_runs.specs.Live.{Own, Puts, tag_in};
ghost use Rattle.page_text.specs.Commands.{said_of};
ghost use Rattle.pages.specs.Lines.{Call};
ghost use Rattle.pages.specs.Standing.{first_of};
ghost use Rattle.sheet.specs.Lines.{asked_of};
ghost use Rattle.sheet.specs.Told.{asked};
ghost use Rattle.std.specs.Prelude.{◌≡◌, ℕ, false, ◌&&◌, List, is_some};

use page_text::{Command, Reply};
use sheet::{Line, Role, Slip};

// The call that a command stands for, or what is told where it can be none; and the slip that stays
// with the program.
pub(crate) fn call_for(
    command: Command<'_>,
    held: Option<Slip>,
) -> (Result<Line<'static>, Reply<'static>>, Option<Slip>)
    requires { Own held }
    ensures { Puts (said_of command.entry) held result.0 result.1 }
{
    match (command, held) {
        (Command::Open { .. } | Command::Unknown(_), kept) => (Err(Reply::BadLine), kept),
        (Command::Publish { .. }, None) => (Err(Reply::NoSlip), None),
        (Command::Publish { role }, Some(slip)) => (Ok(Line::Publish { role, slip }), None),
        (Command::Withdraw { .. }, None) => (Err(Reply::NoSlip), None),
        (Command::Withdraw { role }, Some(slip)) => (Ok(Line::Withdraw { role, slip }), None),
        (
            Command::Grade {
                role,
                pkg,
                translator,
                code,
            },
            kept,
        ) => (
            Ok(Line::Grade {
                role,
                pkg,
                translator,
                code,
            }),
            kept,
        ),
        (
            Command::Strike {
                role,
                pkg,
                translator,
            },
            kept,
        ) => (
            Ok(Line::Strike {
                role,
                pkg,
                translator,
            }),
            kept,
        ),
        (Command::Draw { role }, kept) => (Ok(Line::Draw { role }), kept),
        (Command::Show { role }, kept) => (Ok(Line::Show { role }), kept),
    }
}

// The withdraw of a slip that is held when the lines are at an end.
pub(crate) fn last_line<'a>(slip: Slip) -> Line<'a>
    ensures { (plan set : List ℕ)
        → asked_of result plan set ≡ asked 3 (Call.withdraw slip.tag) plan set }
{
    Line::Withdraw {
        role: Role::Manager.into(),
        slip,
    }
}

// The one slip of the two, if there is one. `Option::or` would drop the other, and no slip may be
// dropped.
pub(crate) fn joined(kept: Option<Slip>, handed: Option<Slip>) -> Option<Slip>
    requires { (is_some kept && is_some handed) ≡ false }
    ensures { tag_in result ≡ first_of (tag_in kept) (tag_in handed) }
{
    match (kept, handed) {
        (None, handed) => handed,
        (kept, None) => kept,
        (Some(_), Some(_)) => unreachable!(),
    }
}
