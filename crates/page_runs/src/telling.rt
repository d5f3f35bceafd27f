// Answers into the output.
ghost use Rattle.page_runs.specs.Asks.{told_as};
ghost use Rattle.page_text.specs.Replies.{line_of, told_of};
ghost use Rattle.sheet.specs.Lines.{outcome_of};
ghost use Rattle.std.specs.Prelude.{◌≡◌, ◌++◌, length, string_bytes, OnOk};

use page_text::Reply;
use sheet::Outcome;
use std::alloc::AllocError;

pub(crate) fn tell(out: &mut String, reply: Reply<'_>) -> Result<(), AllocError>
    ensures { OnOk result (string_bytes out.new ≡ string_bytes out.old ++ line_of (told_of reply.entry)) }
{
    writeln!(out, "{reply}")
}

// The plan is told with the outcomes that have one. No `From` of the outcome can stand here: both
// types are of crates below.
pub(crate) fn reply_of(outcome: Outcome, plan: &[u16]) -> Reply<'_>
    ensures { told_of result ≡ told_as (length plan.now) (outcome_of outcome) plan.now }
{
    match outcome {
        Outcome::Done => Reply::Ok,
        Outcome::Drawn(code) => Reply::Drawn { code, plan },
        Outcome::Short => Reply::Short,
        Outcome::Shown(code) => Reply::Shown { code, plan },
        Outcome::Refused(refusal) => Reply::Refused(refusal),
    }
}
