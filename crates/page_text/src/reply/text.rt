// The text of an answer, without the end of its line.
ghost use Rattle.page_text.specs.Replies.{told_of, text_of, spaced};
ghost use Rattle.std.specs.List.{flat_map};
ghost use Rattle.std.specs.Fmt.{WritesOnOk};
ghost use Rattle.std.specs.Prelude.{Some};

use super::Reply;
use std::fmt;

fn write_plan<W: fmt::Write>(f: &mut fmt::Formatter<W>, plan: &[u16]) -> fmt::Result
    ensures { WritesOnOk W.write_str_gives f.old result (flat_map spaced plan.now) f.new }
{
    for translator in plan {
        write!(f, " {translator}")?;
    }
    Ok(())
}

impl fmt::Display for Reply<'_> {
    ghost output = { λ r. Some (text_of (told_of r)) };

    fn fmt<W: fmt::Write>(&self, f: &mut fmt::Formatter<W>) -> fmt::Result {
        match *self {
            Reply::Ok => write!(f, "ok"),
            Reply::Short => write!(f, "short"),
            Reply::Drawn { code, plan } => {
                write!(f, "drawn {code}")?;
                write_plan(f, plan)
            }
            Reply::Shown { code, plan } => {
                write!(f, "shown {code}")?;
                write_plan(f, plan)
            }
            Reply::Refused(refusal) => write!(f, "refused {}", refusal.number()),
            Reply::BadLine => write!(f, "bad line"),
            Reply::NoSlip => write!(f, "no slip"),
            Reply::Withdrawn => write!(f, "withdrawn"),
            Reply::TooLong => write!(f, "too long"),
        }
    }
}
