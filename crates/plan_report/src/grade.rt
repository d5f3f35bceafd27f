// A grade as a manager reads it.
ghost use Rattle.grades.specs.Names.{kind_number};
ghost use Rattle.plan_report.specs.Texts.{grade_words, told_grade};
ghost use Rattle.std.specs.Prelude.{Some};

use grades::KindName;
use std::fmt;

#[derive(Clone, Copy)]
pub(crate) struct Grade {
    pub kind: KindName,
    pub code: u32,
}

impl fmt::Display for Grade {
    ghost output = { λ g. Some (grade_words (kind_number g.kind) g.code) };

    fn fmt<W: fmt::Write>(&self, f: &mut fmt::Formatter<W>) -> fmt::Result {
        let code = self.code;
        match self.kind {
            KindName::Points => write!(f, "{code}"),
            KindName::Ratings => write!(
                f,
                "class {}, {} days (code {code})",
                code % 256,
                code / 256,
            ),
        }
    }
}

// The grades of a plan: their kind, and the lowest of them.
#[derive(Clone, Copy)]
pub(crate) struct Scale {
    pub kind: KindName,
    pub lowest: u32,
}

// The grade of a pair, marked where it is the lowest.
#[derive(Clone, Copy)]
pub(crate) struct ToldGrade {
    pub scale: Scale,
    pub grade: Option<u32>,
}

impl fmt::Display for ToldGrade {
    ghost output = { λ g. Some (told_grade (kind_number g.scale.kind) g.scale.lowest g.grade) };

    fn fmt<W: fmt::Write>(&self, f: &mut fmt::Formatter<W>) -> fmt::Result {
        let Some(code) = self.grade else {
            return write!(f, "no grade");
        };
        let words = Grade {
            kind: self.scale.kind,
            code,
        };
        if code == self.scale.lowest {
            write!(f, "{words}, the lowest")
        } else {
            write!(f, "{words}")
        }
    }
}
