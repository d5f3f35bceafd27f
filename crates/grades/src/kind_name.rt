// The kinds that there are, as a value.
ghost use Rattle.grades.specs.Names.{Names, kind_number, kind_text};
ghost use Rattle.std.specs.Prelude.{◌≡◌, ◌++◌, Some, codes, decimal};

use super::{Kind, Points, Ratings};
use std::error::Error;
use std::fmt;

#[derive(Clone, Copy, PartialEq, Eq, Debug)]
pub enum KindName {
    Points,
    Ratings,
}

// A number that is no kind's.
#[derive(Clone, Copy, PartialEq, Eq, Debug)]
pub struct UnknownKind(pub u32);

impl TryFrom<u32> for KindName {
    type Error = UnknownKind;

    ghost try_from_gives = { Names };

    fn try_from(number: u32) -> Result<KindName, UnknownKind> {
        match u8::try_from(number) {
            Ok(Points::NUMBER) => Ok(KindName::Points),
            Ok(Ratings::NUMBER) => Ok(KindName::Ratings),
            _ => Err(UnknownKind(number)),
        }
    }
}

impl TryFrom<u8> for KindName {
    type Error = UnknownKind;

    ghost try_from_gives = { Names };

    fn try_from(number: u8) -> Result<KindName, UnknownKind> {
        KindName::try_from(u32::from(number))
    }
}

impl From<KindName> for u8 {
    ghost from_gives = { λ kind number. number ≡ kind_number kind };

    fn from(kind: KindName) -> u8 {
        match kind {
            KindName::Points => Points::NUMBER,
            KindName::Ratings => Ratings::NUMBER,
        }
    }
}

impl fmt::Display for KindName {
    ghost output = { λ kind. Some (kind_text kind) };

    fn fmt<W: fmt::Write>(&self, f: &mut fmt::Formatter<W>) -> fmt::Result {
        f.write_str(match self {
            KindName::Points => "points",
            KindName::Ratings => "ratings",
        })
    }
}

impl fmt::Display for UnknownKind {
    ghost output = { λ unknown. Some (codes "no kind has the number " ++ decimal unknown.0) };

    fn fmt<W: fmt::Write>(&self, f: &mut fmt::Formatter<W>) -> fmt::Result {
        write!(f, "no kind has the number {}", self.0)
    }
}

impl Error for UnknownKind {}
