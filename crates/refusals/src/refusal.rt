// The reasons for which a call is refused, in the order in which they are checked.
ghost use Rattle.refusals.specs.Refusals.{number_of};
ghost use Rattle.refusals.specs.declared.refusal.Refusal.TheVariants.{File};
ghost use Rattle.std.specs.Prelude.{◌≡◌};

use super::Fault;

#[derive(Clone, Copy, PartialEq, Eq, Debug)]
pub enum Refusal {
    Size,
    Role,
    SlipOut,
    WrongSlip,
    NotEmpty,
    Place,
    Grade,
    NothingThere,
    Space,
    File(Fault),
    Full,
}

impl Refusal {
    // Written out, since an enum has numbers of its own only where no variant holds a value.
    pub fn number(self) -> u8
        ensures { result ≡ number_of self }
    {
        match self {
            Refusal::Size => 1,
            Refusal::Role => 2,
            Refusal::SlipOut => 3,
            Refusal::WrongSlip => 4,
            Refusal::NotEmpty => 5,
            Refusal::Place => 6,
            Refusal::Grade => 7,
            Refusal::NothingThere => 8,
            Refusal::Space => 9,
            Refusal::File(_) => 10,
            Refusal::Full => 11,
        }
    }
}

// So that `?` carries a fault, unchanged, into the refusal of a load.
impl From<Fault> for Refusal {
    ghost from_gives = { λ fault r. r ≡ File fault };

    fn from(fault: Fault) -> Refusal {
        Refusal::File(fault)
    }
}
