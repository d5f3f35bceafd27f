// What is wrong with a saved file, and where.
ghost use Rattle.refusals.specs.Faults.{cause_number, layer_of, fault_at};
ghost use Rattle.std.specs.Prelude.{◌≡◌};

// The rule that the file breaks.
#[derive(Clone, Copy, PartialEq, Eq, Debug)]
pub enum Cause {
    NotWhole = 1,
    Count = 2,
    Kind = 3,
    Sizes = 4,
    Place = 5,
    Code = 6,
    NotAfter = 7,
    LeftOver = 8,
}

// The layer of the reader that holds the rule.
#[derive(Clone, Copy, PartialEq, Eq, Debug)]
pub enum Layer {
    Bytes,
    Record,
    Section,
    Sheet,
}

#[derive(Clone, Copy, PartialEq, Eq, Debug)]
pub struct Fault {
    pub cause: Cause,
    pub layer: Layer,
    // the rules number both, with 0 where there is none: for the whole file, or the count of a section
    pub section: u8,
    pub record: u16,
    // of the first byte of that count or record, from 0
    pub offset: usize,
}

impl Cause {
    pub fn number(self) -> u8
        ensures { result ≡ cause_number self }
    {
        self as u8
    }

    pub fn layer(self) -> Layer
        ensures { result ≡ layer_of self }
    {
        match self {
            Cause::NotWhole => Layer::Bytes,
            Cause::Place | Cause::Code => Layer::Record,
            Cause::Count | Cause::NotAfter | Cause::LeftOver => Layer::Section,
            Cause::Kind | Cause::Sizes => Layer::Sheet,
        }
    }
}

impl Fault {
    // The fault of this cause there, told by the layer of the cause.
    pub fn of(cause: Cause, section: u8, number: u16, offset: usize) -> Fault
        ensures { result ≡ fault_at cause section number offset }
    {
        Fault {
            cause,
            layer: cause.layer(),
            section,
            record: number,
            offset,
        }
    }
}
