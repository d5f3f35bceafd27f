// A fault in words.
ghost use Rattle.refusals.specs.Words.{fault_line, word_of, words_of};
ghost use Rattle.std.specs.Prelude.{Some};

use super::{Cause, Fault, Layer};
use std::fmt;

impl fmt::Display for Cause {
    ghost output = { λ cause. Some (words_of cause) };

    fn fmt<W: fmt::Write>(&self, f: &mut fmt::Formatter<W>) -> fmt::Result {
        f.write_str(match self {
            Cause::NotWhole => "a count or record is not whole",
            Cause::Count => "the count is not one that a section may have",
            Cause::Kind => "the kind is unknown",
            Cause::Sizes => "the sizes are outside the limits",
            Cause::Place => "the place is outside the sizes",
            Cause::Code => "the code is not valid in the kind",
            Cause::NotAfter => "the record does not come after the one before",
            Cause::LeftOver => "bytes are left over",
        })
    }
}

impl fmt::Display for Layer {
    ghost output = { λ layer. Some (word_of layer) };

    fn fmt<W: fmt::Write>(&self, f: &mut fmt::Formatter<W>) -> fmt::Result {
        f.write_str(match self {
            Layer::Bytes => "bytes",
            Layer::Record => "record",
            Layer::Section => "section",
            Layer::Sheet => "sheet",
        })
    }
}

// The words of the cause, and then all numbers.
impl fmt::Display for Fault {
    ghost output = { λ fault. Some (fault_line fault) };

    fn fmt<W: fmt::Write>(&self, f: &mut fmt::Formatter<W>) -> fmt::Result {
        write!(
            f,
            "fault: {} (cause {}, layer {}, section {}, record {}, offset {})",
            self.cause,
            self.cause.number(),
            self.layer,
            self.section,
            self.record,
            self.offset,
        )
    }
}
