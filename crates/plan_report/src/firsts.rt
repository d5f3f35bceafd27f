// The first line of a report: the fault of the file, or its kind, sizes and number of grades.
ghost use Rattle.grades.specs.Names.{kind_number};
ghost use Rattle.plan_report.specs.Texts.{fault_text, head_line};
ghost use Rattle.std.specs.Prelude.{◌≡◌, IfOk, string_bytes};

use file_format::Summary;
use refusals::Fault;
use saved_file::Head;
use std::alloc::{AllocError, Global};

pub(crate) fn fault_line(heap: Global, fault: Fault) -> Result<String, AllocError>
    ensures { IfOk result (λ s. string_bytes s ≡ fault_text fault) }
{
    format!(in heap; "{fault}\n")
}

pub(crate) fn head_line(heap: Global, head: Head, count: u16) -> Result<String, AllocError>
    ensures { IfOk result (λ s. string_bytes s ≡ head_line (kind_number head.kind) head.sizes.packages head.sizes.translators count) }
{
    let summary = Summary {
        sheet: head.into(),
        grades: count,
    };
    format!(in heap; "{summary}\n")
}
