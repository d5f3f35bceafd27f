// A page of text into a lent buffer.
ghost use Rattle.std.specs.Prelude.{◌≡◌, ◌≤◌, ◌++◌, drop};
ghost use Rattle.exports.specs.Paging.{PagedAs};
ghost use Rattle.std.proofs.Math.ListN as list;

use super::reply::{Failure, Reply};
use page_runs::answers;
use refusals::Refusal;
use std::alloc::Global;

// Writes bytes at the start of a buffer.
fn write_front(bytes: &[u8], out: &mut [u8])
    requires { list.length bytes.now ≤ list.length out.old }
    ensures { out.new ≡ bytes.now ++ drop (list.length bytes.now) out.old }
{
    out[..bytes.len()].copy_from_slice(bytes);
}

pub(crate) fn page_into(
    heap: Global,
    input: &[u8],
    output: &mut [u8],
    length: &mut usize,
) -> Result<Reply, Failure>
    ensures { PagedAs input.now (record { bytes = output.old; length = length.old }) (record { bytes = output.new; length = length.new }) result }
{
    let text = answers(heap, input)?;
    let bytes = text.as_bytes();
    *length = bytes.len();
    if output.len() < bytes.len() {
        return Err(Failure::Refused(Refusal::Space));
    }
    write_front(bytes, output);
    Ok(Reply::Done)
}
