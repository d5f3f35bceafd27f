// Runs a page: reads its lines from standard input and prints an answer to each.
#![tactic(auto)]

use page_runs::{MOST_BYTES, answers};
use std::io::Read;

fn main(rt: HostRuntime) -> anyhow::Result<()> {
    let mut input = Vec::new(rt.alloc());
    // one byte more tells an input that is too long
    rt.stdin()
        .take(MOST_BYTES as u64 + 1)
        .read_to_end(&mut input)?;
    let output = answers(rt.alloc(), &input)?;
    print!(rt; "{output}")?;
    Ok(())
}
