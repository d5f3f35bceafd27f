// Reads a saved file from standard input and prints the plan for it as a manager reads it, or what is
// wrong with the file.
#![tactic(auto)]

use plan_report::report;
use saved_file::ONE_BYTE_TOO_MANY;
use std::io;
use std::io::Read;

// It reads as `inspect` does: three lines that a crate of their own would not make plainer.
fn main(rt: HostRuntime) -> io::Result<()> {
    let mut file = Vec::new(rt.alloc());
    rt.stdin().take(ONE_BYTE_TOO_MANY).read_to_end(&mut file)?;
    let text = report(rt.alloc(), &file)?;
    print!(rt; "{text}")
}
