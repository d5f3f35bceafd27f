// Reads the sizes of a book and the points of translators for packages from standard input, and
// prints for each package its translators from the highest grade down.
#![tactic(auto)]

mod input;
mod output;
mod problem;

use anyhow::ensure;
use books::Reading;
use input::read_book;
use output::print_package;
use problem::Problem;
use std::io::Read;
use std::process::ExitCode;

const MOST_BYTES: u64 = 65_536;

fn run(rt: &HostRuntime) -> anyhow::Result<()> {
    let mut text = Vec::new(rt.alloc());
    rt.stdin().take(MOST_BYTES + 1).read_to_end(&mut text)?;
    ensure!(text.len() as u64 <= MOST_BYTES, Problem::TooLong);
    let book = read_book(&text)?;
    for pkg in 1..=u32::from(book.packages()) {
        print_package(rt, &book, pkg)?;
    }
    Ok(())
}

// A problem is one line on standard error, and the status is then 1.
fn main(rt: HostRuntime) -> ExitCode {
    match run(&rt) {
        Ok(()) => ExitCode::SUCCESS,
        Err(problem) => {
            let _ = eprintln!(rt; "{problem}");
            ExitCode::FAILURE
        }
    }
}
