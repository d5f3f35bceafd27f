// Reads a saved file from standard input and prints its kind, its sizes and its grades, or what is
// wrong with it and where.
#![tactic(auto)]

use file_format::Summary;
use saved_file::{CheckedFile, ONE_BYTE_TOO_MANY, check_by_itself};
use std::io;
use std::io::Read;

fn main(rt: HostRuntime) -> io::Result<()> {
    let mut file = Vec::new(rt.alloc());
    rt.stdin().take(ONE_BYTE_TOO_MANY).read_to_end(&mut file)?;
    match check_by_itself(&file) {
        Ok(checked) => print_file(&rt, &checked),
        Err(fault) => println!(rt; "{fault}"),
    }
}

// A line for the kind and the sizes, and one for each grade.
fn print_file(rt: &HostRuntime, file: &CheckedFile<'_>) -> io::Result<()> {
    let grades = file.count();
    if let Some(sheet) = file.sheet_record() {
        println!(rt; "{}", Summary { sheet, grades })?;
    }
    for found in file.records() {
        println!(rt; "{found}")?;
    }
    Ok(())
}
