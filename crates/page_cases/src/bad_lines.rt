// Bad lines, refusals and the worked example.
use page_runs::answers;
use std::test::Fail;

#[test]
fn the_worked_example(rt: HostRuntime) -> Result<(), Fail> {
    let input =
        b"open 2 2\ngrade 2 1 1 700\ngrade 2 1 2 400\ndraw 2\ngrade 2 2 1 650\ndraw 2\npublish 2\npublish 3\nshow 1\n";
    let output = answers(rt.alloc(), input)?;
    assert_eq!(rt;
        output.as_str(),
        "ok\nok\nok\nshort\nok\ndrawn 400 2 1\nrefused 2\nok\nshown 400 2 1\n"
    );
    Ok(())
}

#[test]
fn a_last_line_needs_no_end(rt: HostRuntime) -> Result<(), Fail> {
    let output = answers(rt.alloc(), b"open 1 1\nshow 1")?;
    assert_eq!(rt; output.as_str(), "ok\nrefused 8\n");
    Ok(())
}

#[test]
fn an_empty_input_is_a_bad_line(rt: HostRuntime) -> Result<(), Fail> {
    let output = answers(rt.alloc(), b"")?;
    assert_eq!(rt; output.as_str(), "bad line\n");
    Ok(())
}

#[test]
fn a_bad_first_line_ends_the_run(rt: HostRuntime) -> Result<(), Fail> {
    let output = answers(rt.alloc(), b"draw 2\nopen 1 1\nshow 1\n")?;
    assert_eq!(rt; output.as_str(), "bad line\n");
    Ok(())
}

#[test]
fn refused_sizes_end_the_run(rt: HostRuntime) -> Result<(), Fail> {
    let output = answers(rt.alloc(), b"open 256 2\nopen 1 1\n")?;
    assert_eq!(rt; output.as_str(), "refused 1\n");
    Ok(())
}

#[test]
fn numbers_are_not_cut_off(rt: HostRuntime) -> Result<(), Fail> {
    let input = b"open 2 2\ngrade 258 1 1 5\ngrade 2 257 1 5\ngrade 002 1 1 000000005\n";
    let output = answers(rt.alloc(), input)?;
    assert_eq!(rt; output.as_str(), "ok\nrefused 2\nrefused 6\nok\n");
    Ok(())
}

// An unknown word, too few and too many numbers, an empty line, a space too many, another blank,
// ten digits, no digits, a large letter, a later open, load and save.
#[test]
fn every_kind_of_bad_line(rt: HostRuntime) -> Result<(), Fail> {
    let input =
        b"open 1 1\ndrew 2\ngrade 2 1 1\ndraw 2 2\n\ndraw  2\ndraw 2 \n draw 2\ndraw\t2\ndraw 2\r\ndraw 0000000002\ndraw x\nDraw 2\nopen 1 1\nload 3\nsave 1\ndraw 2\n";
    let output = answers(rt.alloc(), input)?;
    assert_eq!(rt;
        output.as_str(),
        "ok\nbad line\nbad line\nbad line\nbad line\nbad line\nbad line\nbad line\nbad line\nbad line\nbad line\nbad line\nbad line\nbad line\nbad line\nbad line\nshort\n"
    );
    Ok(())
}
