// Inputs at the limit of their length.
use page_runs::answers;
use std::test::Fail;

#[test]
fn as_long_as_may_be(rt: HostRuntime) -> Result<(), Fail> {
    let input = vec![in rt.alloc(); b'x'; 32_768]?;
    let output = answers(rt.alloc(), &input)?;
    assert_eq!(rt; output.as_str(), "bad line\n");
    Ok(())
}

#[test]
fn one_byte_too_long(rt: HostRuntime) -> Result<(), Fail> {
    let input = vec![in rt.alloc(); b'\n'; 32_769]?;
    let output = answers(rt.alloc(), &input)?;
    assert_eq!(rt; output.as_str(), "too long\n");
    Ok(())
}
