// The slip that the program holds.
use page_runs::answers;
use std::test::Fail;

// The form of a line is looked at before the slip, and the slip before the role.
#[test]
fn no_slip(rt: HostRuntime) -> Result<(), Fail> {
    let input = b"open 1 1\npublish 3\nwithdraw 9\npublish\nwithdraw 2 2\n";
    let output = answers(rt.alloc(), input)?;
    assert_eq!(rt;
        output.as_str(),
        "ok\nno slip\nno slip\nbad line\nbad line\n"
    );
    Ok(())
}

#[test]
fn a_slip_left_is_withdrawn(rt: HostRuntime) -> Result<(), Fail> {
    let input = b"open 1 1\ngrade 3 1 1 5\ndraw 3\ndraw 3\npublish 2\n";
    let output = answers(rt.alloc(), input)?;
    assert_eq!(rt;
        output.as_str(),
        "ok\nok\ndrawn 5 1\nrefused 3\nrefused 2\nwithdrawn\n"
    );
    Ok(())
}

#[test]
fn a_withdrawn_plan_is_not_published(rt: HostRuntime) -> Result<(), Fail> {
    let input = b"open 1 1\ngrade 3 1 1 5\ndraw 2\nwithdraw 2\nshow 1\nwithdraw 2\n";
    let output = answers(rt.alloc(), input)?;
    assert_eq!(rt;
        output.as_str(),
        "ok\nok\ndrawn 5 1\nok\nrefused 8\nno slip\n"
    );
    Ok(())
}

#[test]
fn a_published_plan_stays_when_grades_change(rt: HostRuntime) -> Result<(), Fail> {
    let input = b"open 1 2\ngrade 3 1 2 5\ndraw 2\npublish 3\nstrike 3 1 2\nshow 1\n";
    let output = answers(rt.alloc(), input)?;
    assert_eq!(rt; output.as_str(), "ok\nok\ndrawn 5 2\nok\nok\nshown 5 2\n");
    Ok(())
}
