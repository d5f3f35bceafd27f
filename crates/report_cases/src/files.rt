// Worked sheets as files: planned, short and faulty. Where more than one set is right, the line of the
// set is left out.
use plan_report::report;
use std::test::Fail;

#[test]
fn a_plan_and_its_one_tight_set(rt: HostRuntime) -> Result<(), Fail> {
    let file =
        b"\x01\x00\x01\x02\x02\x04\x00\x01\x01\x01\x00\x00\x00\x01\x02\x03\x00\x00\x00\x02\x01\x02\x00\x00\x00\x02\x02\x04\x00\x00\x00";
    let text = report(rt.alloc(), file)?;
    assert_eq!(rt;
        text.as_str(),
        "points, packages 2, translators 2, grades 4\npackage 1: translator 2, 3\npackage 2: translator 1, 2, the lowest\nlowest grade: 2\npackages to work on: 1 2\n"
    );
    Ok(())
}

#[test]
fn every_pair_with_the_lowest_grade_is_marked(rt: HostRuntime) -> Result<(), Fail> {
    let file =
        b"\x01\x00\x01\x02\x02\x04\x00\x01\x01\x04\x00\x00\x00\x01\x02\x03\x00\x00\x00\x02\x01\x08\x00\x00\x00\x02\x02\x04\x00\x00\x00";
    let text = report(rt.alloc(), file)?;
    assert!(rt;
        text.as_str().starts_with(
            "points, packages 2, translators 2, grades 4\npackage 1: translator 1, 4, the lowest\npackage 2: translator 2, 4, the lowest\nlowest grade: 4\npackages to work on: ",
        )
    );
    Ok(())
}

#[test]
fn ratings_are_told_by_class_and_days(rt: HostRuntime) -> Result<(), Fail> {
    let file =
        b"\x01\x00\x02\x02\x02\x04\x00\x01\x01\x01\x00\x00\x00\x01\x02\x02\x0a\x00\x00\x02\x01\x02\x09\x00\x00\x02\x02\x02\x20\x4e\x00";
    let text = report(rt.alloc(), file)?;
    assert!(rt;
        text.as_str().starts_with(
            "ratings, packages 2, translators 2, grades 4\npackage 1: translator 1, class 1, 0 days (code 1)\npackage 2: translator 2, class 2, 20000 days (code 5120002), the lowest\nlowest grade: class 2, 20000 days (code 5120002)\npackages to work on: ",
        )
    );
    Ok(())
}

#[test]
fn too_few_translators(rt: HostRuntime) -> Result<(), Fail> {
    let file =
        b"\x01\x00\x01\x03\x02\x06\x00\x01\x01\xe8\x03\x00\x00\x01\x02\xe8\x03\x00\x00\x02\x01\xe8\x03\x00\x00\x02\x02\xe8\x03\x00\x00\x03\x01\xe8\x03\x00\x00\x03\x02\xe8\x03\x00\x00";
    let text = report(rt.alloc(), file)?;
    assert_eq!(rt;
        text.as_str(),
        "points, packages 3, translators 2, grades 6\nno full plan\npackages in each other's way: 1 2 3\n"
    );
    Ok(())
}

#[test]
fn faults_are_told_in_one_line(rt: HostRuntime) -> Result<(), Fail> {
    let kind = report(
        rt.alloc(),
        b"\x01\x00\x03\x01\x01\x01\x00\x01\x01\x01\x00\x00\x00",
    )?;
    assert_eq!(rt;
        kind.as_str(),
        "fault: the kind is unknown (cause 3, layer sheet, section 1, record 1, offset 2)\n"
    );
    let sizes = report(rt.alloc(), b"\x01\x00\x01\x31\x01\x00\x00")?;
    assert_eq!(rt;
        sizes.as_str(),
        "fault: the sizes are outside the limits (cause 4, layer sheet, section 1, record 1, offset 2)\n"
    );
    Ok(())
}

#[test]
fn two_offices_on_one_file(rt: HostRuntime) -> Result<(), Fail> {
    let file =
        b"\x01\x00\x02\x02\x02\x04\x00\x01\x01\x01\x00\x00\x00\x01\x02\x02\x0a\x00\x00\x02\x01\x02\x09\x00\x00\x02\x02\x02\x20\x4e\x00";
    let text = report(rt.alloc(), file)?;
    let other = report(rt.alloc(), file)?;
    assert_eq!(rt; text.as_str(), other.as_str());
    Ok(())
}
