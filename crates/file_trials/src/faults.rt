// Each cause at its first place, and where it can stand nowhere later also at its last.
use crate::example::{EXAMPLE, told, told_front};
use refusals::{Cause, Fault, Refusal};
use std::test::Fail;

// The example and one byte more.
const LONGER: [u8; 26] = [
    0x01, 0x00, 0x01, 0x02, 0x02, 0x03, 0x00, 0x01, 0x01, 0xBC, 0x02, 0x00, 0x00, 0x01, 0x02, 0x90,
    0x01, 0x00, 0x00, 0x02, 0x01, 0x8A, 0x02, 0x00, 0x00, 0x00,
];

// What is wrong with the example after a change of one byte.
fn with_byte(at: usize, byte: u8) -> Result<Option<Fault>, Refusal> {
    let mut file = EXAMPLE;
    if let Some(place) = file.get_mut(at) {
        *place = byte;
    }
    told(&file, 2, 2)
}

#[test]
fn cut_off_or_left_over(rt: HostRuntime) -> Result<(), Fail> {
    assert_eq!(rt; told(&EXAMPLE, 2, 2)?, None, "the example");
    assert_eq!(rt;
        told(&[], 2, 2)?,
        Some(Fault::of(Cause::NotWhole, 1, 0, 0)),
        "empty"
    );
    assert_eq!(rt;
        told_front(&EXAMPLE, 24, 2, 2)?,
        Some(Fault::of(Cause::NotWhole, 2, 3, 19)),
        "cut"
    );
    assert_eq!(rt;
        told(&LONGER, 2, 2)?,
        Some(Fault::of(Cause::LeftOver, 0, 0, 25)),
        "one more"
    );
    let none = [1u8, 0, 1, 2, 2, 0, 0, 0];
    assert_eq!(rt; told_front(&none, 7, 2, 2)?, None, "no grade");
    assert_eq!(rt;
        told(&none, 2, 2)?,
        Some(Fault::of(Cause::LeftOver, 0, 0, 7)),
        "first left over"
    );
    Ok(())
}

#[test]
fn counts_kind_and_sizes(rt: HostRuntime) -> Result<(), Fail> {
    assert_eq!(rt;
        with_byte(0, 2)?,
        Some(Fault::of(Cause::Count, 1, 0, 0)),
        "two records"
    );
    assert_eq!(rt;
        with_byte(1, 1)?,
        Some(Fault::of(Cause::Count, 1, 0, 0)),
        "257 records"
    );
    assert_eq!(rt;
        with_byte(6, 13)?,
        Some(Fault::of(Cause::Count, 2, 0, 5)),
        "over 3,072"
    );
    assert_eq!(rt;
        with_byte(2, 2)?,
        Some(Fault::of(Cause::Kind, 1, 1, 2)),
        "ratings"
    );
    assert_eq!(rt;
        with_byte(3, 3)?,
        Some(Fault::of(Cause::Sizes, 1, 1, 2)),
        "three packages"
    );
    assert_eq!(rt;
        with_byte(4, 1)?,
        Some(Fault::of(Cause::Sizes, 1, 1, 2)),
        "one translator"
    );
    Ok(())
}

#[test]
fn first_faults_of_records(rt: HostRuntime) -> Result<(), Fail> {
    assert_eq!(rt;
        with_byte(7, 0)?,
        Some(Fault::of(Cause::Place, 2, 1, 7)),
        "package 0"
    );
    assert_eq!(rt;
        with_byte(8, 3)?,
        Some(Fault::of(Cause::Place, 2, 1, 7)),
        "translator 3"
    );
    assert_eq!(rt;
        with_byte(10, 4)?,
        Some(Fault::of(Cause::Code, 2, 1, 7)),
        "code 1,212"
    );
    assert_eq!(rt;
        with_byte(12, 1)?,
        Some(Fault::of(Cause::Code, 2, 1, 7)),
        "high byte last"
    );
    assert_eq!(rt;
        with_byte(14, 1)?,
        Some(Fault::of(Cause::NotAfter, 2, 2, 13)),
        "same place"
    );
    assert_eq!(rt;
        with_byte(19, 1)?,
        Some(Fault::of(Cause::NotAfter, 2, 3, 19)),
        "back again"
    );
    Ok(())
}
