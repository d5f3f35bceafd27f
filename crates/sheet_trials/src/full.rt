// Reasons that meet on a sheet over a list book at its limit, and files that are too long for it.
use super::on_pages::{Trial, run_trials, tried};
use super::opened::opened;
use books::{Book, Sizes};
use grades::Points;
use list_book::ListBook;
use refusals::Refusal;
use sheet::{Ask, Sheet};
use std::test::Fail;
use table_book::TableBook;

// Grades `count` pairs, each package for translators from its own number on.
fn graded<B: Book>(sheet: &mut Sheet<B, Points>, count: u32) -> Result<(), Refusal> {
    for k in 0..count {
        sheet.grade(2, k % 48 + 1, (k % 48 + k / 48) % 64 + 1, 10)?;
    }
    Ok(())
}

fn new_pair(role: u32, code: u32) -> Ask {
    Ask::Grade {
        role,
        pkg: 48,
        translator: 40,
        code,
    }
}

fn trials() -> [Trial; 21] {
    [
        tried(new_pair(1, 5), 0, 2),
        tried(new_pair(2, 0), 0, 7),
        tried(new_pair(2, 5), 0, 11),
        tried(
            Ask::Grade {
                role: 2,
                pkg: 49,
                translator: 1,
                code: 5,
            },
            0,
            6,
        ),
        tried(Ask::Load { role: 2, file: () }, 0, 2),
        tried(Ask::Load { role: 3, file: () }, 0, 5),
        tried(Ask::Draw { role: 2 }, 48, 101),
        tried(new_pair(2, 5), 0, 3),
        tried(new_pair(2, 0), 0, 3),
        tried(
            Ask::Grade {
                role: 2,
                pkg: 49,
                translator: 1,
                code: 5,
            },
            0,
            3,
        ),
        tried(
            Ask::Strike {
                role: 3,
                pkg: 48,
                translator: 40,
            },
            0,
            3,
        ),
        tried(
            Ask::Strike {
                role: 2,
                pkg: 49,
                translator: 64,
            },
            0,
            2,
        ),
        tried(Ask::Load { role: 2, file: () }, 0, 2),
        tried(Ask::Load { role: 3, file: () }, 0, 3),
        tried(Ask::Draw { role: 1 }, 0, 2),
        tried(Ask::Draw { role: 3 }, 47, 3),
        tried(Ask::Publish { role: 2, slip: 9 }, 0, 2),
        tried(Ask::Withdraw { role: 1, slip: 1 }, 0, 2),
        tried(Ask::Withdraw { role: 1, slip: 9 }, 0, 2),
        tried(Ask::Show { role: 4 }, 0, 2),
        tried(Ask::Withdraw { role: 2, slip: 1 }, 0, 100),
    ]
}

#[test]
fn reasons_that_meet_when_full(rt: HostRuntime) -> Result<(), Fail> {
    let mut sheet = opened::<_, Points>(ListBook::new(Sizes::check(48, 64)?), 1)?;
    graded(&mut sheet, 1024)?;
    run_trials(&rt, rt.alloc(), &mut sheet, &trials())
}

#[test]
fn a_file_over_the_limit(rt: HostRuntime) -> Result<(), Fail> {
    let mut large = opened::<_, Points>(TableBook::new(Sizes::check(48, 64)?), 1)?;
    graded(&mut large, 1025)?;
    let mut file = vec![in rt.alloc(); 0u8; 6157]?;
    assert_eq!(rt;
        large.save(0, &mut []),
        Err(Refusal::Role),
        "the role before the room"
    );
    assert_eq!(rt; large.save(1, &mut []), Err(Refusal::Space));
    assert_eq!(rt;
        large.save(1, &mut file),
        Ok(6157),
        "seven bytes, and six for each grade"
    );
    let mut sheet = opened::<_, Points>(ListBook::new(Sizes::check(48, 64)?), 1)?;
    assert_eq!(rt; sheet.load(3, &file), Err(Refusal::Full));
    assert!(rt; file.len() > 6156);
    file[6156] = 1;
    assert_eq!(rt;
        sheet.load(3, &file).map_err(|refusal| refusal.number()),
        Err(10),
        "the fault before the limit"
    );
    Ok(())
}
