// Reasons that meet in one line of a page, with a slip out and without.
use super::opened::opened;
use books::{Book, Sizes};
use grades::Points;
use sheet::{Ask, Entry, Outcome, Reply, Sheet, run_page};
use std::alloc::{AllocError, Global};
use std::process::Abort;
use std::test::Fail;
use table_book::TableBook;

// A line with buffers of this length.
fn line(heap: Global, ask: Ask, places: usize) -> Result<Entry, AllocError> {
    Ok(Entry {
        ask,
        file: Vec::new(heap),
        plan: vec![in heap; 9u16; places]?,
        set: vec![in heap; 9u8; places]?,
        reply: Reply {
            outcome: Outcome::Done,
            slip: None,
        },
    })
}

// The number of a refusal, or 100 and more for a line that is not refused.
fn number(reply: Reply) -> u32 {
    match reply.outcome {
        Outcome::Done => 100,
        Outcome::Drawn(_) => 101,
        Outcome::Short => 102,
        Outcome::Shown(_) => 103,
        Outcome::Refused(refusal) => u32::from(refusal.number()),
    }
}

// A call, how long its buffers are, and the number that it must be answered with: a number, so that a
// row reads as the rules do.
#[derive(Clone, Copy)]
pub struct Trial {
    ask: Ask,
    places: usize,
    number: u32,
}

pub const fn tried(ask: Ask, places: usize, number: u32) -> Trial {
    Trial {
        ask,
        places,
        number,
    }
}

const GRADE: Ask = Ask::Grade {
    role: 2,
    pkg: 1,
    translator: 1,
    code: 700,
};

// On a sheet of one package and two translators, with tag 1.
fn trials() -> [Trial; 18] {
    [
        tried(Ask::Show { role: 1 }, 0, 8),
        tried(Ask::Show { role: 0 }, 0, 2),
        tried(Ask::Draw { role: 2 }, 0, 9),
        tried(Ask::Draw { role: 2 }, 3, 102),
        tried(Ask::Publish { role: 2, slip: 1 }, 0, 2),
        tried(Ask::Publish { role: 3, slip: 1 }, 0, 4),
        tried(GRADE, 0, 100),
        tried(Ask::Load { role: 3, file: () }, 0, 5),
        tried(Ask::Draw { role: 3 }, 1, 101),
        tried(Ask::Draw { role: 2 }, 0, 3),
        tried(GRADE, 0, 3),
        tried(Ask::Load { role: 3, file: () }, 0, 3),
        tried(Ask::Publish { role: 3, slip: 2 }, 0, 4),
        tried(Ask::Show { role: 1 }, 0, 8),
        tried(Ask::Publish { role: 3, slip: 1 }, 0, 100),
        tried(Ask::Withdraw { role: 2, slip: 1 }, 0, 4),
        tried(Ask::Show { role: 1 }, 0, 9),
        tried(Ask::Show { role: 1 }, 2, 103),
    ]
}

// Runs the trials as one page, and holds each answer to its number.
pub fn run_trials<B: Book>(
    rt: &impl Abort,
    heap: Global,
    sheet: &mut Sheet<B, Points>,
    trials: &[Trial],
) -> Result<(), Fail> {
    let mut page = Vec::new(heap);
    for t in trials {
        page.push(line(heap, t.ask, t.places)?)?;
    }
    run_page(sheet, &mut page);
    for (t, e) in trials.iter().zip(&page) {
        assert_eq!(rt; number(e.reply), t.number);
    }
    Ok(())
}

#[test]
fn reasons_that_meet_on_a_page(rt: HostRuntime) -> Result<(), Fail> {
    let mut sheet = opened(TableBook::new(Sizes::check(1, 2)?), 1)?;
    run_trials(&rt, rt.alloc(), &mut sheet, &trials())
}
