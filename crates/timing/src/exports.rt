// The calls for C and Rust: 0 for a plan, 100 for none, else the number of the refusal.
ghost use Rattle.books.specs.Meaning.{Blank, Empty};
ghost use Rattle.books.specs.declared.sizes.Sizes.{Sizes};
ghost use Rattle.timing.specs.Timed.{DrawnAs, Timed, lowest_after, reason, reason_in_book, reason_in_kind, told};
ghost use Rattle.timing.specs.Timed.{above_in, valid_in};
ghost use Rattle.std.specs.Prelude.{◌≡◌};

use super::filling::fill;
use super::plan_again;
use books::{Book, Reading, Sizes};
use grades::{Kind, KindName, Points, Ratings};
use list_book::ListBook;
use matching::Planned;
use refusals::Refusal;
use table_book::TableBook;

const SHORT: u32 = 100;

// Numbers, since C calls this; `exports` has its own, and neither crate rests on the other.
fn tell(answer: Result<Option<Planned>, Refusal>, lowest: &mut u32) -> u32
    ensures number { result ≡ told answer }
    ensures lowest { lowest.new ≡ lowest_after answer lowest.old }
{
    match answer {
        Ok(Some(planned)) => {
            *lowest = planned.lowest;
            0
        }
        Ok(None) => SHORT,
        Err(refusal) => u32::from(refusal.number()),
    }
}

// The buffers stay apart: C lends each by itself, and clauses name what each held and holds.
fn plan_in_kind<B: Book, K: Kind>(
    book: &mut B,
    codes: &[u32],
    repeats: u32,
    plan: &mut [u16],
    set: &mut [u8],
) -> Result<Option<Planned>, Refusal>
    requires { Empty (B.Reading.meaning book.old) }
    ensures { DrawnAs K.valid K.above (reason_in_book B.LIMIT (B.Reading.meaning book.old).packages (B.Reading.meaning book.old).translators codes.now plan.old set.old) (B.Reading.meaning book.old).packages (B.Reading.meaning book.old).translators codes.now plan.old set.old plan.new set.new result }
{
    fill(book, codes)?;
    plan_again::<B, K>(book, repeats, plan, set)
}

fn plan_of<B: Book>(
    book: &mut B,
    kind: u32,
    codes: &[u32],
    repeats: u32,
    plan: &mut [u16],
    set: &mut [u8],
) -> Result<Option<Planned>, Refusal>
    requires { Empty (B.Reading.meaning book.old) }
    ensures { DrawnAs (valid_in kind) (above_in kind) (reason_in_kind B.LIMIT kind (B.Reading.meaning book.old).packages (B.Reading.meaning book.old).translators codes.now plan.old set.old) (B.Reading.meaning book.old).packages (B.Reading.meaning book.old).translators codes.now plan.old set.old plan.new set.new result }
{
    // here a kind as a value becomes a type; a function passed in its place could not be generic
    match KindName::try_from(kind).map_err(|_| Refusal::Grade)? {
        KindName::Points => plan_in_kind::<B, Points>(book, codes, repeats, plan, set),
        KindName::Ratings => plan_in_kind::<B, Ratings>(book, codes, repeats, plan, set),
    }
}

// Over an empty book of these sizes, which is made here.
fn plan_over<B: Book + Drop, F: FnOnce(Sizes) -> B>(
    make: F,
    kind: u32,
    packages: u32,
    translators: u32,
    codes: &[u32],
    repeats: u32,
    plan: &mut [u16],
    set: &mut [u8],
) -> Result<Option<Planned>, Refusal>
    requires callable { F.IsAlwaysCallable make }
    requires blank { (sizes : Sizes) (book : B) → F.post make sizes book → Blank sizes.packages sizes.translators (B.Reading.meaning book) }
    ensures { DrawnAs (valid_in kind) (above_in kind) (reason B.LIMIT kind packages translators codes.now plan.old set.old) packages translators codes.now plan.old set.old plan.new set.new result }
{
    let mut book = make(Sizes::check(packages, translators)?);
    plan_of(&mut book, kind, codes, repeats, plan, set)
}

// Kind 1 is points and 2 ratings; any other is answered with 7.
#[unsafe(no_mangle)]
pub extern "C" fn timing_table_plan(
    kind: u32,
    packages: u32,
    translators: u32,
    codes: &[u32],
    repeats: u32,
    plan: &mut [u16],
    set: &mut [u8],
    lowest: &mut u32,
) -> u32
    ensures { Timed kind (reason 3072 kind packages translators codes.now plan.old set.old) packages translators codes.now plan.old set.old lowest.old plan.new set.new lowest.new result }
{
    let answer = plan_over(
        TableBook::new,
        kind,
        packages,
        translators,
        codes,
        repeats,
        plan,
        set,
    );
    tell(answer, lowest)
}

#[unsafe(no_mangle)]
pub extern "C" fn timing_list_plan(
    kind: u32,
    packages: u32,
    translators: u32,
    codes: &[u32],
    repeats: u32,
    plan: &mut [u16],
    set: &mut [u8],
    lowest: &mut u32,
) -> u32
    ensures { Timed kind (reason 1024 kind packages translators codes.now plan.old set.old) packages translators codes.now plan.old set.old lowest.old plan.new set.new lowest.new result }
{
    let answer = plan_over(
        ListBook::new,
        kind,
        packages,
        translators,
        codes,
        repeats,
        plan,
        set,
    );
    tell(answer, lowest)
}
