// Ratings: the code is class + 256 × days of practice. The smaller class is above, and within a
// class more days are.
ghost use Rattle.grades.specs.Ratings.{rating_of, valid_rating, above_rating};
ghost use Rattle.std.specs.Prelude.{◌≡◌};
ghost use Rattle.std.proofs.Common.{rules};

use super::Kind;
use std::cmp::Reverse;

const MOST_DAYS: u32 = 20_000;

#[derive(Drop)]
pub struct Ratings;

// What a valid code says.
#[derive(Clone, Copy)]
struct Rating {
    class: u32,
    days: u32,
}

// The one decision that validity and order both rest on.
fn read_rating(code: u32) -> Option<Rating>
    ensures { result ≡ rating_of code }
{
    let class = code % 256;
    let days = code / 256;
    match class {
        1..=4 if days <= MOST_DAYS => Some(Rating { class, days }),
        _ => None,
    }
}

impl Kind for Ratings {
    const NUMBER: u8 = 2;

    ghost NUMBER = { 2 };

    ghost valid = { valid_rating };

    ghost above = { above_rating };

    ghost numbered = { Prim.search rules };

    ghost order = { Prim.search rules };

    fn is_valid(code: u32) -> bool {
        read_rating(code).is_some()
    }

    fn is_above(first: u32, second: u32) -> bool {
        match (read_rating(first), read_rating(second)) {
            (Some(a), Some(b)) => (a.class, Reverse(a.days)) < (b.class, Reverse(b.days)),
            _ => false,
        }
    }
}
