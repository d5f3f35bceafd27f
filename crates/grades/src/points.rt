// Points: the codes 1 to 1,000, of which the larger is above.
ghost use Rattle.grades.specs.Points.{valid_points, above_points};
ghost use Rattle.std.proofs.Common.{rules};

use super::Kind;

const MOST_POINTS: u32 = 1000;

#[derive(Drop)]
pub struct Points;

impl Kind for Points {
    const NUMBER: u8 = 1;

    ghost NUMBER = { 1 };

    ghost valid = { valid_points };

    ghost above = { above_points };

    ghost numbered = { Prim.search rules };

    ghost order = { Prim.search rules };

    fn is_valid(code: u32) -> bool {
        (1..=MOST_POINTS).contains(&code)
    }

    fn is_above(first: u32, second: u32) -> bool {
        Self::is_valid(first) && Self::is_valid(second) && first > second
    }
}
