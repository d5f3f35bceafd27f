// Kinds of grade: which 32-bit codes are grades, and which of two grades is above the other.
#![tactic(auto)]

ghost use Rattle.std.specs.Prelude.{◌≡◌, ℕ, ◌≤◌, Bool};
ghost use Rattle.grades.specs.Order.{Order};

mod kind_name;
mod points;
mod ratings;

pub use kind_name::{KindName, UnknownKind};
pub use points::Points;
pub use ratings::Ratings;

// A kind of grade. Its meaning is a number, the codes that are valid, and an order of these.
pub trait Kind {
    const NUMBER: u8;

    ghost NUMBER: { ℕ };

    ghost valid: { ℕ → Bool };

    // of two valid codes; what it says of any other code is the kind's own affair
    ghost above: { ℕ → ℕ → Bool };

    fn is_valid(code: u32) -> bool
        ensures { result ≡ valid code };

    fn is_above(first: u32, second: u32) -> bool
        ensures { result ≡ above first second };

    ghost numbered: { (1 ≤ NUMBER) × (NUMBER ≤ 255) };

    ghost order: { Order valid above };
}
