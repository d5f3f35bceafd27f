// A book: what keeps the grades of pairs and can be changed pair by pair.
ghost use Rattle.std.specs.Prelude.{◌≡◌, ℕ, ◌≤◌};
ghost use Rattle.books.specs.Changes.{put_answer, put_after, take_answer, take_after};

use super::Reading;
use refusals::Refusal;

// Anything that keeps these rules is a book. Its meaning is that of its reading.
pub trait Book: Reading {
    const LIMIT: u16;

    ghost LIMIT: { ℕ };

    // Gives a pair a code, in place of any that it had.
    fn put(&mut self, pkg: u32, translator: u32, code: u32) -> Result<(), Refusal>
        ensures answer { result ≡ put_answer LIMIT (Self.Reading.meaning self.old) pkg translator code }
        ensures after { Self.Reading.meaning self.new ≡ put_after LIMIT (Self.Reading.meaning self.old) pkg translator code };

    // Removes the code of a pair.
    fn take(&mut self, pkg: u32, translator: u32) -> Result<(), Refusal>
        ensures answer { result ≡ take_answer (Self.Reading.meaning self.old) pkg translator }
        ensures after { Self.Reading.meaning self.new ≡ take_after (Self.Reading.meaning self.old) pkg translator };

    ghost limited: { (64 ≤ LIMIT) × (LIMIT ≤ 3072) };
}
