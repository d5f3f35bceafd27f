// The lines of a text, one after the other.
ghost use Rattle.plain_text.specs.Lines.{lines_of, left_of};
ghost use Rattle.std.specs.Iterator.{YieldsFirstRef, item_count};
ghost use Rattle.std.specs.Prelude.{◌≡◌};

use super::pieces::first_piece;

// What is left of a text from a line's beginning on.
#[derive(Drop)]
pub struct Lines<'a> {
    rest: Option<&'a [u8]>,
}

impl<'a> Lines<'a> {
    pub fn new(text: &'a [u8]) -> Lines<'a>
        ensures { left_of result ≡ lines_of text.now }
    {
        Lines { rest: Some(text) }
    }
}

impl<'a> Iterator for Lines<'a> {
    type Item = &'a [u8];

    ghost next_gives = { YieldsFirstRef left_of };

    ghost remaining = { item_count left_of };

    fn next(&mut self) -> Option<&'a [u8]> {
        let (line, after) = first_piece(self.rest?, b'\n');
        self.rest = after.filter(|rest| !rest.is_empty());
        Some(line)
    }
}
