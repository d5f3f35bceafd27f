// Numbers of 1 to 9 digits, and rows of them with one space between.
ghost use Rattle.plain_text.specs.Numbers.{numeral_of, numerals, exactly};
ghost use Rattle.plain_text.specs.Pieces.{pieces_in};
ghost use Rattle.std.specs.Prelude.{◌≡◌};

use super::pieces::first_piece;

const MOST_DIGITS: usize = 9;

pub fn numeral(digits: &[u8]) -> Option<u32>
    ensures { result ≡ numeral_of digits.now }
{
    if !(1..=MOST_DIGITS).contains(&digits.len()) {
        return None;
    }
    // one pass: `from_utf8` and `parse` would go over the digits twice more
    let mut value = 0;
    for digit in digits {
        if !digit.is_ascii_digit() {
            return None;
        }
        value = 10 * value + u32::from(*digit - b'0');
    }
    Some(value)
}

// The N numbers that the words are, or none where they are no numbers, fewer or more.
pub fn numbers<const N: usize>(words: Option<&[u8]>) -> Option<[u32; N]>
    ensures { result ≡ exactly N (numerals (pieces_in 32 words.entry)) }
{
    let mut rest = words;
    let mut found = [0; N];
    for number in &mut found {
        let (digits, after) = first_piece(rest?, b' ');
        *number = numeral(digits)?;
        rest = after;
    }
    match rest {
        None => Some(found),
        Some(_) => None,
    }
}
