// A text cut at a byte.
ghost use Rattle.plain_text.specs.Pieces.{pieces, pieces_in};
ghost use Rattle.std.specs.Prelude.{◌≡◌, ◌∷◌};

// The first piece and, where it was cut off, what follows the cut.
pub fn first_piece(bytes: &[u8], cut: u8) -> (&[u8], Option<&[u8]>)
    ensures { pieces cut bytes.now ≡ result.0.now ∷ pieces_in cut result.1 }
{
    match bytes.iter().position(|b| *b == cut) {
        Some(end) => (&bytes[..end], Some(&bytes[end + 1..])),
        None => (bytes, None),
    }
}
