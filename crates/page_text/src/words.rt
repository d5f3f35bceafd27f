// From a line to the command that it says.
ghost use Rattle.page_text.specs.Commands.{said_by, said_of, said_or, said_with};
ghost use Rattle.plain_text.specs.Numbers.{numerals};
ghost use Rattle.plain_text.specs.Pieces.{pieces_in};
ghost use Rattle.std.specs.Prelude.{◌≡◌};

use super::Command;
use plain_text::{first_piece, numbers};

// A known word with other numbers than its own says nothing that is known.
pub fn parse(line: &[u8]) -> Command<'_>
    ensures { said_of result ≡ said_by line.now }
{
    let (word, after) = first_piece(line, b' ');
    known(word, after).unwrap_or(Command::Unknown(word))
}

// What a known word says with its numbers.
fn known<'a>(word: &[u8], after: Option<&[u8]>) -> Option<Command<'a>>
    ensures { said_or word.now result ≡ said_with word.now (numerals (pieces_in 32 after.entry)) }
{
    match word {
        b"open" => {
            let [packages, translators] = numbers::<2>(after)?;
            Some(Command::Open {
                packages,
                translators,
            })
        }
        b"grade" => {
            let [role, pkg, translator, code] = numbers::<4>(after)?;
            Some(Command::Grade {
                role,
                pkg,
                translator,
                code,
            })
        }
        b"strike" => {
            let [role, pkg, translator] = numbers::<3>(after)?;
            Some(Command::Strike {
                role,
                pkg,
                translator,
            })
        }
        b"draw" => {
            let [role] = numbers::<1>(after)?;
            Some(Command::Draw { role })
        }
        b"publish" => {
            let [role] = numbers::<1>(after)?;
            Some(Command::Publish { role })
        }
        b"withdraw" => {
            let [role] = numbers::<1>(after)?;
            Some(Command::Withdraw { role })
        }
        b"show" => {
            let [role] = numbers::<1>(after)?;
            Some(Command::Show { role })
        }
        _ => None,
    }
}
