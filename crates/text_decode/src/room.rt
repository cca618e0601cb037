// A lent buffer too small that takes neither frames nor answers: number 3, unless the text has number 1 or 2.
ghost use Rattle.std.specs.Prelude.{◌≡◌};
ghost use Rattle.text.specs.Room.{or_short, short_read};

use super::read_text;
use answers::{FileError, Outcome};
use text::AnswerRoom;

// Number 1 or 2, else 3.
fn or_short(o: Outcome) -> FileError
    ensures { result ≡ or_short o }
{
    match o {
        Err(FileError::Long { limit }) => FileError::Long { limit },
        Err(FileError::Torn { line }) => FileError::Torn { line },
        _ => FileError::Short,
    }
}

// Why reading refuses the text then: numbers 1 and 2 are the text's whatever is lent, so nothing is lent here.
#[tactic(auto, unfolding(text::specs::Room::short_read))]
pub fn short_read(text: &[u8], limit: u32) -> FileError
    ensures { result ≡ short_read limit text.now }
{
    let mut none = [0u8; 0];
    or_short(read_text(text, limit, &mut none, AnswerRoom::NotLent))
}
