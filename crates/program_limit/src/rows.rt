// A word that is a row's number.
ghost use Rattle.std.specs.Prelude.{◌≡◌, min};
ghost use Rattle.program_limit.specs.Rows.{of_long, row_of};

use super::counts::count_of;
use super::{Word, word_of};

fn row_number(n: u32) -> u16
    ensures { result ≡ min n 65535 }
{
    if n < 65535 { n as u16 } else { 65535 }
}

// Of a word that spells no count.
fn long_row(word: Word) -> Option<u16>
    ensures { result ≡ of_long word }
{
    match word {
        Word::Limit(_) => Some(65535),
        Word::Absent => None,
        Word::Wgsl => None,
        Word::Neither => None,
    }
}

// What a word says.
#[tactic(auto, unfolding(crate::specs::Rows::row_of))]
pub fn row_of(word: &[u8]) -> Option<u16>
    ensures { result ≡ row_of word.now }
{
    match count_of(word) {
        Some(n) => Some(row_number(n)),
        None => long_row(word_of(word)),
    }
}
