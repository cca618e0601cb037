// The words that the programs take: a limit of frames in decimal digits, `wgsl` for the second pass, two counts, and a
// row.
#![tactic(auto)]

pub mod arguments;
pub mod counts;
pub mod input;
pub mod rows;

ghost use Rattle.std.specs.Prelude.{◌≡◌, ◌&&◌, ◌≤◌, leb};
ghost use Rattle.program_limit.specs.Word.{is_wgsl, limit_of, word_of, alone, beside_limit, beside_wgsl, asked_by};
ghost use Rattle.program_limit.specs.ForProofs.{next_to};

use answers::MAX_LIMIT;
use text_decode::most;

// What a word says: the limit that holds by a number, `wgsl`, or neither; or there is no word.
#[derive(Clone, Copy)]
pub enum Word {
    Absent,
    Limit(u32),
    Wgsl,
    Neither,
}

// What a program is asked for: the limit that holds, and whether the second pass.
#[derive(Clone, Copy)]
pub struct Asked {
    pub limit: u32,
    pub wgsl: bool,
}

pub fn is_digit(b: u8) -> bool
    ensures { result ≡ (leb 48 b && leb b 57) }
{
    48 <= b && b <= 57
}

// One digit more; a number over 1,024 stays, as it counts as 1,024 whatever follows.
fn next(n: u32, digit: u8) -> u32
    requires { (n ≤ 10249) × (digit ≤ 9) }
    ensures { result ≡ next_to n digit }
{
    if n <= MAX_LIMIT {
        10 * n + digit as u32
    } else {
        n
    }
}

// The limit that a word of decimal digits spells, of any length.
fn limit_of(word: &[u8]) -> Word
    ensures { result ≡ limit_of word.now }
{
    if word.is_empty() {
        return Word::Neither;
    }
    let mut n = 0;
    for b in word {
        if !is_digit(*b) {
            return Word::Neither;
        }
        n = next(n, *b - 48);
    }
    Word::Limit(most(n) as u32)
}

#[tactic(auto, unfolding(crate::specs::Word::is_wgsl))]
fn is_wgsl(word: &[u8]) -> bool
    ensures { result ≡ is_wgsl word.now }
{
    if word.len() != 4 {
        return false;
    }
    (word[0] == 119) & ((word[1] == 103) & ((word[2] == 115) & (word[3] == 108)))
}

// What a word says.
#[tactic(auto, unfolding(crate::specs::Word::word_of))]
pub fn word_of(word: &[u8]) -> Word
    ensures { result ≡ word_of word.now }
{
    if is_wgsl(word) {
        return Word::Wgsl;
    }
    limit_of(word)
}

// What a second word asks for where the first is absent, is a limit, or is `wgsl`.
fn alone(word: Word) -> Option<Asked>
    ensures { result ≡ alone word }
{
    match word {
        Word::Absent => Some(Asked {
            limit: MAX_LIMIT,
            wgsl: false,
        }),
        Word::Limit(limit) => Some(Asked { limit, wgsl: false }),
        Word::Wgsl => Some(Asked {
            limit: MAX_LIMIT,
            wgsl: true,
        }),
        Word::Neither => None,
    }
}

fn beside_limit(limit: u32, word: Word) -> Option<Asked>
    ensures { result ≡ beside_limit limit word }
{
    match word {
        Word::Absent => Some(Asked { limit, wgsl: false }),
        Word::Limit(_) => None,
        Word::Wgsl => Some(Asked { limit, wgsl: true }),
        Word::Neither => None,
    }
}

fn beside_wgsl(word: Word) -> Option<Asked>
    ensures { result ≡ beside_wgsl word }
{
    match word {
        Word::Absent => Some(Asked {
            limit: MAX_LIMIT,
            wgsl: true,
        }),
        Word::Limit(limit) => Some(Asked { limit, wgsl: true }),
        Word::Wgsl => None,
        Word::Neither => None,
    }
}

// What two words ask for, in either order, each at most once; none where they are not taken.
pub fn asked_by(first: Word, second: Word) -> Option<Asked>
    ensures { result ≡ asked_by first second }
{
    match first {
        Word::Absent => alone(second),
        Word::Limit(limit) => beside_limit(limit, second),
        Word::Wgsl => beside_wgsl(second),
        Word::Neither => None,
    }
}
