// A word of two counts, as `3-8`: the least and the greatest count of an override (document 02, request 6).
ghost use Rattle.std.specs.Prelude.{◌≡◌, ◌≢◌, ℕ, ◌<◌, length, slice_index, EachIndex, MatchOption};
ghost use Rattle.program_limit.specs.Counts.{count_of, both_of, counts_of};

use super::is_digit;

// What a word says of an override's counts.
#[derive(Clone, Copy)]
pub struct Counts {
    pub least: u32,
    pub greatest: u32,
}

// The count that a word of decimal digits spells, below 2 to the 32.
pub fn count_of(word: &[u8]) -> Option<u32>
    ensures { result ≡ count_of word.now }
{
    if word.is_empty() {
        return None;
    }
    let mut n = 0u64;
    for b in word {
        if !is_digit(*b) {
            return None;
        }
        n = 10 * n + u64::from(*b - 48);
        if 4294967295 < n {
            return None;
        }
    }
    Some(n as u32)
}

// The first `-`.
fn first_dash(word: &[u8]) -> Option<usize>
    ensures { MatchOption result (EachIndex word.now (λ k. slice_index word.now k ≢ 45))
        (λ i. (i < length word.now) × (slice_index word.now i ≡ 45)
        × ((k : ℕ) → k < i → slice_index word.now k ≢ 45)) }
{
    word.iter().position(|b| *b == b'-')
}

fn both(least: Option<u32>, greatest: Option<u32>) -> Option<Counts>
    ensures { result ≡ both_of least greatest }
{
    let a = least?;
    let b = greatest?;
    Some(Counts {
        least: a,
        greatest: b,
    })
}

// What a word says; none where it is no two counts.
#[tactic(auto, unfolding(crate::specs::Counts::counts_of))]
pub fn counts_of(word: &[u8]) -> Option<Counts>
    ensures { result ≡ counts_of word.now }
{
    let k = first_dash(word)?;
    both(count_of(&word[..k]), count_of(&word[k + 1..]))
}
