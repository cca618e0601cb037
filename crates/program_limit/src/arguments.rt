// The words that a program is started with: a limit of frames in decimal, `wgsl` for the second pass, counts, a row.
use super::counts::{Counts, counts_of};
use super::rows::row_of;
use super::{Asked, Word, asked_by, word_of};
use answers::MAX_LIMIT;
use std::env::FillError;
use std::io;
use std::rt::Env;

// Whether there is an argument i.
pub fn is_given(env: &impl Env, i: usize) -> bool {
    let mut none = [0u8; 0];
    match env.arg(i, &mut none) {
        Ok(_) => true,
        Err(FillError::TooLong) => true,
        Err(FillError::NotPresent) => false,
    }
}

// Argument i, absent where there are fewer. The system hands over no argument longer than this buffer.
pub fn word_at(env: &impl Env, i: usize) -> Word {
    let mut word = [0u8; 131072];
    match env.arg(i, &mut word) {
        Ok(n) => word_of(&word[..n]),
        Err(FillError::TooLong) => Word::Neither,
        Err(FillError::NotPresent) => Word::Absent,
    }
}

// What the arguments ask for: the limit that holds, which is 1,024 where none is handed in, and whether the second
// pass.
// Other arguments, and more than two, are told on standard error, with what is taken.
pub fn asked<R: Env + Eprint>(rt: &R) -> io::Result<Option<Asked>> {
    if !is_given(rt, 3) {
        if let Some(asked) = asked_by(word_at(rt, 1), word_at(rt, 2)) {
            return Ok(Some(asked));
        }
    }
    rt.eprintln(
        "The arguments, in either order, are the limit of frames, a number in decimal (1 to 1024, any other counting \
         as 1024), and wgsl for the second pass.",
    )?;
    Ok(None)
}

// What the listing program is asked for: sizes, or ranges between counts, with the limit that holds.
#[derive(Clone, Copy)]
pub enum Listing {
    Sizes(u32),
    Ranges(u32),
}

// Argument i as two counts.
fn counts_at(env: &impl Env, i: usize) -> Option<Counts> {
    let mut word = [0u8; 131072];
    match env.arg(i, &mut word) {
        Ok(n) => counts_of(&word[..n]),
        Err(_) => None,
    }
}

// The counts of override 0, 1 and so on, by the arguments from `first` on; false where one is no pair of counts, or
// there are more than the tables hold.
fn take_counts(env: &impl Env, first: usize, least: &mut [u32], greatest: &mut [u32]) -> bool {
    for i in first..usize::MAX {
        if !is_given(env, i) {
            return true;
        }
        let k = i - first;
        if least.len() <= k {
            return false;
        }
        if greatest.len() <= k {
            return false;
        }
        match counts_at(env, i) {
            Some(counts) => {
                least[k] = counts.least;
                greatest[k] = counts.greatest;
            }
            None => {
                return false;
            }
        }
    }
    true
}

// What the words ask for: the limit, which is 1,024 where the first word is no number; then least and greatest count
// of each override, as 3-8, into the tables, which stay where there are none. Other words are told on standard error,
// with what is taken.
pub fn asked_listing<R: Env + Eprint>(
    rt: &R,
    least: &mut [u32],
    greatest: &mut [u32],
) -> io::Result<Option<Listing>> {
    let mut limit = MAX_LIMIT;
    let mut first = 1;
    if let Word::Limit(given) = word_at(rt, 1) {
        limit = given;
        first = 2;
    }
    if !is_given(rt, first) {
        return Ok(Some(Listing::Sizes(limit)));
    }
    if take_counts(rt, first, least, greatest) {
        return Ok(Some(Listing::Ranges(limit)));
    }
    rt.eprintln(
        "The arguments are the limit of frames, a number in decimal (1 to 1024, any other counting as 1024), which \
         may be left out, and the least and greatest count of each override in order, as 3-8.",
    )?;
    Ok(None)
}

// What the cutting program is asked for: a row, and the limit that holds.
#[derive(Clone, Copy)]
pub struct Cutting {
    pub row: u16,
    pub limit: u32,
}

// Argument i as a row.
fn row_at(env: &impl Env, i: usize) -> Option<u16> {
    let mut word = [0u8; 131072];
    match env.arg(i, &mut word) {
        Ok(n) => row_of(&word[..n]),
        Err(_) => None,
    }
}

// What the words ask for: the row, and the limit, which is 1,024 where there is one word. Other words are told on
// standard error, with what is taken.
pub fn asked_cutting<R: Env + Eprint>(rt: &R) -> io::Result<Option<Cutting>> {
    if !is_given(rt, 3) {
        if let Some(row) = row_at(rt, 1) {
            if let Word::Absent = word_at(rt, 2) {
                return Ok(Some(Cutting {
                    row,
                    limit: MAX_LIMIT,
                }));
            }
            if let Word::Limit(limit) = word_at(rt, 2) {
                return Ok(Some(Cutting { row, limit }));
            }
        }
    }
    rt.eprintln(
        "The arguments are the row, a number in decimal, counted from 0, and the limit of frames, a number in \
         decimal (1 to 1024, any other counting as 1024), which may be left out.",
    )?;
    Ok(None)
}
