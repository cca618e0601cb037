// What the listing program does: it reads a file from standard input and prints a line for each of its types, with its
// spelling, alignment and size in bytes, or number 42, 43 or 44 in words; for a file that is not accepted, one line
// that says which line is at fault and why. Its first argument is the limit of frames, and may be left out. Further
// ones are the least and greatest count of each override in order, as 3-8; then a line has the least and the greatest
// size, or there is one line for number 45. Reads no more than one byte over the longest file; its buffer for lines has
// room for any file's (`sized-fits`, `ranged-fits`).
#![tactic(auto)]

use answers::MAX_TEXT_BYTES;
use explain_file::{MAX_SIZED_BYTES, ranges_text, sizes_text};
use program_limit::arguments::{Listing, asked_listing};
use program_limit::input::read_full;
use std::io;
use std::rt::Env;

fn list_sizes(rt: &impl Print, text: &[u8], limit: u32) -> io::Result<()> {
    let mut lines = [0u8; MAX_SIZED_BYTES];
    if let Some(n) = sizes_text(text, limit, &mut lines) {
        rt.write_all(&lines[..n])?;
    }
    Ok(())
}

fn list_ranges(
    rt: &impl Print,
    text: &[u8],
    limit: u32,
    least: &[u32],
    greatest: &[u32],
) -> io::Result<()> {
    let mut lines = [0u8; MAX_SIZED_BYTES];
    if let Some(n) = ranges_text(text, limit, least, greatest, &mut lines) {
        rt.write_all(&lines[..n])?;
    }
    Ok(())
}

// The whole program.
pub fn list_file<R: Env + Input + Print + Eprint>(rt: &R) -> io::Result<()> {
    let mut least = [0u32; 1024];
    let mut greatest = [0u32; 1024];
    if let Some(listing) = asked_listing(rt, &mut least, &mut greatest)? {
        let mut text = [0u8; MAX_TEXT_BYTES + 1];
        let n = read_full(&mut rt.reader(), &mut text)?;
        match listing {
            Listing::Sizes(limit) => list_sizes(rt, &text[..n], limit)?,
            Listing::Ranges(limit) => list_ranges(rt, &text[..n], limit, &least, &greatest)?,
        }
    }
    Ok(())
}
