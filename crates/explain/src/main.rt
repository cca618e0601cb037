// The program for people: reads a file from standard input and prints a line in words for each row and one more after
// a compose; for a file that is not accepted, one line that says which line is at fault and why. Its arguments, in
// either order, are the limit of frames and `wgsl`, for the second pass; each may be left out. Reads no more than one
// byte over the longest file; its buffer for lines has room for any file's (`explained-fits`).
#![tactic(auto)]

use answers::MAX_TEXT_BYTES;
use explain_file::{MAX_EXPLAINED_BYTES, explain_text};
use program_limit::Asked;
use program_limit::arguments::asked;
use program_limit::input::read_full;
use rule_rows::Pass;
use std::io;

fn explain_rows(rt: &impl Print, text: &[u8], limit: u32, pass: Pass) -> io::Result<()> {
    let mut lines = [0u8; MAX_EXPLAINED_BYTES];
    if let Some(n) = explain_text(text, limit, pass, &mut lines) {
        rt.write_all(&lines[..n])?;
    }
    Ok(())
}

fn main(rt: HostRuntime) -> io::Result<()> {
    if let Some(Asked { limit, wgsl }) = asked(&rt)? {
        let pass = if wgsl { Pass::Second } else { Pass::First };
        let mut text = [0u8; MAX_TEXT_BYTES + 1];
        let n = read_full(&mut rt.reader(), &mut text)?;
        explain_rows(&rt, &text[..n], limit, pass)?;
    }
    Ok(())
}
