// The typing program: reads a file from standard input and prints what typing it hands back, a line for each row and
// one more after a compose; for a file that is not accepted, one line with its number and place. Its arguments, in
// either order, are the limit of frames and `wgsl`, for the second pass; each may be left out. Reads no more than one
// byte over the longest file; its buffer for lines has room for any file's.
#![tactic(auto)]

use answers::{MAX_LINE_BYTES, MAX_TEXT_BYTES};
use file_lines::type_text;
use program_limit::Asked;
use program_limit::arguments::asked;
use program_limit::input::read_full;
use rule_rows::Pass;
use std::io;

fn print_types(rt: &impl Print, text: &[u8], limit: u32, pass: Pass) -> io::Result<()> {
    let mut lines = [0u8; MAX_LINE_BYTES];
    if let Some(n) = type_text(text, limit, pass, &mut lines) {
        rt.write_all(&lines[..n])?;
    }
    Ok(())
}

fn main(rt: HostRuntime) -> io::Result<()> {
    if let Some(Asked { limit, wgsl }) = asked(&rt)? {
        let pass = if wgsl { Pass::Second } else { Pass::First };
        let mut text = [0u8; MAX_TEXT_BYTES + 1];
        let n = read_full(&mut rt.reader(), &mut text)?;
        print_types(&rt, &text[..n], limit, pass)?;
    }
    Ok(())
}
