// Replays the file `cases`: prints for each case its first line, what typing its text writes, and for each of its pairs
// of frames whether they are the same type. oracle/store.py writes the cases and what must be printed.
//
// A case begins with a line of 59 bytes: the name with blanks up to 40, a blank, the source of what must be printed in
// 5 letters, a blank, the text's length in 5 digits, a blank, the length of the pairs in 5 digits, a line feed. The
// text follows, then two lines of 32 digits for each pair, and one line feed more.
#![tactic(auto)]

ghost use Rattle.std.specs.Prelude.{◌≤◌};

use answers::{CompareError, MAX_FRAME_BYTES, MAX_LIMIT, MAX_LINE_BYTES, Sameness};
use file_lines::type_text;
use file_read::same_type;
use frames::frame_at;
use frames_answers::write::outcome_frame;
use program_limit::input::{number_of, read_full};
use rule_rows::Pass;
use std::fs::File;
use std::io;
use std::io::Read;
use text::AnswerRoom;
use text_decode::read_text;

// Prints what typing a text by the first pass writes; the buffer has room for any.
fn print_types(rt: &impl Print, text: &[u8]) -> io::Result<()> {
    let mut lines = [0u8; MAX_LINE_BYTES];
    if let Some(n) = type_text(text, MAX_LIMIT, Pass::First, &mut lines) {
        rt.write_all(&lines[..n])?;
    }
    Ok(())
}

fn print_sameness(rt: &impl Print, same: Sameness) -> io::Result<()> {
    match same {
        Ok(true) => rt.println("yes"),
        Ok(false) => rt.println("no"),
        Err(CompareError::Newer) => rt.println("22"),
        Err(CompareError::Field) => rt.println("5"),
        Err(CompareError::Index) => rt.println("6"),
        Err(CompareError::NotAccepted(outcome)) => rt.println(outcome_frame(Err(outcome)).b1),
    }
}

// Compares pair k of the frames `asked`, and prints what that gives.
fn print_pair(rt: &impl Print, text: &[u8], asked: &[u8], k: usize) -> io::Result<()>
    requires { k ≤ 512 }
{
    let mut frames = [0u8; MAX_FRAME_BYTES];
    let left = frame_at(asked, 2 * k);
    let right = frame_at(asked, 2 * k + 1);
    print_sameness(rt, same_type(text, MAX_LIMIT, &mut frames, left, right))
}

// Reads the lines of the pairs, and compares each pair.
fn print_pairs(rt: &impl Print, text: &[u8], lines: &[u8]) -> io::Result<()> {
    let mut asked = [0u8; MAX_FRAME_BYTES];
    let _ = read_text(lines, MAX_LIMIT, &mut asked, AnswerRoom::NotLent);
    let many = lines.len() / 66;
    if 512 < many {
        return Ok(());
    }
    for k in 0..many {
        print_pair(rt, text, &asked, k)?;
    }
    Ok(())
}

// Fills `text` with a case's text, and `more` with the lines of its pairs and the line feed after them, and replays the
// case.
fn case<R: Read>(
    rt: &impl Print,
    cases: &mut R,
    text: &mut [u8],
    more: &mut [u8],
) -> io::Result<()> {
    read_full(cases, text)?;
    print_types(rt, text)?;
    let got = read_full(cases, more)?;
    if 0 < got {
        let n = got - 1;
        print_pairs(rt, text, &more[..n])?;
    }
    Ok(())
}

// Reads one case and replays it, and answers whether there was one.
fn one<R: Read>(rt: &impl Print, cases: &mut R) -> io::Result<bool> {
    let mut line = [0u8; 59];
    if read_full(cases, &mut line)? < 59 {
        return Ok(false);
    }
    let n = number_of(&line[47..52]);
    let m = number_of(&line[53..58]);
    if 40000 < n {
        return Ok(false);
    }
    if 40000 <= m {
        return Ok(false);
    }
    rt.write_all(&line)?;
    let mut text = [0u8; 40000];
    let mut more = [0u8; 40000];
    let e = m + 1;
    case(rt, cases, &mut text[..n], &mut more[..e])?;
    Ok(true)
}

fn main(rt: HostRuntime) -> io::Result<()> {
    let mut cases = File::open(&rt, "cases")?;
    for _ in 0..u64::MAX {
        if !one(&rt, &mut cases)? {
            break;
        }
    }
    Ok(())
}
