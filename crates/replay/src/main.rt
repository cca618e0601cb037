// Replays the texts of the file `cases`, good and damaged, and prints for each its name, the number and place that
// reading it gives, and what became of the frame buffer. tools/replay_cases.py writes the cases and what must be
// printed.
//
// A case is a line of 59 bytes: the name with blanks up to 40, a blank, the frame buffer's length in 5 digits, a blank,
// the text's length in 5 digits, a blank, the limit in 5 digits, a line feed. The text follows, and one line feed more.
#![tactic(auto)]

use answers::{MAX_FRAMES, MAX_TEXT_BYTES};
use file_read::read_file;
use frames_answers::write::outcome_frame;
use program_limit::input::{number_of, read_full};
use std::fs::File;
use std::io;
use std::io::Read;
use text_encode::write_text;

// Whether every byte is still 238, as it was lent.
fn untouched(frames: &[u8]) -> bool {
    frames.iter().all(|b| *b == 238)
}

// Whether the buffer holds the frames of the text, and past them is as it was lent. The frames are written as lines and
// compared with the text.
fn written(text: &[u8], frames: &[u8]) -> bool {
    let m = text.len() / 33 * 16;
    if frames.len() < m {
        return false;
    }
    let mut lines = [0u8; MAX_TEXT_BYTES];
    let k = write_text(&frames[..m], &mut lines);
    if MAX_FRAMES < k {
        return false;
    }
    let e = 33 * k;
    &lines[..e] == text && untouched(&frames[m..])
}

// Prints what became of the buffer.
fn print_buffer(rt: &impl Print, text: &[u8], frames: &[u8]) -> io::Result<()> {
    if untouched(frames) {
        rt.println(" kept")
    } else if written(text, frames) {
        rt.println(" written")
    } else {
        rt.println(" spoilt")
    }
}

// Reads a text within a limit over a lent buffer, and prints what that gives.
fn replay(rt: &impl Print, text: &[u8], limit: u32, frames: &mut [u8]) -> io::Result<()> {
    let outcome = read_file(text, limit, frames);
    match outcome {
        Ok(count) => print!(rt; "0 {count}")?,
        _ => {
            let f = outcome_frame(outcome);
            let place = f.named();
            print!(rt; "{} {place}", f.b1)?;
        }
    }
    print_buffer(rt, text, frames)
}

// Fills `space` with a case's text and the line feed after it, and replays the text.
fn case<R: Read>(
    rt: &impl Print,
    cases: &mut R,
    space: &mut [u8],
    limit: u32,
    frames: &mut [u8],
) -> io::Result<()> {
    let got = read_full(cases, space)?;
    if 0 < got {
        let n = got - 1;
        replay(rt, &space[..n], limit, frames)?;
    }
    Ok(())
}

// Reads one case and replays it, and answers whether there was one.
fn one<R: Read>(rt: &impl Print, cases: &mut R) -> io::Result<bool> {
    let mut name = [0u8; 41];
    if read_full(cases, &mut name)? < 41 {
        return Ok(false);
    }
    let mut sizes = [0u8; 18];
    if read_full(cases, &mut sizes)? < 18 {
        return Ok(false);
    }
    let f = number_of(&sizes[..5]);
    let n = number_of(&sizes[6..11]);
    let limit = number_of(&sizes[12..17]);
    if 20000 < f {
        return Ok(false);
    }
    if 40000 <= n {
        return Ok(false);
    }
    if 65792 < limit {
        return Ok(false);
    }
    rt.write_all(&name)?;
    let mut space = [0u8; 40000];
    let mut frames = [238u8; 20000];
    let m = n + 1;
    case(rt, cases, &mut space[..m], limit as u32, &mut frames[..f])?;
    Ok(true)
}

fn main(rt: HostRuntime) -> io::Result<()> {
    let mut cases = File::open(&rt, "cases")?;
    for _ in 0..u64::MAX {
        if !one(&rt, &mut cases)? {
            break;
        }
    }
    Ok(())
}
