// The cutting program: reads a file from standard input and prints the lines of the file cut to the rows that the
// reading of a refused or newer row follows (document 02, request 12); else one line with the number and its place: of
// a file that is not accepted its own, 6 where it has no such row, 48 where the row has a type. Its arguments are the
// row and the limit of frames, which may be left out. Reads no more than one byte over the longest file; its buffer for
// lines has room for any cut, which has no more lines than the file.
//
// What it must print by its stored run was written by hand. Row 6 multiplies row 5 and row 4; it is refused by its
// right, row 4, which is out of bounds of row 3. Row 5 adds row 1, which it does not read, to row 2, which loads row 0.
// So rows 0 and 2 to 6 are marked and become 0 to 5; the right of row 5 becomes 0, row 3, a compose, loses its
// components, and rows 1 and 7 to 10 are gone.
#![tactic(auto)]

use answers::{FileError, MAX_FRAME_BYTES, MAX_TEXT_BYTES};
use file_cut::cut_text;
use file_lines::put_lines;
use frames::{Frame, put_frame};
use frames_answers::write::{outcome_frame, refused};
use ir::RowNumber;
use law_cut::CutText;
use program_limit::arguments::{Cutting, asked_cutting};
use program_limit::input::read_full;
use std::io;

fn print_frame(rt: &impl Print, frame: Frame) -> io::Result<()> {
    let mut bytes = [0u8; 16];
    put_frame(&mut bytes, 0, frame);
    let mut line = [0u8; 33];
    if let Some(_) = put_lines(&bytes, &mut line) {
        rt.write_all(&line)?;
    }
    Ok(())
}

fn print_cut(rt: &impl Print, text: &[u8], limit: u32, row: RowNumber) -> io::Result<()> {
    let mut frames = [0u8; MAX_FRAME_BYTES];
    let mut lines = [0u8; MAX_TEXT_BYTES];
    match cut_text(text, limit, &mut frames, row, &mut lines) {
        CutText::Lines(n) => rt.write_all(&lines[..33 * n as usize]),
        CutText::Short => print_frame(rt, outcome_frame(Err(FileError::Short))),
        CutText::Sound => print_frame(rt, refused(48, 0, 0, false)),
        CutText::Index => print_frame(rt, refused(6, 0, 0, false)),
        CutText::NotAccepted(e) => print_frame(rt, outcome_frame(Err(e))),
    }
}

fn main(rt: HostRuntime) -> io::Result<()> {
    if let Some(Cutting { row, limit }) = asked_cutting(&rt)? {
        let mut text = [0u8; MAX_TEXT_BYTES + 1];
        let n = read_full(&mut rt.reader(), &mut text)?;
        print_cut(&rt, &text[..n], limit, RowNumber(row))?;
    }
    Ok(())
}
