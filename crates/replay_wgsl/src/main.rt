// Replays the file `cases`: tables of Binary rows by the second pass, and worked files by both. tools/wgsl_table.py
// writes the cases and what must be printed.
//
// A case begins with a line of 53 bytes: the name with blanks up to 40, a blank, how many rows the text of a table has
// in 5 digits (zeros for a worked file), a blank, the text's length in 5 digits, a line feed. The text follows.
//
// Every row of a table is an operand. For each operator and each left row the Binary rows over all right rows are put
// behind it, and a line is printed: the operator, the left row, and for each right row `.` where the answer is number
// 41 with zeros, `n` where it is 22 at that very Binary row, and otherwise its digits between blanks.
#![tactic(auto)]

ghost use Rattle.std.specs.Prelude.{◌≤◌, length};

use answers::{MAX_FRAME_BYTES, MAX_LIMIT, MAX_LINE_BYTES, MAX_TEXT_BYTES};
use file_lines::type_text;
use frames::{Frame, put_frame};
use program_limit::input::{number_of, read_full};
use rule_rows::Pass;
use std::fs::File;
use std::io;
use std::io::Read;
use text::AnswerRoom;
use text_decode::read_text;
use text_encode::write_text;

// Whether a line is that of a refusal with a number, at a row, and zeros.
fn refused(line: &[u8], b1: u8, row: usize) -> bool {
    let mut frame = [0u8; 16];
    frame[0] = 10;
    frame[1] = b1;
    frame[2] = (row % 256) as u8;
    frame[3] = (row / 256 % 256) as u8;
    let mut digits = [0u8; 33];
    write_text(&frame, &mut digits);
    line == digits.as_slice()
}

// Prints what the answer of a row is, from its line.
fn print_cell(rt: &impl Print, line: &[u8], row: usize) -> io::Result<()> {
    if refused(line, 41, 0) {
        rt.print(".")?;
    } else if refused(line, 22, row) {
        rt.print("n")?;
    } else if 0 < line.len() {
        let e = line.len() - 1;
        rt.print(" ")?;
        rt.write_all(&line[..e])?;
        rt.print(" ")?;
    }
    Ok(())
}

// Prints the answers of the rows from `first` on.
fn print_cells(rt: &impl Print, lines: &[u8], first: usize) -> io::Result<()> {
    for (row, line) in lines.chunks_exact(33).enumerate().skip(first) {
        print_cell(rt, line, row)?;
    }
    Ok(())
}

// Types a text by the second pass, and prints the answers of the rows from `first` on.
fn print_answers(rt: &impl Print, text: &[u8], first: usize) -> io::Result<()> {
    let mut out = [0u8; MAX_LINE_BYTES];
    if let Some(n) = type_text(text, MAX_LIMIT, Pass::Second, &mut out) {
        print_cells(rt, &out[..n], first)?;
    }
    Ok(())
}

fn binary(operator: u8, left: u8, right: u8) -> Frame {
    Frame {
        b0: 4,
        b1: 18,
        b2: left,
        b3: 0,
        b4: right,
        b5: 0,
        b6: operator,
        b7: 0,
        b8: 0,
        b9: 0,
        b10: 0,
        b11: 0,
        b12: 0,
        b13: 0,
        b14: 0,
        b15: 0,
    }
}

// Puts the Binary rows of an operator and a left row, over all right rows, behind the n frames of a table.
fn put_rows(frames: &mut [u8], n: usize, rows: u8, operator: u8, left: u8)
    requires { n ≤ 700 }
{
    for right in 0..rows {
        put_frame(frames, n + right as usize, binary(operator, left, right));
    }
}

// Prints the line of an operator and a left row.
fn print_line(
    rt: &impl Print,
    frames: &mut [u8],
    n: usize,
    rows: u8,
    operator: u8,
    left: u8,
) -> io::Result<()>
    requires { n ≤ 700 }
{
    print!(rt; "{operator} {left} ")?;
    put_rows(frames, n, rows, operator, left);
    let mut text = [0u8; MAX_TEXT_BYTES];
    let e = 33 * write_text(frames, &mut text);
    print_answers(rt, &text[..e], rows as usize)?;
    rt.println("")
}

// Prints the line of each operator and each left row.
fn print_operators(rt: &impl Print, frames: &mut [u8], n: usize, rows: u8) -> io::Result<()>
    requires { n ≤ 700 }
{
    for operator in 0..18 {
        for left in 0..rows {
            print_line(rt, frames, n, rows, operator, left)?;
        }
    }
    Ok(())
}

// Replays a table: its frames, and room for the Binary rows behind them.
fn print_table(rt: &impl Print, text: &[u8], rows: u8) -> io::Result<()>
    requires { length text.now ≤ 20000 }
{
    let mut frames = [0u8; MAX_FRAME_BYTES];
    let _ = read_text(text, MAX_LIMIT, &mut frames, AnswerRoom::NotLent);
    let n = text.len() / 33;
    let e = 16 * (n + rows as usize);
    print_operators(rt, &mut frames[..e], n, rows)
}

// Prints the lines of a worked file by a pass.
fn print_types(rt: &impl Print, text: &[u8], pass: Pass) -> io::Result<()> {
    let mut lines = [0u8; MAX_LINE_BYTES];
    if let Some(n) = type_text(text, MAX_LIMIT, pass, &mut lines) {
        rt.write_all(&lines[..n])?;
    }
    Ok(())
}

fn print_worked(rt: &impl Print, text: &[u8]) -> io::Result<()> {
    print_types(rt, text, Pass::First)?;
    rt.println("second")?;
    print_types(rt, text, Pass::Second)
}

// Fills `text` with a case's text, and replays the case.
fn case<R: Read>(rt: &impl Print, cases: &mut R, text: &mut [u8], rows: u8) -> io::Result<()>
    requires { length text.old ≤ 20000 }
{
    read_full(cases, text)?;
    if rows == 0 {
        print_worked(rt, text)
    } else {
        print_table(rt, text, rows)
    }
}

// Reads one case and replays it, and answers whether there was one.
fn one<R: Read>(rt: &impl Print, cases: &mut R) -> io::Result<bool> {
    let mut line = [0u8; 53];
    if read_full(cases, &mut line)? < 53 {
        return Ok(false);
    }
    let rows = number_of(&line[41..46]);
    let n = number_of(&line[47..52]);
    if 255 < rows {
        return Ok(false);
    }
    if 20000 < n {
        return Ok(false);
    }
    rt.write_all(&line)?;
    let mut text = [0u8; 20000];
    case(rt, cases, &mut text[..n], rows as u8)?;
    Ok(true)
}

fn main(rt: HostRuntime) -> io::Result<()> {
    let mut cases = File::open(&rt, "cases")?;
    for _ in 0..u64::MAX {
        if !one(&rt, &mut cases)? {
            break;
        }
    }
    Ok(())
}
