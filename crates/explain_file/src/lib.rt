// A file explained to people: a line for each row and one more after a compose, in words; one line for a file that is
// not accepted (specs/Explained.antt). And a line for each type with its size, or the range of its sizes
// (specs/Sized.antt).
#![tactic(auto)]

ghost use Rattle.std.specs.Prelude.{◌≡◌, ◌≤◌, ◌<◌, length};
ghost use Rattle.answers.specs.Limit.{max_frames, max_frame_bytes, max_answer_bytes};
ghost use Rattle.answers.specs.Numbers.{printed_said};
ghost use Rattle.rule_file.specs.Printed.{printed, printed_after};
ghost use Rattle.rule_explain.specs.Explained.{next_row, max_explained_bytes, answer_lines, fault_lines, lines_of};
ghost use Rattle.rule_explain.specs.Explained.{lines_said};
ghost use Rattle.rule_explain.specs.Explained.{explained};
ghost use Rattle.archive.specs.Starts.{type_count, override_count};
ghost use Rattle.rule_ranges.specs.Ranges.{counts_of};
ghost use Rattle.rule_explain.specs.Sized.{size_lines, sizes_of, sized, span_lines, ranges_in, ranges_of, ranged};
ghost use Rattle.rule_explain.specs.Sized.{max_sized_bytes, ranges_printed, ranges_said, ranges_after};
ghost use Rattle.explain_file.specs.ForProofs.{Shown};

use answers::{FileError, MAX_ANSWER_BYTES, MAX_FRAME_BYTES, MAX_FRAMES};
use archive::Starts;
use archive_access::families::find_starts;
use explain_lines::lines::{put_fault, put_line, put_size, put_span};
use explain_words::copy;
use file_read::{first_frames, read_file};
use file_rows::type_file;
use frames::{Frame, frame_at, frame_count};
use frames_answers::write::outcome_frame;
use ir::{RowNumber, TypeNumber};
use rule_rows::Pass;
use size_pending::faulty_span;
use type_sizes::{measure_all, range_all};

// The bytes that the lines of any file fit into, at most 142 each.
pub const MAX_EXPLAINED_BYTES: usize = 2 * 142 * MAX_FRAMES;

// The same of types' sizes, at most 176 each.
pub const MAX_SIZED_BYTES: usize = 176 * MAX_FRAMES;

// The next row, after an answer or a verdict.
#[tactic(auto, unfolding(rule_explain::specs::Explained::next_row))]
fn next_row(row: RowNumber, f: Frame) -> RowNumber
    requires { row.0 < 65535 }
    ensures { result ≡ next_row row f }
{
    if f.b0 == 11 {
        return row;
    }
    RowNumber(row.0 + 1)
}

// The lines of what is handed back. A line is made in a buffer of its own first.
#[tactic(auto, unfolding(rule_explain::specs::Explained::row_at))]
fn explain_answers(frames: &[u8], answers: &[u8], line: &mut [u8], out: &mut [u8]) -> usize
    requires { (length line.old ≡ 1296) × (length answers.now ≤ max_answer_bytes)
        × (max_explained_bytes ≤ length out.old) }
    ensures { Shown (answer_lines frames.now answers.now) out.old result
        out.new }
{
    let mut at = 0;
    let mut row = RowNumber(0);
    for k in 0..frame_count(answers) {
        let f = frame_at(answers, k);
        let m = put_line(frames, row, f, line);
        copy(&line[..m], out, at);
        at += m;
        row = next_row(row, f);
    }
    at
}

// The line of a file that is not accepted.
fn explain_fault(e: FileError, line: &mut [u8], out: &mut [u8]) -> usize
    requires { (length line.old ≡ 1296) × (142 ≤ length out.old) }
    ensures { Shown (fault_lines e) out.old result out.new }
{
    let m = put_fault(outcome_frame(Err(e)), line);
    copy(&line[..m], out, 0);
    m
}

// The lines of a text, over lent buffers of the largest sizes that a file asks for.
fn explain_with(
    text: &[u8],
    limit: u32,
    pass: Pass,
    frames: &mut [u8],
    answers: &mut [u8],
    line: &mut [u8],
    out: &mut [u8],
) -> usize
    requires frames { length frames.old ≡ max_frame_bytes }
    requires answers { length answers.old ≡ max_answer_bytes }
    requires line { length line.old ≡ 1296 }
    requires out { length out.old ≡ max_explained_bytes }
    ensures { Shown (lines_of pass limit text.now) out.old result out.new }
{
    match type_file(text, limit, pass, frames, answers) {
        Err(e) => explain_fault(e, line, out),
        Ok(typed) => {
            let fr = first_frames(frames, typed.frames);
            explain_answers(fr, first_frames(answers, typed.outputs), line, out)
        }
    }
}

// Copies lines to the front of the output buffer; where it is too small, number 3, and nothing is changed.
fn print(lines: &[u8], out: &mut [u8]) -> Option<usize>
    ensures outcome { result ≡ printed lines.now (length out.old) }
    ensures out { out.new ≡ printed_after lines.now out.old }
{
    if out.len() < lines.len() {
        return None;
    }
    copy(lines, out, 0);
    Some(lines.len())
}

// Explains a file: writes its lines, and gives how many bytes they are; where the output buffer is too small it gives
// number 3 and changes nothing. MAX_EXPLAINED_BYTES are room for any file's (`explained-fits`, proofs/Fits.antt).
pub fn explain_text(text: &[u8], limit: u32, pass: Pass, out: &mut [u8]) -> Option<usize>
    ensures outcome { result ≡ printed (explained pass limit text.now) (length out.old) }
    ensures said { printed_said result
        ≡ lines_said (explained pass limit text.now) (length out.old) }
    ensures out { out.new
        ≡ printed_after (explained pass limit text.now) out.old }
{
    let mut frames = [0u8; MAX_FRAME_BYTES];
    let mut answers = [0u8; MAX_ANSWER_BYTES];
    let mut line = [0u8; 1296];
    let mut lines = [0u8; MAX_EXPLAINED_BYTES];
    let m = explain_with(
        text,
        limit,
        pass,
        &mut frames,
        &mut answers,
        &mut line,
        &mut lines,
    );
    print(&lines[..m], out)
}

// The lines of what types fill, a frame each.
fn size_lines(frames: &[u8], sizes: &[u8], line: &mut [u8], out: &mut [u8]) -> usize
    requires { (length line.old ≡ 1296) × (length sizes.now ≤ max_frame_bytes)
        × (max_sized_bytes ≤ length out.old) }
    ensures { Shown (size_lines frames.now sizes.now) out.old result
        out.new }
{
    let mut at = 0;
    for k in 0..frame_count(sizes) {
        let f = frame_at(sizes, k);
        let m = put_size(frames, TypeNumber(k as u16), f, line);
        copy(&line[..m], out, at);
        at += m;
    }
    at
}

// The sizes of a text's types, over lent buffers of the largest sizes that a file asks for.
fn sizes_with(
    text: &[u8],
    limit: u32,
    frames: &mut [u8],
    sizes: &mut [u8],
    line: &mut [u8],
    out: &mut [u8],
) -> usize
    requires frames { length frames.old ≡ max_frame_bytes }
    requires sizes { length sizes.old ≡ max_frame_bytes }
    requires line { length line.old ≡ 1296 }
    requires out { length out.old ≡ max_sized_bytes }
    ensures { Shown (sizes_of limit text.now) out.old result out.new }
{
    match read_file(text, limit, frames) {
        Err(e) => explain_fault(e, line, out),
        Ok(n) => {
            let fr = first_frames(frames, n);
            let s = find_starts(fr);
            measure_all(fr, s, sizes);
            size_lines(fr, first_frames(sizes, s.members), line, out)
        }
    }
}

// The sizes of a file's types: writes a line for each, and gives how many bytes they are; where the output buffer is
// too small it gives number 3 and changes nothing. MAX_SIZED_BYTES are room for any file's (`sized-fits`,
// proofs/Fits.antt).
pub fn sizes_text(text: &[u8], limit: u32, out: &mut [u8]) -> Option<usize>
    ensures outcome { result ≡ printed (sized limit text.now) (length out.old) }
    ensures said { printed_said result
        ≡ lines_said (sized limit text.now) (length out.old) }
    ensures out { out.new ≡ printed_after (sized limit text.now) out.old }
{
    let mut frames = [0u8; MAX_FRAME_BYTES];
    let mut sizes = [0u8; MAX_FRAME_BYTES];
    let mut line = [0u8; 1296];
    let mut lines = [0u8; MAX_SIZED_BYTES];
    let m = sizes_with(text, limit, &mut frames, &mut sizes, &mut line, &mut lines);
    print(&lines[..m], out)
}

// The line of number 45.
fn explain_span(o: u16, line: &mut [u8], out: &mut [u8]) -> usize
    requires { (length line.old ≡ 1296) × (142 ≤ length out.old) }
    ensures { Shown (span_lines o) out.old result out.new }
{
    let m = put_span(o, line);
    copy(&line[..m], out, 0);
    m
}

// The lines of the ranges of a file's types.
fn range_lines(
    frames: &[u8],
    s: Starts,
    least: &[u32],
    greatest: &[u32],
    sizes: &mut [u8],
    line: &mut [u8],
    out: &mut [u8],
) -> usize
    requires starts { (type_count s ≤ max_frames) × (override_count s ≤ max_frames) }
    requires sizes { length sizes.old ≡ max_frame_bytes }
    requires line { length line.old ≡ 1296 }
    requires out { length out.old ≡ max_sized_bytes }
    ensures { Shown (ranges_in frames.now s (counts_of least.now)
        (counts_of greatest.now)) out.old result out.new }
{
    match faulty_span(s, least, greatest) {
        Some(o) => explain_span(o as u16, line, out),
        None => {
            range_all(frames, s, least, greatest, sizes);
            let e = 16 * s.members;
            size_lines(frames, &sizes[..e], line, out)
        }
    }
}

// Those of a text, over lent buffers of the largest sizes that a file asks for.
fn ranges_with(
    text: &[u8],
    limit: u32,
    least: &[u32],
    greatest: &[u32],
    frames: &mut [u8],
    sizes: &mut [u8],
    line: &mut [u8],
    out: &mut [u8],
) -> usize
    requires frames { length frames.old ≡ max_frame_bytes }
    requires sizes { length sizes.old ≡ max_frame_bytes }
    requires line { length line.old ≡ 1296 }
    requires out { length out.old ≡ max_sized_bytes }
    ensures { Shown (ranges_of limit (counts_of least.now) (counts_of greatest.now)
        text.now) out.old result out.new }
{
    match read_file(text, limit, frames) {
        Err(e) => explain_fault(e, line, out),
        Ok(n) => {
            let fr = first_frames(frames, n);
            range_lines(fr, find_starts(fr), least, greatest, sizes, line, out)
        }
    }
}

// The ranges of the sizes of a file's types between two tables of counts.
fn print_ranges(
    text: &[u8],
    limit: u32,
    least: &[u32],
    greatest: &[u32],
    out: &mut [u8],
) -> Option<usize>
    ensures outcome { result
        ≡ printed (ranged limit (counts_of least.now) (counts_of greatest.now)
        text.now) (length out.old) }
    ensures out { out.new
        ≡ printed_after (ranged limit (counts_of least.now) (counts_of greatest.now)
        text.now) out.old }
{
    let mut frames = [0u8; MAX_FRAME_BYTES];
    let mut sizes = [0u8; MAX_FRAME_BYTES];
    let mut line = [0u8; 1296];
    let mut lines = [0u8; MAX_SIZED_BYTES];
    let m = ranges_with(
        text,
        limit,
        least,
        greatest,
        &mut frames,
        &mut sizes,
        &mut line,
        &mut lines,
    );
    print(&lines[..m], out)
}

// The same between two tables of 1,024 counts or more: as `sizes_text`, and one line where an override is at fault
// (45).
// A table of fewer counts is number 3, and nothing is written. MAX_SIZED_BYTES are room for any file's (`ranged-fits`).
pub fn ranges_text(
    text: &[u8],
    limit: u32,
    least: &[u32],
    greatest: &[u32],
    out: &mut [u8],
) -> Option<usize>
    ensures outcome { result
        ≡ ranges_printed limit least.now greatest.now text.now
        (length out.old) }
    ensures said { printed_said result
        ≡ ranges_said limit least.now greatest.now text.now
        (length out.old) }
    ensures out { out.new
        ≡ ranges_after limit least.now greatest.now text.now out.old }
{
    if (least.len() < 1024) | (greatest.len() < 1024) {
        return None;
    }
    print_ranges(text, limit, least, greatest, out)
}
