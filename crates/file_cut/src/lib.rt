// The smallest part of a file that shows a row's refusal (document 02, request 12): the rows that the row's reading
// follows, marked, and the lines of the file cut to them.
#![tactic(auto)]

ghost use Rattle.std.specs.Prelude.{◌≡◌, cond, ◌+◌, ◌*◌, ◌≤◌, ◌<◌, length, take};
ghost use Rattle.answers.specs.Limit.{max_frames, max_answer_bytes};
ghost use Rattle.text.specs.declared.AnswerRoom.TheVariants.{NotLent};
ghost use Rattle.frames.specs.Bytes.{frame_count, frame_at, put_frame};
ghost use Rattle.rule.specs.Things.{listed};
ghost use Rattle.rule_rows.specs.declared.Pass.TheVariants.{First};
ghost use Rattle.row_operands.specs.Context.{earlier};
ghost use Rattle.rule_answers.specs.Outputs.{frames_bytes};
ghost use Rattle.rule_file.specs.File.{frames_after};
ghost use Rattle.rule_file.specs.Printed.{printed, printed_after};
ghost use Rattle.rule_file.specs.ForProofs.{Ready};
ghost use Rattle.law_moved.specs.Frames.{moved_row};
ghost use Rattle.law_cut.specs.Marks.{marks_by, no_marks, is_marked};
ghost use Rattle.law_cut.specs.Cut.{cut_moves, cut_frames, cut_file};
ghost use Rattle.law_cut.specs.File.{part_in, if_marked, part_text, smallest_part, part_marks, part_said, cut_in};
ghost use Rattle.law_cut.specs.File.{as_lines};
ghost use Rattle.law_cut.specs.File.{cut_text, cut_after, cut_said};
ghost use Rattle.row_marks.specs.Reads.{reads_in};
ghost use Rattle.file_cut.specs.declared.RowOutcome.TheVariants.{Marked};
ghost use Rattle.file_cut.specs.ForProofs.{answered_part, part_over, outcome_of, Pushed, file_text};

use answers::{MAX_ANSWER_BYTES, MAX_FRAME_BYTES, MAX_FRAMES};
use archive_access::families::{find_starts, is_row, row_count};
use file_answers::answer_rows;
use file_lines::put_lines;
use file_read::{first_frames, read_file};
use frames::{frame_at, put_frame};
use ir::RowNumber;
use law_cut::{CutText, PartOutcome, SmallestPart};
use row_cut::cut_row;
use row_marks::follow_marks;
use row_operands::ResolveContext;
use row_operands::past::past;
use rule_rows::Pass;

// Whether a row of an accepted file has no type, has one, or is not there.
#[derive(Clone, Copy)]
pub enum RowOutcome {
    Marked,
    Sound,
    Index,
}

// The same with the marks, none but in the first case.
#[derive(Clone, Copy)]
pub struct RowPart {
    pub outcome: RowOutcome,
    pub marks: [bool; 1024],
}

fn marked(marks: [bool; 1024]) -> RowPart
    ensures { result ≡ record { outcome = Marked; marks = marks } }
{
    RowPart {
        outcome: RowOutcome::Marked,
        marks,
    }
}

fn unmarked(outcome: RowOutcome) -> RowPart
    ensures { result ≡ record { outcome = outcome; marks = no_marks } }
{
    RowPart {
        outcome,
        marks: [false; 1024],
    }
}

// By the row's answer: its part is marked where it has no type.
fn read_part(ctx: &ResolveContext<'_>, row: RowNumber) -> RowPart
    ensures { result
        ≡ answered_part (earlier ctx.now row)
        (marks_by (reads_in ctx.now.frames.now ctx.now.starts ctx.now.answers.now ctx.now.places.now) row.0) }
{
    match past(ctx, row) {
        Ok(_) => unmarked(RowOutcome::Sound),
        Err(_) => marked(follow_marks(ctx, row)),
    }
}

// After all rows are answered.
fn mark_part(frames: &[u8], row: RowNumber) -> RowPart
    requires { Ready First frames.now max_answer_bytes }
    ensures { result ≡ part_over row frames.now }
{
    let s = find_starts(frames);
    if is_row(s, row) {
        let mut answers = [0u8; MAX_ANSWER_BYTES];
        let mut places = [0u16; MAX_FRAMES];
        answer_rows(Pass::First, frames, &mut answers, &mut places);
        let n = row_count(s);
        read_part(
            &ResolveContext {
                frames,
                starts: s,
                answers: &answers,
                places: &places[..n],
            },
            row,
        )
    } else {
        unmarked(RowOutcome::Index)
    }
}

// As it is handed back.
fn handed(part: RowPart) -> SmallestPart
    ensures { (result.outcome ≡ outcome_of part.outcome) × (result.marks ≡ part.marks) }
{
    let marks = part.marks;
    let outcome = part.outcome;
    match outcome {
        RowOutcome::Marked => SmallestPart {
            outcome: PartOutcome::Marked,
            marks,
        },
        RowOutcome::Sound => SmallestPart {
            outcome: PartOutcome::Sound,
            marks,
        },
        RowOutcome::Index => SmallestPart {
            outcome: PartOutcome::Index,
            marks,
        },
    }
}

// Marks the rows that a row's reading follows, by the first pass's rules, where the row has no type. The frame buffer
// is as `read_file` leaves it.
#[tactic(auto, unfolding(law_cut::specs::File::smallest_part, law_cut::specs::File::part_marks))]
pub fn smallest_part(text: &[u8], limit: u32, frames: &mut [u8], row: RowNumber) -> SmallestPart
    ensures outcome { result.outcome
        ≡ smallest_part limit text.now (length frames.old) row }
    ensures said { part_said result.outcome
        ≡ part_said (smallest_part limit text.now (length frames.old) row) }
    ensures marks { result.marks ≡ part_marks limit text.now (length frames.old) row }
    ensures frames { frames.new ≡ frames_after limit text.now frames.old NotLent }
{
    match read_file(text, limit, frames) {
        Err(e) => SmallestPart {
            outcome: PartOutcome::NotAccepted(e),
            marks: [false; 1024],
        },
        Ok(n) => handed(mark_part(first_frames(frames, n), row)),
    }
}

// Copies the first n frames.
fn put_front(frames: &[u8], n: usize, cut: &mut [u8])
    requires { 16 * n ≤ length cut.old }
    ensures { (length cut.new ≡ length cut.old)
        × (take (16 * n) cut.new ≡ frames_bytes (listed (frame_at frames.now) n)) }
{
    for k in 0..n {
        put_frame(cut, k, frame_at(frames, k));
    }
}

// Row k after them, with its numbers moved, where it is marked; gives how many frames there are then.
fn put_row(
    frames: &[u8],
    first: usize,
    marks: [bool; 1024],
    k: usize,
    cut: &mut [u8],
    at: usize,
) -> usize
    requires { (k < max_frames) × ((first ≤ max_frames) × (at ≤ max_frames)) }
    ensures count { result ≡ at + cond (is_marked marks k) 1 0 }
    ensures cut { cut.new
        ≡ cond (is_marked marks k)
        (put_frame cut.old at (moved_row (cut_moves marks) (frame_at frames.now (first + k))))
        cut.old }
{
    if marks[k] {
        put_frame(cut, at, cut_row(&marks, frame_at(frames, first + k)));
        at + 1
    } else {
        at
    }
}

// The frames of the cut; gives how many.
fn cut_frames(frames: &[u8], marks: [bool; 1024], cut: &mut [u8]) -> usize
    requires { (frame_count frames.now ≤ max_frames) × (16 * frame_count frames.now ≤ length cut.old) }
    ensures few { result ≤ max_frames }
    ensures cut { Pushed (cut_frames marks frames.now) result cut.new }
{
    let s = find_starts(frames);
    let first = s.rows;
    put_front(frames, first, cut);
    let n = row_count(s);
    let mut at = first;
    for k in 0..n {
        at = put_row(frames, first, marks, k, cut, at);
    }
    at
}

// The lines of the cut, all of them or none.
fn put_cut(frames: &[u8], marks: [bool; 1024], out: &mut [u8]) -> CutText
    requires { frame_count frames.now ≤ max_frames }
    ensures outcome { result
        ≡ as_lines (frame_count (cut_file marks frames.now))
        (printed (file_text (cut_file marks frames.now)) (length out.old)) }
    ensures out { out.new
        ≡ printed_after (file_text (cut_file marks frames.now)) out.old }
{
    let mut cut = [0u8; MAX_FRAME_BYTES];
    let n = cut_frames(frames, marks, &mut cut);
    match put_lines(first_frames(&cut, n), out) {
        Some(_) => CutText::Lines(n as u16),
        None => CutText::Short,
    }
}

// By the row's part of an accepted file.
fn cut_part(frames: &[u8], row: RowNumber, out: &mut [u8]) -> CutText
    requires { Ready First frames.now max_answer_bytes }
    ensures outcome { result ≡ cut_in row (length out.old) frames.now }
    ensures out { out.new
        ≡ if_marked (printed_after (part_text row frames.now) out.old) out.old
        (part_in row frames.now) }
{
    let part = mark_part(frames, row);
    let marks = part.marks;
    let outcome = part.outcome;
    match outcome {
        RowOutcome::Marked => put_cut(frames, marks, out),
        RowOutcome::Sound => CutText::Sound,
        RowOutcome::Index => CutText::Index,
    }
}

// Writes the lines of the file cut to the rows that `smallest_part` marks, and gives how many they are; where the
// buffer is too small it gives number 3, and where no part is marked the number, and the buffer is unchanged. It is
// last: the file's own number comes first, then 6 and 48, then 3.
#[tactic(auto, unfolding(law_cut::specs::File::cut_text, law_cut::specs::File::cut_after))]
pub fn cut_text(
    text: &[u8],
    limit: u32,
    frames: &mut [u8],
    row: RowNumber,
    cut: &mut [u8],
) -> CutText
    ensures outcome { result
        ≡ cut_text limit text.now (length frames.old) row (length cut.old) }
    ensures said { cut_said result
        ≡ cut_said (cut_text limit text.now (length frames.old) row
        (length cut.old)) }
    ensures frames { frames.new ≡ frames_after limit text.now frames.old NotLent }
    ensures cut { cut.new
        ≡ cut_after limit text.now (length frames.old) row cut.old }
{
    match read_file(text, limit, frames) {
        Err(e) => CutText::NotAccepted(e),
        Ok(n) => cut_part(first_frames(frames, n), row, cut),
    }
}
