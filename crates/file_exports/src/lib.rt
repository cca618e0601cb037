// What is handed back to a caller in C or Rust, as a number and a frame at the front of the out-slice.
#![tactic(auto)]

ghost use Rattle.std.specs.Prelude.{◌≡◌, min};
ghost use Rattle.answers.specs.Numbers.{at, no_refusal, not_there, outcome_values, sameness_said, canonical_said};
ghost use Rattle.answers.specs.Numbers.{base_said};
ghost use Rattle.frames.specs.Bytes.{put_frame};
ghost use Rattle.frames.specs.Out.{refused_frame, outcome_frame, row_type_said, compose_verdict_said, one_frame};
ghost use Rattle.law_cut.specs.File.{part_said, cut_said};
ghost use Rattle.law_join.specs.File.{whose, joined_said};
ghost use Rattle.rule_sizes.specs.Sizes.{size_said, size_said_frame};
ghost use Rattle.rule_ranges.specs.Ranges.{type_range_said, range_said_frame};
ghost use Rattle.rule_file.specs.Exported.{outcome_number, no_room, one_number, said_number, said_frame};
ghost use Rattle.rule_file.specs.Exported.{type_said_number};
ghost use Rattle.rule_file.specs.Exported.{type_said_frame, pass_of, handed_frame};

use answers::{
    CanonicalType, CompareError, ComposeVerdict, FileError, Outcome, PointerBase, QueryError,
    RowType, Sameness, TypeError, VerdictError,
};
use frames::{Frame, frame_at, put_frame};
use frames_answers::types::resolution_frame;
use frames_answers::write::{answer_frame, newer_frame, outcome_frame, refused, verdict_frame};
use ir::RowNumber;
use law_cut::{CutText, PartOutcome};
use law_join::JoinedFile;
use rule_ranges::{RangeError, TypeRange};
use rule_rows::Pass;
use rule_sizes::TypeSize;
use size_steps::table::{measure_frame, measure_number, range_frame, range_number, span_frame};
use text_decode::room::short_read;

// A number handed in, as a row's or a type's number has it: no file has 65,535 of either, so a greater one is out of
// range as that is.
pub fn clamped(n: u32) -> u16
    ensures { result ≡ min n 65535 }
{
    if n < 65535 { n as u16 } else { 65535 }
}

// A pass handed in as a number: 1 is the second, and any other counts as the first.
#[tactic(auto, unfolding(rule_file::specs::Exported::pass_of))]
pub fn pass_of(n: u32) -> Pass
    ensures { result ≡ pass_of n }
{
    if n == 1 { Pass::Second } else { Pass::First }
}

// A frame handed in; zeros, which are of no family, where it has another length than 16.
#[tactic(auto, unfolding(frames::specs::Bytes::frame_at, rule_file::specs::Exported::handed_frame))]
pub fn handed_frame(s: &[u8]) -> Frame
    ensures { result ≡ handed_frame s.now }
{
    if s.len() == 16 {
        frame_at(s, 0)
    } else {
        frame_at(s, s.len())
    }
}

// What is returned where the out-slice is too small.
#[tactic(auto, unfolding(rule_file::specs::Exported::no_room))]
pub fn no_room(text: &[u8], limit: u32) -> u32
    ensures { result ≡ no_room limit text.now }
{
    outcome_number(Err(short_read(text, limit)))
}

// A file's number; 0 where it is accepted.
fn outcome_number(o: Outcome) -> u32
    ensures { result ≡ outcome_number o }
{
    match o {
        Ok(_) => 0,
        Err(FileError::Long { limit: _ }) => 1,
        Err(FileError::Torn { line: _ }) => 2,
        Err(FileError::Short) => 3,
        Err(FileError::Order { frame: _ }) => 4,
        Err(FileError::Field { frame: _ }) => 5,
        Err(FileError::Index { frame: _ }) => 6,
    }
}

// Puts a frame at the front of the out-slice, and gives a number.
fn put(out: &mut [u8], f: Frame, number: u32) -> u32
    ensures { (result ≡ number) × (out.new ≡ put_frame out.old 0 f) }
{
    put_frame(out, 0, f);
    number
}

// What reading or typing a file gives.
pub fn put_outcome(out: &mut [u8], o: Outcome) -> u32
    ensures { (result ≡ outcome_number o) × (out.new ≡ put_frame out.old 0 (outcome_frame o)) }
{
    put(out, outcome_frame(o), outcome_number(o))
}

// Number 6 or 22, each with place 0.
fn put_index(out: &mut [u8]) -> u32
    ensures { (result ≡ not_there.number)
        × (out.new ≡ put_frame out.old 0 (refused_frame not_there)) }
{
    put(out, outcome_frame(Err(FileError::Index { frame: 0 })), 6)
}

fn put_newer(out: &mut [u8]) -> u32
    ensures { (result ≡ 22) × (out.new ≡ put_frame out.old 0 (refused_frame (at 22 0))) }
{
    put(out, newer_frame(RowNumber(0)), 22)
}

// The frame of number 0, and what is said by the number returned.
fn put_zero(out: &mut [u8], said: u32) -> u32
    ensures { (result ≡ said) × (out.new ≡ put_frame out.old 0 (refused_frame no_refusal)) }
{
    put(out, outcome_frame(Ok(0)), said)
}

// A row's answer.
pub fn put_row(out: &mut [u8], given: RowType) -> u32
    ensures outcome { result ≡ one_number (row_type_said given) }
    ensures out { out.new ≡ put_frame out.old 0 (one_frame (row_type_said given)) }
{
    match given {
        Ok(a) => put(out, answer_frame(a), 0),
        Err(QueryError::Index) => put_index(out),
        Err(QueryError::NotAccepted(e)) => put_outcome(out, Err(e)),
    }
}

// A compose's verdict.
pub fn put_verdict(out: &mut [u8], row: RowNumber, given: ComposeVerdict) -> u32
    ensures outcome { result ≡ one_number (compose_verdict_said row given) }
    ensures out { out.new ≡ put_frame out.old 0 (one_frame (compose_verdict_said row given)) }
{
    match given {
        Ok(v) => put(out, verdict_frame(row, v), 0),
        Err(VerdictError::NotCompose) => put_index(out),
        Err(VerdictError::Index) => put_index(out),
        Err(VerdictError::NotAccepted(e)) => put_outcome(out, Err(e)),
    }
}

// What a comparison says.
pub fn put_sameness(out: &mut [u8], given: Sameness) -> u32
    ensures outcome { result ≡ said_number (sameness_said given) }
    ensures out { out.new ≡ put_frame out.old 0 (said_frame (sameness_said given)) }
{
    match given {
        Ok(true) => put_zero(out, 0),
        Ok(false) => put_zero(out, 256),
        Err(CompareError::Newer) => put_newer(out),
        Err(CompareError::Field) => put(out, outcome_frame(Err(FileError::Field { frame: 0 })), 5),
        Err(CompareError::Index) => put_index(out),
        Err(CompareError::NotAccepted(e)) => put_outcome(out, Err(e)),
    }
}

// A canonical form.
pub fn put_canonical(out: &mut [u8], given: CanonicalType) -> u32
    ensures outcome { result ≡ type_said_number (canonical_said given) }
    ensures out { out.new ≡ put_frame out.old 0 (type_said_frame (canonical_said given)) }
{
    match given {
        Ok(t) => put(out, resolution_frame(t), 0),
        Err(TypeError::Newer) => put_newer(out),
        Err(TypeError::Index) => put_index(out),
        Err(TypeError::NotAccepted(e)) => put_outcome(out, Err(e)),
    }
}

// A pointer's base.
pub fn put_base(out: &mut [u8], given: PointerBase) -> u32
    ensures outcome { result ≡ type_said_number (base_said given) }
    ensures out { out.new ≡ put_frame out.old 0 (type_said_frame (base_said given)) }
{
    match given {
        Ok(Some(t)) => put(out, resolution_frame(t), 0),
        Ok(None) => put_zero(out, 257),
        Err(TypeError::Newer) => put_newer(out),
        Err(TypeError::Index) => put_index(out),
        Err(TypeError::NotAccepted(e)) => put_outcome(out, Err(e)),
    }
}

// What a type fills.
pub fn put_size(out: &mut [u8], given: TypeSize) -> u32
    ensures outcome { result ≡ one_number (size_said given) }
    ensures out { out.new ≡ put_frame out.old 0 (size_said_frame (size_said given)) }
{
    match given {
        Ok(m) => put(out, measure_frame(m), measure_number(m)),
        Err(QueryError::Index) => put_index(out),
        Err(QueryError::NotAccepted(e)) => put_outcome(out, Err(e)),
    }
}

// The range of what a type fills.
pub fn put_range(out: &mut [u8], given: TypeRange) -> u32
    ensures outcome { result ≡ one_number (type_range_said given) }
    ensures out { out.new ≡ put_frame out.old 0 (range_said_frame (type_range_said given)) }
{
    match given {
        Ok(g) => put(out, range_frame(g), range_number(g)),
        Err(RangeError::Span { place }) => put(out, span_frame(place), 45),
        Err(RangeError::Index) => put_index(out),
        Err(RangeError::NotAccepted(e)) => put_outcome(out, Err(e)),
    }
}

// Whether a part is marked.
pub fn put_part(out: &mut [u8], given: PartOutcome) -> u32
    ensures outcome { result ≡ (part_said given).number }
    ensures out { out.new ≡ put_frame out.old 0 (refused_frame (part_said given)) }
{
    match given {
        PartOutcome::Marked => put_zero(out, 0),
        PartOutcome::Sound => put(out, refused(48, 0, 0, false), 48),
        PartOutcome::Index => put_index(out),
        PartOutcome::NotAccepted(e) => put_outcome(out, Err(e)),
    }
}

// The lines of a part: how many stand as the place of number 0.
pub fn put_cut(out: &mut [u8], given: CutText) -> u32
    ensures outcome { result ≡ (cut_said given).number }
    ensures out { out.new ≡ put_frame out.old 0 (refused_frame (cut_said given)) }
{
    match given {
        CutText::Lines(n) => put(out, refused(0, n, 0, false), 0),
        CutText::Short => put_outcome(out, Err(FileError::Short)),
        CutText::Sound => put(out, refused(48, 0, 0, false), 48),
        CutText::Index => put_index(out),
        CutText::NotAccepted(e) => put_outcome(out, Err(e)),
    }
}

// A file's number, with whose it is.
fn outcome_of(o: Outcome, index: u32) -> Frame
    ensures { result ≡ refused_frame (whose index (outcome_values o)) }
{
    match o {
        Ok(_) => refused(0, 0, index, false),
        Err(FileError::Long { limit }) => refused(1, limit, index, false),
        Err(FileError::Torn { line }) => refused(2, line, index, false),
        Err(FileError::Short) => refused(3, 0, index, false),
        Err(FileError::Order { frame }) => refused(4, frame, index, false),
        Err(FileError::Field { frame }) => refused(5, frame, index, false),
        Err(FileError::Index { frame }) => refused(6, frame, index, false),
    }
}

// What joining gives: how many frames the join has stand as the place of number 0.
pub fn put_joined(out: &mut [u8], given: JoinedFile) -> u32
    ensures outcome { result ≡ (joined_said given).number }
    ensures out { out.new ≡ put_frame out.old 0 (refused_frame (joined_said given)) }
{
    match given {
        JoinedFile::Frames(n) => put(out, refused(0, n, 0, false), 0),
        JoinedFile::First(e) => put(out, outcome_of(Err(e), 0), outcome_number(Err(e))),
        JoinedFile::Second(e) => put(out, outcome_of(Err(e), 1), outcome_number(Err(e))),
        JoinedFile::NotJoinable => put(out, refused(49, 0, 2, false), 49),
        JoinedFile::Long { limit } => put(out, refused(1, limit, 2, false), 1),
        JoinedFile::Short => put(out, refused(3, 0, 2, false), 3),
    }
}
