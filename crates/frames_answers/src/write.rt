// The frames that are handed back (document 01, the end of "The file"): a type number is family 8, a value family 9,
// laid as a type, a refusal family 10, a verdict family 11; what a type fills is family 12, its range family 13.
// Numbers are written by their bytes, the low one first.
ghost use Rattle.std.specs.Prelude.{◌≡◌, ◌/◌, ◌%◌};
ghost use Rattle.answers.specs.Numbers.{at, refusal_values};
ghost use Rattle.frames.specs.Out.{refused_frame, outcome_frame, answer_frame, judged_frame, verdict_frame};
ghost use Rattle.frames.specs.Out.{sized_frame};
ghost use Rattle.frames.specs.Out.{ranged_frame};

use super::types::resolution_frame;
use answers::{Answer, ComposeError, FileError, Outcome, Refusal, Unresolved, Verdict};
use frames::Frame;
use ir::RowNumber;

// A refusal: its number, its place, an index and whether it was indexed.
pub fn refused(number: u8, place: u16, index: u32, indexed: bool) -> Frame
    ensures { result ≡ refused_frame (record { number = number; place = place; index = index; indexed = indexed }) }
{
    Frame {
        b0: 10,
        b1: number,
        b2: (place % 256) as u8,
        b3: (place / 256) as u8,
        b4: (index % 256) as u8,
        b5: (index / 256 % 256) as u8,
        b6: (index / 256 / 256 % 256) as u8,
        b7: (index / 256 / 256 / 256) as u8,
        b8: u8::from(indexed),
        b9: 0,
        b10: 0,
        b11: 0,
        b12: 0,
        b13: 0,
        b14: 0,
        b15: 0,
    }
}

// Why a row has no type.
pub fn refusal_frame(e: Refusal) -> Frame
    ensures { result ≡ refused_frame (refusal_values e) }
{
    match e {
        Refusal::OutOfBoundsIndex { expr: x, index } => refused(10, x.0, index, false),
        Refusal::InvalidAccess { expr: x, indexed } => refused(11, x.0, 0, indexed),
        Refusal::InvalidSubAccess { ty: t, indexed } => refused(12, t.0, 0, indexed),
        Refusal::InvalidScalar(x) => refused(13, x.0, 0, false),
        Refusal::InvalidVector(x) => refused(14, x.0, 0, false),
        Refusal::InvalidPointer(x) => refused(15, x.0, 0, false),
        Refusal::InvalidImage(x) => refused(16, x.0, 0, false),
        Refusal::FunctionReturnsVoid => refused(17, 0, 0, false),
        Refusal::IncompatibleOperands => refused(18, 0, 0, false),
        Refusal::FunctionArgumentNotFound(index) => refused(19, 0, index, false),
        Refusal::MissingSpecialType => refused(20, 0, 0, false),
        Refusal::Mismatch => refused(41, 0, 0, false),
    }
}

// Something newer was met, at this row.
pub fn newer_frame(row: RowNumber) -> Frame
    ensures { result ≡ refused_frame (at 22 row.0) }
{
    refused(22, row.0, 0, false)
}

// What reading a file gives.
pub fn outcome_frame(o: Outcome) -> Frame
    ensures { result ≡ outcome_frame o }
{
    match o {
        Ok(_) => refused(0, 0, 0, false),
        Err(FileError::Long { limit }) => refused(1, limit, 0, false),
        Err(FileError::Torn { line }) => refused(2, line, 0, false),
        Err(FileError::Short) => refused(3, 0, 0, false),
        Err(FileError::Order { frame }) => refused(4, frame, 0, false),
        Err(FileError::Field { frame }) => refused(5, frame, 0, false),
        Err(FileError::Index { frame }) => refused(6, frame, 0, false),
    }
}

// A row's answer.
pub fn answer_frame(a: Answer) -> Frame
    ensures { result ≡ answer_frame a }
{
    match a {
        Ok(r) => resolution_frame(r),
        Err(Unresolved::Refused(e)) => refusal_frame(e),
        Err(Unresolved::Newer { row }) => newer_frame(row),
    }
}

// A verdict: its row, its number, expected or component, given.
fn judged(row: RowNumber, number: u8, first: u32, given: u32) -> Frame
    ensures { result ≡ judged_frame row (record { number = number; first = first; given = given }) }
{
    let n = row.0;
    Frame {
        b0: 11,
        b1: number,
        b2: (n % 256) as u8,
        b3: (n / 256) as u8,
        b4: (first % 256) as u8,
        b5: (first / 256 % 256) as u8,
        b6: (first / 256 / 256 % 256) as u8,
        b7: (first / 256 / 256 / 256) as u8,
        b8: (given % 256) as u8,
        b9: (given / 256 % 256) as u8,
        b10: (given / 256 / 256 % 256) as u8,
        b11: (given / 256 / 256 / 256) as u8,
        b12: 0,
        b13: 0,
        b14: 0,
        b15: 0,
    }
}

// A compose's verdict, after its row.
pub fn verdict_frame(row: RowNumber, v: Verdict) -> Frame
    ensures { result ≡ verdict_frame row v }
{
    match v {
        Ok(()) => judged(row, 0, 0, 0),
        Err(ComposeError::ComposedType) => judged(row, 30, 0, 0),
        Err(ComposeError::ComponentCount { expected, given }) => judged(row, 31, expected, given),
        Err(ComposeError::ComponentType { index }) => judged(row, 32, index, 0),
        Err(ComposeError::ComponentRefused { index }) => judged(row, 33, index, 0),
        Err(ComposeError::NewerComposed) => judged(row, 22, 0xffff_ffff, 0),
        Err(ComposeError::NewerComponent { index }) => judged(row, 22, index, 0),
    }
}

// What a type fills: alignment and size in bytes.
pub fn sized_frame(align: u8, size: u32) -> Frame
    ensures { result ≡ sized_frame align size }
{
    Frame {
        b0: 12,
        b1: 0,
        b2: 0,
        b3: 0,
        b4: align,
        b5: 0,
        b6: 0,
        b7: 0,
        b8: (size % 256) as u8,
        b9: (size / 256 % 256) as u8,
        b10: (size / 256 / 256 % 256) as u8,
        b11: (size / 256 / 256 / 256) as u8,
        b12: 0,
        b13: 0,
        b14: 0,
        b15: 0,
    }
}

// The range of what a type fills: alignment, least and greatest size.
pub fn ranged_frame(align: u8, least: u32, greatest: u32) -> Frame
    ensures { result ≡ ranged_frame align least greatest }
{
    Frame {
        b0: 13,
        b1: 0,
        b2: 0,
        b3: 0,
        b4: align,
        b5: 0,
        b6: 0,
        b7: 0,
        b8: (least % 256) as u8,
        b9: (least / 256 % 256) as u8,
        b10: (least / 256 / 256 % 256) as u8,
        b11: (least / 256 / 256 / 256) as u8,
        b12: (greatest % 256) as u8,
        b13: (greatest / 256 % 256) as u8,
        b14: (greatest / 256 / 256 % 256) as u8,
        b15: (greatest / 256 / 256 / 256) as u8,
    }
}
