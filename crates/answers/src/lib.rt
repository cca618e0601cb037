// What is handed back (document 01, "Numbers handed back"): an enum for each kind of answer. specs/Numbers.antt gives
// the document's number and values for each case.
#![tactic(auto)]

ghost use Rattle.std.specs.Prelude.{◌≡◌};
ghost use Rattle.answers.specs.ForProofs.{answered};

use ir::{RowNumber, TypeNumber, TypeResolution};

// The most frames that a file may have, whatever the limit; the same as a limit handed in; and the bytes that a file of
// so many fills at most: its text, its frames, its answers and verdicts, and the lines of these (specs/Limit.antt).
pub const MAX_FRAMES: usize = 1024;

pub const MAX_LIMIT: u32 = MAX_FRAMES as u32;

pub const MAX_TEXT_BYTES: usize = 33 * MAX_FRAMES;

pub const MAX_FRAME_BYTES: usize = 16 * MAX_FRAMES;

pub const MAX_ANSWER_BYTES: usize = 2 * MAX_FRAME_BYTES;

pub const MAX_LINE_BYTES: usize = 2 * MAX_TEXT_BYTES;

// What reading a file gives: how many frames it has, or why it is not accepted.
pub type Outcome = Result<usize, FileError>;

// Why a file is not accepted. A place is the number of a line or of a frame, from 0.
#[derive(Clone, Copy, PartialEq, Eq)]
pub enum FileError {
    Long { limit: u16 },
    Torn { line: u16 },
    Short,
    Order { frame: u16 },
    Field { frame: u16 },
    Index { frame: u16 },
}

// Why a row has no type. The source's ResolveError, without its texts; and the second pass's own: WGSL has no such
// Binary expression.
#[derive(Clone, Copy, PartialEq, Eq)]
pub enum Refusal {
    OutOfBoundsIndex { expr: RowNumber, index: u32 },
    InvalidAccess { expr: RowNumber, indexed: bool },
    InvalidSubAccess { ty: TypeNumber, indexed: bool },
    InvalidScalar(RowNumber),
    InvalidVector(RowNumber),
    InvalidPointer(RowNumber),
    InvalidImage(RowNumber),
    FunctionReturnsVoid,
    IncompatibleOperands,
    FunctionArgumentNotFound(u32),
    MissingSpecialType,
    Mismatch,
}

// A row's answer: its type, or why it has none.
pub type Answer = Result<TypeResolution, Unresolved>;

// An answer that holds no type: what ends a row that reads it. Newer is the port's own: the reading met something that
// this reader does not type, at that row.
#[derive(Clone, Copy, PartialEq, Eq)]
pub enum Unresolved {
    Refused(Refusal),
    Newer { row: RowNumber },
}

impl Unresolved {
    pub fn answer(self) -> Answer
        ensures { result ≡ answered self }
    {
        Err(self)
    }
}

// Why a compose does not pass: the source's ComposeError, and the port's own cases for a component row that was refused
// and for what is newer. Components count from 0 within their compose.
#[derive(Clone, Copy, PartialEq, Eq)]
pub enum ComposeError {
    ComposedType,
    ComponentCount { expected: u32, given: u32 },
    ComponentType { index: u32 },
    ComponentRefused { index: u32 },
    NewerComposed,
    NewerComponent { index: u32 },
}

// What a compose is judged.
pub type Verdict = Result<(), ComposeError>;

// Why two answers are not compared: the answer of unknown kind, or that an answer is none of the file's.
#[derive(Clone, Copy, PartialEq, Eq)]
pub enum CompareError {
    Newer,
    Field,
    Index,
    NotAccepted(FileError),
}

impl From<FileError> for CompareError {
    ghost use Rattle.answers.specs.declared.CompareError.{CompareError};

    ghost from_gives = { λ e r. r ≡ CompareError.NotAccepted e };

    fn from(e: FileError) -> Self {
        CompareError::NotAccepted(e)
    }
}

// What comparing two answers gives: whether they are the same.
pub type Sameness = Result<bool, CompareError>;

// Why nothing is said of a type: it is of unknown kind, or the file does not have it.
#[derive(Clone, Copy, PartialEq, Eq)]
pub enum TypeError {
    Newer,
    Index,
    NotAccepted(FileError),
}

impl From<FileError> for TypeError {
    ghost use Rattle.answers.specs.declared.TypeError.{TypeError};

    ghost from_gives = { λ e r. r ≡ TypeError.NotAccepted e };

    fn from(e: FileError) -> Self {
        TypeError::NotAccepted(e)
    }
}

// What asking for a pointer's base gives: none of a type that is no pointer.
pub type PointerBase = Result<Option<TypeResolution>, TypeError>;

// What asking for a type's canonical form gives: the value pointer, or the type's own number where the source gives
// None.
pub type CanonicalType = Result<TypeResolution, TypeError>;

// Why nothing is said of a row or of a type's size: the file does not have it.
#[derive(Clone, Copy, PartialEq, Eq)]
pub enum QueryError {
    Index,
    NotAccepted(FileError),
}

impl From<FileError> for QueryError {
    ghost use Rattle.answers.specs.declared.QueryError.{QueryError};

    ghost from_gives = { λ e r. r ≡ QueryError.NotAccepted e };

    fn from(e: FileError) -> Self {
        QueryError::NotAccepted(e)
    }
}

// What asking for a row's type gives: its answer.
pub type RowType = Result<Answer, QueryError>;

// Why a row has no verdict: it is no compose, or the file does not have it.
#[derive(Clone, Copy, PartialEq, Eq)]
pub enum VerdictError {
    NotCompose,
    Index,
    NotAccepted(FileError),
}

impl From<FileError> for VerdictError {
    ghost use Rattle.answers.specs.declared.VerdictError.{VerdictError};

    ghost from_gives = { λ e r. r ≡ VerdictError.NotAccepted e };

    fn from(e: FileError) -> Self {
        VerdictError::NotAccepted(e)
    }
}

// What asking for a compose's verdict gives.
pub type ComposeVerdict = Result<Verdict, VerdictError>;
