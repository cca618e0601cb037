// The smallest part of a file that shows a refusal (document 02, request 12): the definitions stand in specs/, their
// laws in proofs/, and here is what asking for it gives.
#![tactic(auto)]

use answers::FileError;

// Whether a part is marked: the row is refused, or newer; it has a type (number 48); the file has no such row (6); or
// the file's own number.
#[derive(Clone, Copy)]
pub enum PartOutcome {
    Marked,
    Sound,
    Index,
    NotAccepted(FileError),
}

// The outcome, and the marks of the rows that the row's reading follows: none where the outcome is a number.
#[derive(Clone, Copy)]
pub struct SmallestPart {
    pub outcome: PartOutcome,
    pub marks: [bool; 1024],
}

// What writing the lines of the part gives: how many, 33 bytes each; that the buffer for them is too small (3); or the
// number instead of a part.
#[derive(Clone, Copy)]
pub enum CutText {
    Lines(u16),
    Short,
    Sound,
    Index,
    NotAccepted(FileError),
}
