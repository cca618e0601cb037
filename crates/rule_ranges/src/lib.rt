// The bytes that a type fills where the lengths of pending arrays are known as ranges only (document 02, request 6),
// as rules, in specs/.
#![tactic(auto)]

ghost use Rattle.std.specs.Prelude.{◌≡◌};

use answers::FileError;
use ir::TypeNumber;
use rule_sizes::{Alignment, SizeFault};

// Alignment, least and greatest size; or the lowest faulty type.
#[derive(Clone, Copy)]
pub enum Range {
    Spans {
        align: Alignment,
        least: u32,
        greatest: u32,
    },
    Faulty {
        fault: SizeFault,
        place: TypeNumber,
    },
}

// Why nothing is said of a type's range: the counts of an override are at fault (45), or the file does not have it.
#[derive(Clone, Copy)]
pub enum RangeError {
    Span { place: u16 },
    Index,
    NotAccepted(FileError),
}

impl From<FileError> for RangeError {
    ghost use Rattle.rule_ranges.specs.declared.RangeError.{RangeError};

    ghost from_gives = { λ e r. r ≡ RangeError.NotAccepted e };

    fn from(e: FileError) -> Self {
        RangeError::NotAccepted(e)
    }
}

// What is said of a type's range.
pub type TypeRange = Result<Range, RangeError>;
