// What a rule reads: earlier answers from the answer buffer (the source's `past`), and the types of operands, looked
// into (`inner_with`, proc/typifier.rs, lines 120 to 128); answers made of parts.
#![tactic(auto)]

pub mod both;
pub mod past;
pub mod plain;
pub mod values;

use answers::Unresolved;
use archive::Starts;
use ir::TypeInner;

// What the rule of a row reads: the frames of a file and where its families begin, and the answers of the rows before
// it with their places in the answer buffer: the source's ResolveContext, and its `past`.
#[derive(Clone, Copy)]
pub struct ResolveContext<'a> {
    pub frames: &'a [u8],
    pub starts: Starts,
    pub answers: &'a [u8],
    pub places: &'a [u16],
}

// An operand that was read and looked into: the inner form of its type, or the answer that the row ends with.
pub type Looked = Result<TypeInner, Unresolved>;
