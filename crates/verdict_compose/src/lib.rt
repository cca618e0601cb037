// The verdict on a compose: the source's validate_compose (valid/compose.rs, lines 15 to 116), by the rule of
// rule_compose/specs/Verdict.antt. `vector` adds components up, `counted` holds each to a column, an element or a
// member.
#![tactic(auto)]

pub mod by_frame;
pub mod component;
pub mod compose;
pub mod counted;
pub mod vector;

use answers::ComposeError;
use ir::{MemberNumber, Scalar, TypeNumber, VectorSize};

// What is asked of each component: that it is a column of a matrix, an element of an array, or the member of its index
// of a struct whose `count` members begin at `first`.
#[derive(Clone, Copy)]
pub enum Part {
    Column { rows: VectorSize, scalar: Scalar },
    Element(TypeNumber),
    Member { first: MemberNumber, count: u16 },
}

// What one component decides: how many parts it adds to what is composed, or the verdict.
pub type Decided = Result<u32, ComposeError>;
