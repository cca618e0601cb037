// What one component decides: by a test of its type, by a look that ended, or by an answer without a type.
ghost use Rattle.std.specs.Prelude.{◌≡◌};
ghost use Rattle.frames.specs.ForProofs.{unresolved_of};
ghost use Rattle.verdict_compose.specs.Decided.{adds_if, end_decides};

use super::Decided;
use answers::{ComposeError, Unresolved};
use frames::Frame;

// A component that is as asked adds m parts; another is number 32.
pub fn adds_if(i: u32, same: bool, m: u32) -> Decided
    ensures { result ≡ adds_if i same m }
{
    if same {
        Ok(m)
    } else {
        Err(ComposeError::ComponentType { index: i })
    }
}

// A look that ended: refused is 33, newer 22 at the component.
pub fn by_end(i: u32, end: Unresolved) -> Decided
    ensures { result ≡ end_decides i end }
{
    match end {
        Unresolved::Refused(_) => Err(ComposeError::ComponentRefused { index: i }),
        Unresolved::Newer { row: _ } => Err(ComposeError::NewerComponent { index: i }),
    }
}

// The same by the frame of an answer without a type: its number alone says which, and no refusal is read.
#[tactic(auto, unfolding(frames::specs::ForProofs::unresolved_of))]
pub fn without_type(i: u32, f: Frame) -> Decided
    ensures { result ≡ end_decides i (unresolved_of f) }
{
    if (f.b0 == 10) & (f.b1 == 22) {
        Err(ComposeError::NewerComponent { index: i })
    } else {
        Err(ComposeError::ComponentRefused { index: i })
    }
}
