// What the frame of an operand's answer shows of its type, before any look: a scalar, a vector, a matrix or a
// cooperative matrix. Such a type holds no number, so nothing is left to ask of it. The forms come in registers, where
// those of a look are written to memory and read again (docs/SPEED.md).
ghost use Rattle.std.specs.Prelude.{◌≡◌};
ghost use Rattle.row_operands.specs.Plain.{past_frame, type_frame_in, typed_frame, plain_of};

use super::ResolveContext;
use archive::Starts;
use archive_access::families::is_type;
use frames::{Frame, frame_at, no_frame};
use ir::{CooperativeRole, CooperativeSize, RowNumber, TypeInner, TypeNumber, VectorSize};

// The frame of row n's answer; zeros, which read as the fixed refusal, of a row that is not typed yet.
pub fn past_frame(ctx: &ResolveContext<'_>, n: RowNumber) -> Frame
    ensures { result ≡ past_frame ctx.now.answers.now ctx.now.places.now n }
{
    let i = n.0 as usize;
    if i < ctx.places.len() {
        let at = ctx.places[i] as usize;
        frame_at(ctx.answers, at)
    } else {
        no_frame()
    }
}

// The frame of type n; zeros, of unknown kind, where there is none.
pub fn type_frame(frames: &[u8], s: Starts, n: TypeNumber) -> Frame
    ensures { result ≡ type_frame_in frames.now s n }
{
    if is_type(s, n) {
        frame_at(frames, n.0 as usize)
    } else {
        no_frame()
    }
}

// The frame of the type that an answer's frame has: of a number that type's, of a value its own; zeros where it has
// none.
pub fn typed_frame(frames: &[u8], s: Starts, f: Frame) -> Frame
    ensures { result ≡ typed_frame frames.now s f }
{
    if f.b0 == 8 {
        let n = f.named();
        type_frame(frames, s, TypeNumber(n))
    } else if f.b0 == 9 {
        f
    } else {
        no_frame()
    }
}

// The scalar, vector, matrix or cooperative matrix that a frame is of; unknown of any other.
#[tactic(auto, unfolding(crate::specs::Plain::plain_of, frames::specs::Forms::type_of))]
pub fn plain_form(f: Frame) -> Option<TypeInner>
    ensures { result ≡ plain_of f }
{
    let scalar = f.scalar();
    let kind = f.b1;
    match kind {
        1 => Some(TypeInner::Scalar(scalar)),
        2 => {
            let size = VectorSize::from(f.b2);
            Some(TypeInner::Vector { size, scalar })
        }
        3 => {
            let columns = VectorSize::from(f.b2);
            let rows = VectorSize::from(f.b3);
            Some(TypeInner::Matrix {
                columns,
                rows,
                scalar,
            })
        }
        4 => {
            let columns = CooperativeSize::from(f.b2);
            let rows = CooperativeSize::from(f.b3);
            let role = CooperativeRole::from(f.b6);
            Some(TypeInner::CooperativeMatrix {
                columns,
                rows,
                scalar,
                role,
            })
        }
        _ => None,
    }
}
