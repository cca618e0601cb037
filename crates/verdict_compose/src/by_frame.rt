// What the frame of a component's answer shows of its type before any look: that it is the type of an element or a
// member. Where it does not show it, the forms or the answers are compared. Without this test a file of composes that
// share their components takes more than twice the instructions (docs/SPEED.md).
ghost use Rattle.std.specs.Prelude.{◌≡◌};
ghost use Rattle.verdict_compose.specs.Shown.{is_scalar_to_matrix, same_form, same_pointer, value_shown, type_shown};

use archive::Starts;
use frames::Frame;
use ir::TypeNumber;
use row_operands::plain::type_frame;

// A frame is of a scalar, a vector or a matrix.
fn is_scalar_to_matrix(f: Frame) -> bool
    ensures { result ≡ is_scalar_to_matrix f }
{
    (f.b1 == 1) | ((f.b1 == 2) | (f.b1 == 3))
}

// Whether two frames are of the same scalar, vector or matrix.
fn same_form(f: Frame, g: Frame) -> bool
    ensures { result ≡ same_form f g }
{
    is_scalar_to_matrix(f)
        & ((f.b1 == g.b1) & ((f.b2 == g.b2) & ((f.b3 == g.b3) & ((f.b4 == g.b4) & (f.b5 == g.b5)))))
}

// Whether the frame of a pointer and another are of the same pointer to a scalar, a vector or a matrix.
fn same_pointer(frames: &[u8], s: Starts, f: Frame, g: Frame) -> bool
    ensures { result ≡ same_pointer frames.now s f g }
{
    if (g.b1 == 6) & ((f.b2 == g.b2) & ((f.b3 == g.b3) & ((f.b6 == g.b6) & (f.b7 == g.b7)))) {
        let n = f.named();
        is_scalar_to_matrix(type_frame(frames, s, TypeNumber(n)))
    } else {
        false
    }
}

// Whether the frames of a value and of a type show that they are the same.
fn value_shown(frames: &[u8], s: Starts, f: Frame, g: Frame) -> bool
    ensures { result ≡ value_shown frames.now s f g }
{
    if f.b1 == 6 {
        same_pointer(frames, s, f, g)
    } else {
        same_form(f, g)
    }
}

// Whether an answer's frame shows, without a comparison, that it is the same as type n.
pub fn type_shown(frames: &[u8], s: Starts, n: TypeNumber, f: Frame) -> bool
    ensures { result ≡ type_shown frames.now s n f }
{
    if f.b0 == 8 {
        f.named() == n.0
    } else if f.b0 == 9 {
        value_shown(frames, s, f, type_frame(frames, s, n))
    } else {
        false
    }
}
