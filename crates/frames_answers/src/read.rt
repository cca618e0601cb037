// An answer read again from the frame that was handed back.
ghost use Rattle.std.specs.Prelude.{◌≡◌};
ghost use Rattle.frames.specs.ForProofs.{refusal_of, unresolved_of, value_of, answer_of};

use answers::{Answer, Refusal, Unresolved};
use frames::Frame;
use ir::{RowNumber, TypeInner, TypeNumber, TypeResolution};

// A value; a type of an unknown kind is none.
fn value_of(form: Option<TypeInner>) -> Answer
    ensures { result ≡ value_of form }
{
    match form {
        Some(t) => Ok(TypeResolution::Value(t)),
        None => Err(Unresolved::Refused(Refusal::MissingSpecialType)),
    }
}

// A refusal, by its number.
fn refusal(f: Frame) -> Unresolved
    ensures { result ≡ refusal_of f }
{
    let n = f.named();
    let index = f.index();
    let indexed = f.b8 == 1;
    let number = f.b1;
    match number {
        10 => Unresolved::Refused(Refusal::OutOfBoundsIndex {
            expr: RowNumber(n),
            index,
        }),
        11 => Unresolved::Refused(Refusal::InvalidAccess {
            expr: RowNumber(n),
            indexed,
        }),
        12 => Unresolved::Refused(Refusal::InvalidSubAccess {
            ty: TypeNumber(n),
            indexed,
        }),
        13 => Unresolved::Refused(Refusal::InvalidScalar(RowNumber(n))),
        14 => Unresolved::Refused(Refusal::InvalidVector(RowNumber(n))),
        15 => Unresolved::Refused(Refusal::InvalidPointer(RowNumber(n))),
        16 => Unresolved::Refused(Refusal::InvalidImage(RowNumber(n))),
        17 => Unresolved::Refused(Refusal::FunctionReturnsVoid),
        18 => Unresolved::Refused(Refusal::IncompatibleOperands),
        19 => Unresolved::Refused(Refusal::FunctionArgumentNotFound(index)),
        20 => Unresolved::Refused(Refusal::MissingSpecialType),
        21 => Unresolved::Refused(Refusal::MissingSpecialType),
        22 => Unresolved::Newer { row: RowNumber(n) },
        41 => Unresolved::Refused(Refusal::Mismatch),
        _ => Unresolved::Refused(Refusal::MissingSpecialType),
    }
}

// The answer without a type that a frame of family 10 stands for.
#[tactic(auto, unfolding(frames::specs::ForProofs::unresolved_of))]
pub fn unresolved(f: Frame) -> Unresolved
    ensures { result ≡ unresolved_of f }
{
    if f.b0 == 10 {
        refusal(f)
    } else {
        Unresolved::Refused(Refusal::MissingSpecialType)
    }
}

// The answer that a frame of family 8, 9 or 10 stands for.
#[tactic(auto, unfolding(frames::specs::ForProofs::answer_of))]
pub fn answer(f: Frame) -> Answer
    ensures { result ≡ answer_of f }
{
    let family = f.b0;
    match family {
        8 => {
            let n = f.named();
            Ok(TypeResolution::Handle(TypeNumber(n)))
        }
        9 => value_of(f.type_form()),
        _ => {
            let end = unresolved(f);
            end.answer()
        }
    }
}
