// What a rule reads: earlier answers, and the types of operands.
ghost use Rattle.std.specs.Prelude.{◌≡◌};
ghost use Rattle.row_operands.specs.Context.{earlier, looks};
ghost use Rattle.frames.specs.ForProofs.{answer_of};
ghost use Rattle.rule.specs.Things.{sound_form};
ghost use Rattle.rule_rows.specs.Answered.{to_result};
ghost use Rattle.row_operands.specs.Past.{ended_by, looked_at, seen_by, looked_by, looked_in, look_starts};

use super::{Looked, ResolveContext};
use answers::{Answer, Refusal, Unresolved};
use archive::Starts;
use archive_access::families::type_at;
use frames::{Frame, frame_at};
use frames_answers::read::{answer, unresolved};
use ir::{RowNumber, TypeInner, TypeNumber};
use rule::Fault;
use type_methods::forms::value_fault;

// The answer of row n, at the frame of the answer buffer that `places` has for it; of a row that is not typed yet the
// fixed refusal.
#[tactic(auto, unfolding(rule_rows::specs::OverBuffer::answer_in))]
pub fn past(ctx: &ResolveContext<'_>, n: RowNumber) -> Answer
    ensures { result ≡ earlier ctx.now n }
{
    let i = n.0 as usize;
    if i < ctx.places.len() {
        let at = ctx.places[i] as usize;
        answer(frame_at(ctx.answers, at))
    } else {
        Err(Unresolved::Refused(Refusal::MissingSpecialType))
    }
}

// The answer of a row that ends there.
pub fn ended(end: Unresolved) -> Answer
    ensures { to_result result ≡ ended_by end }
{
    end.answer()
}

fn look_at(here: RowNumber, form: Option<TypeInner>) -> Looked
    ensures { result ≡ looked_at here form }
{
    match form {
        Some(inner) => Ok(inner),
        None => Err(Unresolved::Newer { row: here }),
    }
}

// A value, looked into by what a comparison would answer it with.
fn sound_seen(here: RowNumber, t: TypeInner, fault: Fault) -> Looked
    ensures { result ≡ looked_at here (sound_form t fault) }
{
    match fault {
        Fault::Sound => Ok(t),
        Fault::Field => Err(Unresolved::Newer { row: here }),
        Fault::Index => Err(Unresolved::Newer { row: here }),
    }
}

// A value that was read from the frame of an answer, looked into.
fn value_seen(s: Starts, here: RowNumber, form: Option<TypeInner>) -> Looked
    ensures { result ≡ seen_by s here form }
{
    match form {
        Some(t) => sound_seen(here, t, value_fault(s, t)),
        None => Err(Unresolved::Refused(Refusal::MissingSpecialType)),
    }
}

// By the frame of an answer: a number and a value are looked into as they stand there.
#[tactic(auto, unfolding(frames::specs::ForProofs::answer_of))]
fn look_by(frames: &[u8], s: Starts, here: RowNumber, f: Frame) -> Looked
    ensures { result ≡ looked_by frames.now s here (answer_of f) }
{
    let family = f.b0;
    match family {
        8 => {
            let n = f.named();
            look_at(here, type_at(frames, s, TypeNumber(n)))
        }
        9 => value_seen(s, here, f.type_form()),
        _ => Err(unresolved(f)),
    }
}

// A look goes by three of the places where families begin. They are handed over as numbers: a struct of twelve would be
// copied for every look.
#[tactic(auto, unfolding(rule_rows::specs::OverBuffer::answer_in, crate::specs::Past::looked_in))]
fn look_in(
    frames: &[u8],
    types: usize,
    overrides: usize,
    globals: usize,
    answers: &[u8],
    places: &[u16],
    here: RowNumber,
    n: RowNumber,
) -> Looked
    ensures { result
        ≡ looked_in frames.now (look_starts types overrides globals) answers.now
        places.now
        here n }
{
    let s = Starts {
        members: types,
        constants: 0,
        overrides,
        globals,
        arguments: 0,
        locals: 0,
        functions: 0,
        intersections: 0,
        vertex_returns: 0,
        rows: 0,
        components: 0,
        end: 0,
    };
    let i = n.0 as usize;
    if i < places.len() {
        let at = places[i] as usize;
        look_by(frames, s, here, frame_at(answers, at))
    } else {
        Err(Unresolved::Refused(Refusal::MissingSpecialType))
    }
}

// Reads operand n and looks into its type: the source's `past(n)?.inner_with(types)`.
pub fn look_into(ctx: &ResolveContext<'_>, here: RowNumber, n: RowNumber) -> Looked
    ensures { result ≡ looks ctx.now here n }
{
    look_in(
        ctx.frames,
        ctx.starts.members,
        ctx.starts.overrides,
        ctx.starts.globals,
        ctx.answers,
        ctx.places,
        here,
        n,
    )
}

// The same for a component. Where its look ends says nothing of a verdict's place, so its own row will do for it.
pub fn look_component(ctx: &ResolveContext<'_>, n: RowNumber) -> Looked
    ensures { result ≡ looks ctx.now n n }
{
    look_in(
        ctx.frames,
        ctx.starts.members,
        ctx.starts.overrides,
        ctx.starts.globals,
        ctx.answers,
        ctx.places,
        n,
        n,
    )
}
