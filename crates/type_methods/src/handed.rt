// The comparison of two types handed in as frames: numbers 5 and 6 first.
ghost use Rattle.std.specs.Prelude.{◌≡◌};
ghost use Rattle.rule.specs.Answers.{resolved, type_answer_of};
ghost use Rattle.rule_types.specs.Comparison.{handed, right_tested, given, sameness_of, same_in};
ghost use Rattle.rule_types.specs.ForProofs.{said_of};

use super::compare::compare_types;
use super::forms::{fault_of, type_answer};
use answers::{CompareError, Sameness};
use archive::Starts;
use frames::Frame;
use ir::TypeResolution;
use rule::Fault;

fn said_of(same: Option<bool>) -> Sameness
    ensures { result ≡ said_of same }
{
    match same {
        None => Err(CompareError::Newer),
        Some(b) => { if b { Ok(true) } else { Ok(false) } }
    }
}

// The right type gets its 5 or 6 before any look.
fn right_tested(frames: &[u8], s: Starts, a: TypeResolution, b: TypeResolution) -> Sameness
    ensures { result ≡ sameness_of (given frames.now s (right_tested (resolved a) (resolved b))) }
{
    match fault_of(s, b) {
        Fault::Sound => said_of(compare_types(frames, s, a, b)),
        Fault::Field => Err(CompareError::Field),
        Fault::Index => Err(CompareError::Index),
    }
}

fn right_frame(frames: &[u8], s: Starts, a: TypeResolution, right: Frame) -> Sameness
    ensures { result ≡ sameness_of (given frames.now s (right_tested (resolved a) (type_answer_of right))) }
{
    match type_answer(right) {
        None => Err(CompareError::Field),
        Some(b) => right_tested(frames, s, a, b),
    }
}

// The left type is tested first.
fn left_tested(frames: &[u8], s: Starts, a: TypeResolution, right: Frame) -> Sameness
    ensures { result ≡ sameness_of (given frames.now s (handed (resolved a) (type_answer_of right))) }
{
    match fault_of(s, a) {
        Fault::Sound => right_frame(frames, s, a, right),
        Fault::Field => Err(CompareError::Field),
        Fault::Index => Err(CompareError::Index),
    }
}

// What comparing two frames gives.
#[tactic(auto, unfolding(rule_types::specs::Comparison::same_in))]
pub fn same_type(frames: &[u8], s: Starts, left: Frame, right: Frame) -> Sameness
    ensures { result ≡ sameness_of (same_in frames.now s left right) }
{
    match type_answer(left) {
        None => Err(CompareError::Field),
        Some(a) => left_tested(frames, s, a, right),
    }
}
