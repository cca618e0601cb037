// Typing the rows of a file: it is checked first, and its rows are answered from its frames (crate file_answers).
#![tactic(auto)]

ghost use Rattle.std.specs.Prelude.{◌≡◌, cond, ◌*◌, length};
ghost use Rattle.text.specs.declared.AnswerRoom.TheVariants.{Lent};
ghost use Rattle.archive.specs.Starts.{starts_of};
ghost use Rattle.archive.specs.Names.{is_row};
ghost use Rattle.answers.specs.Numbers.{outcome_values};
ghost use Rattle.frames.specs.Out.{row_type_said, compose_verdict_said};
ghost use Rattle.rule_answers.specs.Outputs.{output_bytes};
ghost use Rattle.rule_file.specs.File.{read_file, file_said, frames_after};
ghost use Rattle.rule_file.specs.Typing.{answers_written, answers_after, HandsBack, to_given, row_given, row_type};
ghost use Rattle.rule_file.specs.Typing.{row_said};
ghost use Rattle.rule_file.specs.Typing.{answers_after_row, to_verdict, verdict_given, if_judged, compose_verdict};
ghost use Rattle.rule_file.specs.Typing.{verdict_said, answers_after_verdict};
ghost use Rattle.rule_file.specs.ForProofs.{Ready};

use answers::{ComposeVerdict, FileError, MAX_FRAMES, Outcome, QueryError, RowType, VerdictError};
use archive_access::families::{find_starts, is_row, row_count};
use file_answers::{answer_rows, judge_row};
use file_read::{first_frames, read_with};
use frames::frame_at;
use ir::RowNumber;
use ir::numbers::is_compose;
use row_operands::ResolveContext;
use row_operands::past::past;
use rule_file::TypedFile;
use rule_rows::Pass;
use text::AnswerRoom;

// Answers every row, and gives how many frames are written.
fn answer_all(pass: Pass, frames: &[u8], answers: &mut [u8]) -> usize
    requires { Ready pass frames.now (length answers.old) }
    ensures count { 16 * result ≡ length (output_bytes pass frames.now) }
    ensures answers { answers.new ≡ answers_written pass answers.old frames.now }
{
    let mut places = [0u16; MAX_FRAMES];
    answer_rows(pass, frames, answers, &mut places)
}

// One row's answer, after all are written.
fn answer_one(pass: Pass, frames: &[u8], answers: &mut [u8], row: RowNumber) -> RowType
    requires { Ready pass frames.now (length answers.old) }
    ensures outcome { to_given result ≡ row_given pass row frames.now }
    ensures answers { answers.new
        ≡ cond (is_row (starts_of frames.now) row)
        (answers_written pass answers.old frames.now) answers.old }
{
    let s = find_starts(frames);
    if is_row(s, row) {
        let mut places = [0u16; MAX_FRAMES];
        answer_rows(pass, frames, answers, &mut places);
        let n = row_count(s);
        Ok(past(
            &ResolveContext {
                frames,
                starts: s,
                answers,
                places: &places[..n],
            },
            row,
        ))
    } else {
        Err(QueryError::Index)
    }
}

// One compose's verdict, after all answers and verdicts are written.
fn judge_one(pass: Pass, frames: &[u8], answers: &mut [u8], row: RowNumber) -> ComposeVerdict
    requires { Ready pass frames.now (length answers.old) }
    ensures outcome { to_verdict result ≡ verdict_given pass row frames.now }
    ensures answers { answers.new
        ≡ if_judged (answers_written pass answers.old frames.now) answers.old
        (verdict_given pass row frames.now) }
{
    let s = find_starts(frames);
    if is_row(s, row) {
        let m = row.0 as usize;
        let f = frame_at(frames, s.rows + m);
        if is_compose(f.b1) {
            let mut places = [0u16; MAX_FRAMES];
            answer_rows(pass, frames, answers, &mut places);
            Ok(judge_row(
                &ResolveContext {
                    frames,
                    starts: s,
                    answers,
                    places: &places[..m],
                },
                f,
            ))
        } else {
            Err(VerdictError::NotCompose)
        }
    } else {
        Err(VerdictError::Index)
    }
}

// Types every row of a file by the rules of a pass, and judges every compose over those answers. The frame buffer is as
// `read_file` leaves it; of an accepted file the answers and verdicts, 16 bytes each, stand at the front of the answer
// buffer, and its bytes past them stay. Of a file that is not accepted nothing is handed back.
#[tactic(auto, unfolding(rule_file::specs::Typing::answers_after, rule_file::specs::Typing::output_count))]
pub fn type_file(
    text: &[u8],
    limit: u32,
    pass: Pass,
    frames: &mut [u8],
    answers: &mut [u8],
) -> Result<TypedFile, FileError>
    ensures { HandsBack pass limit text.now frames.old answers.old result
        frames.new answers.new }
{
    let n = read_with(text, limit, frames, AnswerRoom::Lent(answers.len()))?;
    let outputs = answer_all(pass, first_frames(frames, n), answers);
    Ok(TypedFile { frames: n, outputs })
}

// The same, where the outcome is enough: how many frames are handed back is known from the file.
pub fn type_rows(
    text: &[u8],
    limit: u32,
    pass: Pass,
    frames: &mut [u8],
    answers: &mut [u8],
) -> Outcome
    ensures outcome { result
        ≡ read_file limit text.now (length frames.old) (Lent (length answers.old)) }
    ensures said { outcome_values result
        ≡ file_said limit text.now (length frames.old) (Lent (length answers.old)) }
    ensures frames { frames.new
        ≡ frames_after limit text.now frames.old (Lent (length answers.old)) }
    ensures answers { answers.new
        ≡ answers_after pass limit text.now (length frames.old) answers.old }
{
    let typed = type_file(text, limit, pass, frames, answers)?;
    Ok(typed.frames)
}

// The answer of one row, with the buffers as `type_rows` leaves them. The answer buffer is unchanged where the file
// does not have the row.
#[tactic(auto, unfolding(rule_file::specs::Typing::row_type, rule_file::specs::Typing::answers_after_row))]
pub fn row_type(
    text: &[u8],
    limit: u32,
    pass: Pass,
    frames: &mut [u8],
    answers: &mut [u8],
    row: RowNumber,
) -> RowType
    ensures outcome { to_given result
        ≡ row_type pass limit text.now (length frames.old) (length answers.old) row }
    ensures said { row_type_said result
        ≡ row_said (row_type pass limit text.now (length frames.old)
        (length answers.old) row) }
    ensures frames { frames.new
        ≡ frames_after limit text.now frames.old (Lent (length answers.old)) }
    ensures answers { answers.new
        ≡ answers_after_row pass limit text.now (length frames.old) answers.old row }
{
    let n = read_with(text, limit, frames, AnswerRoom::Lent(answers.len()))?;
    answer_one(pass, first_frames(frames, n), answers, row)
}

// The verdict on one compose, with the buffers as `type_rows` leaves them. The answer buffer is unchanged where the
// file has no such row, or the row is no compose.
#[tactic(auto, unfolding(rule_file::specs::Typing::compose_verdict, rule_file::specs::Typing::answers_after_verdict))]
pub fn compose_verdict(
    text: &[u8],
    limit: u32,
    pass: Pass,
    frames: &mut [u8],
    answers: &mut [u8],
    row: RowNumber,
) -> ComposeVerdict
    ensures outcome { to_verdict result
        ≡ compose_verdict pass limit text.now (length frames.old)
        (length answers.old) row }
    ensures said { compose_verdict_said row result
        ≡ verdict_said row (compose_verdict pass limit text.now (length frames.old)
        (length answers.old) row) }
    ensures frames { frames.new
        ≡ frames_after limit text.now frames.old (Lent (length answers.old)) }
    ensures answers { answers.new
        ≡ answers_after_verdict pass limit text.now (length frames.old)
        answers.old row }
{
    let n = read_with(text, limit, frames, AnswerRoom::Lent(answers.len()))?;
    judge_one(pass, first_frames(frames, n), answers, row)
}
