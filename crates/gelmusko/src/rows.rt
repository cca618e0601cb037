// The rows of a file, and its composes.
ghost use Rattle.std.specs.Prelude.{◌≡◌, length};
ghost use Rattle.text.specs.declared.AnswerRoom.TheVariants.{Lent};
ghost use Rattle.frames.specs.Bytes.{put_frame};
ghost use Rattle.frames.specs.Out.{outcome_frame, one_frame};
ghost use Rattle.rule_file.specs.File.{read_file, frames_after};
ghost use Rattle.rule_file.specs.Typing.{answers_after, row_type, row_said, answers_after_row, compose_verdict};
ghost use Rattle.rule_file.specs.Typing.{verdict_said};
ghost use Rattle.rule_file.specs.Typing.{answers_after_verdict};
ghost use Rattle.rule_file.specs.Exported.{no_room, by_room, outcome_number, one_number, pass_of};

use file_exports::{clamped, no_room, pass_of, put_outcome, put_row, put_verdict};
use file_rows::{compose_verdict, row_type, type_rows};
use ir::RowNumber;

// Types every row of a file and judges every compose.
#[unsafe(no_mangle)]
pub extern "C" fn gelmusko_type_rows(
    text: &[u8],
    limit: u32,
    pass: u32,
    frames: &mut [u8],
    answers: &mut [u8],
    out: &mut [u8],
) -> u32
    ensures outcome { result
        ≡ by_room out.old (no_room limit text.now)
        (outcome_number (read_file limit text.now
        (length frames.old) (Lent (length answers.old)))) }
    ensures frames { frames.new
        ≡ by_room out.old frames.old
        (frames_after limit text.now frames.old (Lent (length answers.old))) }
    ensures answers { answers.new
        ≡ by_room out.old answers.old
        (answers_after (pass_of pass) limit text.now (length frames.old) answers.old) }
    ensures out { out.new
        ≡ put_frame out.old 0 (outcome_frame (read_file limit text.now (length frames.old)
        (Lent (length answers.old)))) }
{
    if out.len() < 16 {
        return no_room(text, limit);
    }
    let read = type_rows(text, limit, pass_of(pass), frames, answers);
    put_outcome(out, read)
}

// The answer of one row.
#[unsafe(no_mangle)]
pub extern "C" fn gelmusko_row_type(
    text: &[u8],
    limit: u32,
    pass: u32,
    frames: &mut [u8],
    answers: &mut [u8],
    row: u32,
    out: &mut [u8],
) -> u32
    ensures outcome { result
        ≡ by_room out.old (no_room limit text.now)
        (one_number (row_said (row_type (pass_of pass) limit text.now
        (length frames.old) (length answers.old) (record { 0 = row })))) }
    ensures frames { frames.new
        ≡ by_room out.old frames.old
        (frames_after limit text.now frames.old (Lent (length answers.old))) }
    ensures answers { answers.new
        ≡ by_room out.old answers.old (answers_after_row (pass_of pass) limit text.now
        (length frames.old) answers.old (record { 0 = row })) }
    ensures out { out.new
        ≡ put_frame out.old 0 (one_frame (row_said (row_type (pass_of pass) limit text.now
        (length frames.old) (length answers.old) (record { 0 = row })))) }
{
    if out.len() < 16 {
        return no_room(text, limit);
    }
    let given = row_type(
        text,
        limit,
        pass_of(pass),
        frames,
        answers,
        RowNumber(clamped(row)),
    );
    put_row(out, given)
}

// The verdict on one compose.
#[unsafe(no_mangle)]
pub extern "C" fn gelmusko_compose_verdict(
    text: &[u8],
    limit: u32,
    pass: u32,
    frames: &mut [u8],
    answers: &mut [u8],
    row: u32,
    out: &mut [u8],
) -> u32
    ensures outcome { result
        ≡ by_room out.old (no_room limit text.now)
        (one_number (verdict_said (record { 0 = row }) (compose_verdict (pass_of pass) limit
        text.now (length frames.old) (length answers.old) (record { 0 = row })))) }
    ensures frames { frames.new
        ≡ by_room out.old frames.old
        (frames_after limit text.now frames.old (Lent (length answers.old))) }
    ensures answers { answers.new
        ≡ by_room out.old answers.old (answers_after_verdict (pass_of pass) limit text.now
        (length frames.old) answers.old (record { 0 = row })) }
    ensures out { out.new
        ≡ put_frame out.old 0 (one_frame (verdict_said (record { 0 = row }) (compose_verdict (pass_of pass) limit
        text.now (length frames.old) (length answers.old) (record { 0 = row })))) }
{
    if out.len() < 16 {
        return no_room(text, limit);
    }
    let n = clamped(row);
    let given = compose_verdict(text, limit, pass_of(pass), frames, answers, RowNumber(n));
    put_verdict(out, RowNumber(n), given)
}
