// What the typing program prints.
#![tactic(auto)]

ghost use Rattle.std.specs.Prelude.{◌≡◌, length};
ghost use Rattle.answers.specs.Limit.{max_frame_bytes, max_answer_bytes};
ghost use Rattle.answers.specs.Numbers.{printed_said};
ghost use Rattle.text.specs.Lines.{text_of};
ghost use Rattle.frames.specs.Bytes.{frame_count};
ghost use Rattle.rule_file.specs.Typing.{typed_text};
ghost use Rattle.rule_file.specs.Printed.{printed, printed_after};

use answers::{MAX_ANSWER_BYTES, MAX_FRAME_BYTES};
use file_read::first_frames;
use file_rows::type_file;
use frames::put_frame;
use frames_answers::write::outcome_frame;
use rule_rows::Pass;
use text_encode::write_text;

// Writes the lines of some frames, all of them or none.
pub fn put_lines(frames: &[u8], out: &mut [u8]) -> Option<usize>
    ensures outcome { result
        ≡ printed (text_of frames.now (frame_count frames.now)) (length out.old) }
    ensures out { out.new
        ≡ printed_after (text_of frames.now (frame_count frames.now)) out.old }
{
    let n = frames.len() / 16;
    let short = out.len() / 33 < n;
    if short {
        return None;
    }
    write_text(frames, out);
    Some(33 * n)
}

// The same over lent buffers of the largest sizes that a file asks for.
fn type_lines(
    text: &[u8],
    limit: u32,
    pass: Pass,
    frames: &mut [u8],
    answers: &mut [u8],
    out: &mut [u8],
) -> Option<usize>
    requires { (length frames.old ≡ max_frame_bytes) × (length answers.old ≡ max_answer_bytes) }
    ensures outcome { result ≡ printed (typed_text pass limit text.now) (length out.old) }
    ensures out { out.new
        ≡ printed_after (typed_text pass limit text.now) out.old }
{
    match type_file(text, limit, pass, frames, answers) {
        Err(e) => {
            put_frame(answers, 0, outcome_frame(Err(e)));
            put_lines(first_frames(answers, 1), out)
        }
        Ok(typed) => put_lines(first_frames(answers, typed.outputs), out),
    }
}

// Types a file within a limit and by a pass, and writes the lines of what is handed back, and gives how many bytes they
// are; where the output buffer is too small it gives number 3 and changes nothing. MAX_LINE_BYTES are room for any
// file's.
pub fn type_text(text: &[u8], limit: u32, pass: Pass, out: &mut [u8]) -> Option<usize>
    ensures outcome { result ≡ printed (typed_text pass limit text.now) (length out.old) }
    ensures said { printed_said result
        ≡ printed_said (printed (typed_text pass limit text.now) (length out.old)) }
    ensures out { out.new
        ≡ printed_after (typed_text pass limit text.now) out.old }
{
    let mut frames = [0u8; MAX_FRAME_BYTES];
    let mut answers = [0u8; MAX_ANSWER_BYTES];
    type_lines(text, limit, pass, &mut frames, &mut answers, out)
}
