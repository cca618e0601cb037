// Reading a file, and comparing two of its types: the file is checked first (document 01, "Numbers handed back").
#![tactic(auto)]

ghost use Rattle.std.specs.Prelude.{◌≡◌, ◌*◌, length, take};
ghost use Rattle.answers.specs.Numbers.{outcome_values, sameness_said};
ghost use Rattle.text.specs.declared.AnswerRoom.TheVariants.{NotLent};
ghost use Rattle.rule_file.specs.File.{read_file, file_said, frames_after};
ghost use Rattle.rule_file.specs.Types.{same_types};

use answers::{Outcome, Sameness};
use archive_access::families::find_starts;
use check_file::check_frames;
use frames::Frame;
use text::AnswerRoom;
use text_decode::read_text;

// The first n frames of a buffer; all of it where it has fewer.
pub fn first_frames(frames: &[u8], n: usize) -> &[u8]
    ensures { result.now ≡ take (16 * n) frames.now }
{
    if n <= frames.len() / 16 {
        let m = 16 * n;
        &frames[..m]
    } else {
        frames
    }
}

// Checks 1 to 6 within a limit of frames, 1 to 1,024, any other counting as 1,024, with the length of the answer buffer
// where one is lent. Numbers 1 to 3 change no buffer; otherwise the frames stand at the front of the frame buffer, and
// its bytes past them stay.
#[tactic(auto, unfolding(rule_file::specs::File::read_file, rule_file::specs::File::frames_after))]
pub fn read_with(text: &[u8], limit: u32, frames: &mut [u8], room: AnswerRoom) -> Outcome
    ensures outcome { result ≡ read_file limit text.now (length frames.old) room }
    ensures said { outcome_values result ≡ file_said limit text.now (length frames.old) room }
    ensures frames { frames.new ≡ frames_after limit text.now frames.old room }
{
    let n = read_text(text, limit, frames, room)?;
    check_frames(first_frames(frames, n))
}

// Whether a file is accepted, or the number and place of its fault.
pub fn read_file(text: &[u8], limit: u32, frames: &mut [u8]) -> Outcome
    ensures outcome { result ≡ read_file limit text.now (length frames.old) NotLent }
    ensures said { outcome_values result
        ≡ file_said limit text.now (length frames.old) NotLent }
    ensures frames { frames.new ≡ frames_after limit text.now frames.old NotLent }
{
    read_with(text, limit, frames, AnswerRoom::NotLent)
}

// Whether two answers of a file, as frames of family 8 or 9, are the same type. The frame buffer is as `read_file`
// leaves it.
#[tactic(auto, unfolding(rule_file::specs::Types::same_types, rule_types::specs::Comparison::same_type))]
pub fn same_type(text: &[u8], limit: u32, frames: &mut [u8], left: Frame, right: Frame) -> Sameness
    ensures outcome { result ≡ same_types limit text.now (length frames.old) left right }
    ensures said { sameness_said result
        ≡ sameness_said (same_types limit text.now (length frames.old) left right) }
    ensures frames { frames.new ≡ frames_after limit text.now frames.old NotLent }
{
    let n = read_file(text, limit, frames)?;
    let fr = first_frames(frames, n);
    type_methods::handed::same_type(fr, find_starts(fr), left, right)
}
