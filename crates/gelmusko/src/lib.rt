// The public functions over a file, exported for C and Rust; include/gelmusko.h says what each takes and gives. Every
// one takes last an out-slice, which gets one frame of 16 bytes, and returns a number. No slice that is written may
// overlap another of the same call.
#![tactic(auto)]

pub mod cuts;
pub mod joins;
pub mod ranges;
pub mod rows;
pub mod sizes;
pub mod texels;
pub mod types;

ghost use Rattle.std.specs.Prelude.{◌≡◌, length};
ghost use Rattle.text.specs.declared.AnswerRoom.TheVariants.{NotLent};
ghost use Rattle.frames.specs.Bytes.{put_frame};
ghost use Rattle.frames.specs.Out.{outcome_frame};
ghost use Rattle.rule_file.specs.File.{read_file, frames_after};
ghost use Rattle.rule_file.specs.Exported.{no_room, by_room, outcome_number};

use file_exports::{no_room, put_outcome};
use file_read::read_file;

// Whether a file is accepted.
#[unsafe(no_mangle)]
pub extern "C" fn gelmusko_read_file(
    text: &[u8],
    limit: u32,
    frames: &mut [u8],
    out: &mut [u8],
) -> u32
    ensures outcome { result
        ≡ by_room out.old (no_room limit text.now)
        (outcome_number (read_file limit text.now (length frames.old) NotLent)) }
    ensures frames { frames.new
        ≡ by_room out.old frames.old
        (frames_after limit text.now frames.old NotLent) }
    ensures out { out.new
        ≡ put_frame out.old 0
        (outcome_frame (read_file limit text.now (length frames.old) NotLent)) }
{
    let small = out.len() < 16;
    if small {
        return no_room(text, limit);
    }
    let read = read_file(text, limit, frames);
    put_outcome(out, read)
}
