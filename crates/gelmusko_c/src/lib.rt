// The functions of crate gelmusko for C and Rust, as the static library exports them (include/gelmusko.h): each calls
// the function of its name there and promises what it promises.
#![tactic(auto)]

pub mod cuts;
pub mod joins;
pub mod ranges;
pub mod rows;
pub mod sizes;
pub mod texels;
pub mod types;

ghost use Rattle.std.specs.Prelude.{◌≡◌, length};
ghost use Rattle.text.specs.declared.AnswerRoom.TheVariants.{NotLent};
ghost use Rattle.frames.specs.Bytes.{put_frame};
ghost use Rattle.frames.specs.Out.{outcome_frame};
ghost use Rattle.rule_file.specs.File.{read_file, frames_after};
ghost use Rattle.rule_file.specs.Exported.{no_room, by_room, outcome_number};

// Whether a file is accepted.
#[unsafe(no_mangle)]
pub extern "C" fn gelmusko_read_file(
    text: &[u8],
    limit: u32,
    frames: &mut [u8],
    out: &mut [u8],
) -> u32
    ensures outcome { result
        ≡ by_room out.old (no_room limit text.now)
        (outcome_number (read_file limit text.now (length frames.old) NotLent)) }
    ensures frames { frames.new
        ≡ by_room out.old frames.old
        (frames_after limit text.now frames.old NotLent) }
    ensures out { out.new
        ≡ put_frame out.old 0
        (outcome_frame (read_file limit text.now (length frames.old) NotLent)) }
{
    gelmusko::gelmusko_read_file(text, limit, frames, out)
}
