// Pointer forms over a file: the canonical form of a type, and a pointer's base. Each checks the file first (document
// 01, "Numbers handed back").
#![tactic(auto)]

ghost use Rattle.std.specs.Prelude.{◌≡◌, length};
ghost use Rattle.answers.specs.Numbers.{canonical_said, base_said};
ghost use Rattle.text.specs.declared.AnswerRoom.TheVariants.{NotLent};
ghost use Rattle.rule_file.specs.File.{frames_after};
ghost use Rattle.rule_file.specs.Forms.{canonical_type, pointer_base_type};

use answers::{CanonicalType, PointerBase};
use archive_access::families::find_starts;
use file_read::{first_frames, read_file};
use ir::TypeNumber;

// The canonical form of type n: the value pointer, or n itself. The frame buffer is as `read_file` leaves it.
#[tactic(auto, unfolding(rule_file::specs::Forms::canonical_type))]
pub fn canonical_form(text: &[u8], limit: u32, frames: &mut [u8], n: TypeNumber) -> CanonicalType
    ensures outcome { result ≡ canonical_type limit text.now (length frames.old) n }
    ensures said { canonical_said result
        ≡ canonical_said (canonical_type limit text.now (length frames.old) n) }
    ensures frames { frames.new ≡ frames_after limit text.now frames.old NotLent }
{
    let k = read_file(text, limit, frames)?;
    let fr = first_frames(frames, k);
    type_methods::by_number::canonical_type(fr, find_starts(fr), n)
}

// The base of type n, or that it is no pointer. The frame buffer is as `read_file` leaves it.
#[tactic(auto, unfolding(rule_file::specs::Forms::pointer_base_type))]
pub fn pointer_base(text: &[u8], limit: u32, frames: &mut [u8], n: TypeNumber) -> PointerBase
    ensures outcome { result ≡ pointer_base_type limit text.now (length frames.old) n }
    ensures said { base_said result
        ≡ base_said (pointer_base_type limit text.now (length frames.old) n) }
    ensures frames { frames.new ≡ frames_after limit text.now frames.old NotLent }
{
    let k = read_file(text, limit, frames)?;
    let fr = first_frames(frames, k);
    type_methods::by_number::pointer_base(fr, find_starts(fr), n)
}
