// The types of a file: two compared, a canonical form, a pointer's base.
ghost use Rattle.std.specs.Prelude.{◌≡◌, length};
ghost use Rattle.answers.specs.Numbers.{sameness_said, canonical_said, base_said};
ghost use Rattle.text.specs.declared.AnswerRoom.TheVariants.{NotLent};
ghost use Rattle.frames.specs.Bytes.{put_frame};
ghost use Rattle.rule_file.specs.File.{frames_after};
ghost use Rattle.rule_file.specs.Types.{same_types};
ghost use Rattle.rule_file.specs.Forms.{canonical_type, pointer_base_type};
ghost use Rattle.rule_file.specs.Exported.{no_room, by_room, said_number, said_frame, type_said_number};
ghost use Rattle.rule_file.specs.Exported.{type_said_frame};
ghost use Rattle.rule_file.specs.Exported.{handed_frame};

// Whether two answers of a file, as frames of family 8 or 9, are the same type.
#[unsafe(no_mangle)]
pub extern "C" fn gelmusko_same_type(
    text: &[u8],
    limit: u32,
    frames: &mut [u8],
    left: &[u8],
    right: &[u8],
    out: &mut [u8],
) -> u32
    ensures outcome { result
        ≡ by_room out.old (no_room limit text.now) (said_number (sameness_said (same_types limit
        text.now (length frames.old) (handed_frame left.now)
        (handed_frame right.now)))) }
    ensures frames { frames.new
        ≡ by_room out.old frames.old
        (frames_after limit text.now frames.old NotLent) }
    ensures out { out.new
        ≡ put_frame out.old 0 (said_frame (sameness_said (same_types limit text.now
        (length frames.old) (handed_frame left.now) (handed_frame right.now)))) }
{
    gelmusko::types::gelmusko_same_type(text, limit, frames, left, right, out)
}

// The canonical form of a type: the value pointer, or the type's own number.
#[unsafe(no_mangle)]
pub extern "C" fn gelmusko_canonical_form(
    text: &[u8],
    limit: u32,
    frames: &mut [u8],
    n: u32,
    out: &mut [u8],
) -> u32
    ensures outcome { result
        ≡ by_room out.old (no_room limit text.now) (type_said_number (canonical_said
        (canonical_type limit text.now (length frames.old) (record { 0 = n })))) }
    ensures frames { frames.new
        ≡ by_room out.old frames.old
        (frames_after limit text.now frames.old NotLent) }
    ensures out { out.new
        ≡ put_frame out.old 0 (type_said_frame (canonical_said
        (canonical_type limit text.now (length frames.old) (record { 0 = n })))) }
{
    gelmusko::types::gelmusko_canonical_form(text, limit, frames, n, out)
}

// The base of a pointer.
#[unsafe(no_mangle)]
pub extern "C" fn gelmusko_pointer_base(
    text: &[u8],
    limit: u32,
    frames: &mut [u8],
    n: u32,
    out: &mut [u8],
) -> u32
    ensures outcome { result
        ≡ by_room out.old (no_room limit text.now) (type_said_number
        (base_said (pointer_base_type limit text.now (length frames.old) (record { 0 = n })))) }
    ensures frames { frames.new
        ≡ by_room out.old frames.old
        (frames_after limit text.now frames.old NotLent) }
    ensures out { out.new
        ≡ put_frame out.old 0 (type_said_frame
        (base_said (pointer_base_type limit text.now (length frames.old) (record { 0 = n })))) }
{
    gelmusko::types::gelmusko_pointer_base(text, limit, frames, n, out)
}
