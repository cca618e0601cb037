// The bytes that a type of a file fills.
ghost use Rattle.std.specs.Prelude.{◌≡◌, length};
ghost use Rattle.text.specs.declared.AnswerRoom.TheVariants.{NotLent};
ghost use Rattle.frames.specs.Bytes.{put_frame};
ghost use Rattle.rule_sizes.specs.Sizes.{size_said, size_said_frame};
ghost use Rattle.rule_file.specs.File.{frames_after};
ghost use Rattle.rule_file_sizes.specs.Sizes.{type_size};
ghost use Rattle.rule_file.specs.Exported.{no_room, by_room, one_number};

// Alignment and size of a type, or its number and the lowest faulty type.
#[unsafe(no_mangle)]
pub extern "C" fn gelmusko_type_size(
    text: &[u8],
    limit: u32,
    frames: &mut [u8],
    n: u32,
    out: &mut [u8],
) -> u32
    ensures outcome { result
        ≡ by_room out.old (no_room limit text.now) (one_number
        (size_said (type_size limit text.now (length frames.old) (record { 0 = n })))) }
    ensures frames { frames.new
        ≡ by_room out.old frames.old
        (frames_after limit text.now frames.old NotLent) }
    ensures out { out.new
        ≡ put_frame out.old 0 (size_said_frame
        (size_said (type_size limit text.now (length frames.old) (record { 0 = n })))) }
{
    gelmusko::sizes::gelmusko_type_size(text, limit, frames, n, out)
}
