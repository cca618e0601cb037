// The range of the bytes that a type of a file fills.
ghost use Rattle.std.specs.Prelude.{◌≡◌, length};
ghost use Rattle.frames.specs.Bytes.{put_frame};
ghost use Rattle.rule_ranges.specs.Ranges.{type_range_said, range_said_frame};
ghost use Rattle.rule_file_sizes.specs.Ranges.{size_range, frames_ranged};
ghost use Rattle.rule_file.specs.Exported.{no_room, by_room, one_number};

// Alignment, least and greatest size of a type between two tables of counts, or its number and the lowest faulty type
// or override.
#[unsafe(no_mangle)]
pub extern "C" fn gelmusko_size_range(
    text: &[u8],
    limit: u32,
    frames: &mut [u8],
    least: &[u32],
    greatest: &[u32],
    n: u32,
    out: &mut [u8],
) -> u32
    ensures outcome { result
        ≡ by_room out.old (no_room limit text.now) (one_number
        (type_range_said (size_range limit text.now (length frames.old) least.now
        greatest.now (record { 0 = n })))) }
    ensures frames { frames.new
        ≡ by_room out.old frames.old
        (frames_ranged limit text.now frames.old least.now greatest.now) }
    ensures out { out.new
        ≡ put_frame out.old 0 (range_said_frame
        (type_range_said (size_range limit text.now (length frames.old) least.now
        greatest.now (record { 0 = n })))) }
{
    gelmusko::ranges::gelmusko_size_range(text, limit, frames, least, greatest, n, out)
}
