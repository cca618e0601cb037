// Two kernels in one file.
ghost use Rattle.std.specs.Prelude.{◌≡◌, length};
ghost use Rattle.text.specs.declared.AnswerRoom.TheVariants.{NotLent};
ghost use Rattle.frames.specs.Bytes.{put_frame};
ghost use Rattle.frames.specs.Out.{refused_frame};
ghost use Rattle.rule_file.specs.File.{frames_after};
ghost use Rattle.rule_file.specs.Exported.{no_room, by_room};
ghost use Rattle.law_join.specs.File.{join_files, second_after, joined_after, joined_said};

// The lines of the join of two files.
#[unsafe(no_mangle)]
pub extern "C" fn gelmusko_join_files(
    first: &[u8],
    second: &[u8],
    limit: u32,
    frames: &mut [u8],
    more: &mut [u8],
    joined: &mut [u8],
    out: &mut [u8],
) -> u32
    ensures outcome { result
        ≡ by_room out.old (no_room limit first.now)
        (joined_said (join_files limit first.now second.now (length frames.old)
        (length more.old) (length joined.old))).number }
    ensures frames { frames.new
        ≡ by_room out.old frames.old
        (frames_after limit first.now frames.old NotLent) }
    ensures more { more.new
        ≡ by_room out.old more.old
        (second_after limit first.now second.now (length frames.old)
        more.old) }
    ensures joined { joined.new
        ≡ by_room out.old joined.old
        (joined_after limit first.now second.now (length frames.old)
        (length more.old) joined.old) }
    ensures out { out.new
        ≡ put_frame out.old 0 (refused_frame
        (joined_said (join_files limit first.now second.now (length frames.old)
        (length more.old) (length joined.old)))) }
{
    gelmusko::joins::gelmusko_join_files(first, second, limit, frames, more, joined, out)
}
