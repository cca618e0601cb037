// The smallest part of a file that shows a row's refusal.
ghost use Rattle.std.specs.Prelude.{◌≡◌, length};
ghost use Rattle.text.specs.declared.AnswerRoom.TheVariants.{NotLent};
ghost use Rattle.frames.specs.Bytes.{put_frame};
ghost use Rattle.frames.specs.Out.{refused_frame};
ghost use Rattle.rule_file.specs.File.{frames_after};
ghost use Rattle.rule_file.specs.Exported.{no_room, by_room};
ghost use Rattle.law_cut.specs.File.{cut_text, cut_after, cut_said};
ghost use Rattle.law_cut.specs.Exported.{part_exported, frames_marked, table_after};

// The rows that a row's reading follows, where it has no type, as a table of 1,024 bytes.
#[unsafe(no_mangle)]
pub extern "C" fn gelmusko_smallest_part(
    text: &[u8],
    limit: u32,
    frames: &mut [u8],
    row: u32,
    marks: &mut [u8],
    out: &mut [u8],
) -> u32
    ensures outcome { result
        ≡ by_room out.old (no_room limit text.now)
        (part_exported limit text.now (length frames.old) (record { 0 = row })
        marks.old).number }
    ensures frames { frames.new
        ≡ by_room out.old frames.old
        (frames_marked limit text.now frames.old marks.old) }
    ensures marks { marks.new
        ≡ by_room out.old marks.old
        (table_after limit text.now (length frames.old) (record { 0 = row })
        marks.old) }
    ensures out { out.new
        ≡ put_frame out.old 0 (refused_frame
        (part_exported limit text.now (length frames.old) (record { 0 = row })
        marks.old)) }
{
    gelmusko::cuts::gelmusko_smallest_part(text, limit, frames, row, marks, out)
}

// The lines of the file cut to those rows.
#[unsafe(no_mangle)]
pub extern "C" fn gelmusko_cut_text(
    text: &[u8],
    limit: u32,
    frames: &mut [u8],
    row: u32,
    cut: &mut [u8],
    out: &mut [u8],
) -> u32
    ensures outcome { result
        ≡ by_room out.old (no_room limit text.now)
        (cut_said (cut_text limit text.now (length frames.old) (record { 0 = row })
        (length cut.old))).number }
    ensures frames { frames.new
        ≡ by_room out.old frames.old
        (frames_after limit text.now frames.old NotLent) }
    ensures cut { cut.new
        ≡ by_room out.old cut.old
        (cut_after limit text.now (length frames.old) (record { 0 = row })
        cut.old) }
    ensures out { out.new
        ≡ put_frame out.old 0 (refused_frame
        (cut_said (cut_text limit text.now (length frames.old) (record { 0 = row })
        (length cut.old)))) }
{
    gelmusko::cuts::gelmusko_cut_text(text, limit, frames, row, cut, out)
}
