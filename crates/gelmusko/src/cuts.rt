// The smallest part of a file that shows a row's refusal.
ghost use Rattle.std.specs.Prelude.{◌≡◌, cond, ◌++◌, ◌≤◌, length, drop};
ghost use Rattle.text.specs.declared.AnswerRoom.TheVariants.{NotLent};
ghost use Rattle.frames.specs.Bytes.{put_frame};
ghost use Rattle.frames.specs.Out.{refused_frame};
ghost use Rattle.rule_file.specs.File.{frames_after};
ghost use Rattle.rule_file.specs.Exported.{no_room, by_room};
ghost use Rattle.law_cut.specs.Marks.{max_marks};
ghost use Rattle.law_cut.specs.File.{cut_text, cut_after, cut_said};
ghost use Rattle.law_cut.specs.Exported.{mark_bytes, part_exported, frames_marked, table_after};

use file_cut::{cut_text, smallest_part};
use file_exports::{clamped, no_room, put_cut, put_outcome, put_part};
use ir::RowNumber;
use text_decode::room::short_read;

fn mark_byte(marked: bool) -> u8
    ensures { result ≡ cond marked 1 0 }
{
    if marked { 1 } else { 0 }
}

// The marks at the front of a table of bytes.
fn put_marks(marks: [bool; 1024], table: &mut [u8])
    requires { max_marks ≤ length table.old }
    ensures { table.new ≡ mark_bytes marks ++ drop max_marks table.old }
{
    for (k, marked) in marks.iter().enumerate() {
        table[k] = mark_byte(*marked);
    }
}

// The rows that a row's reading follows, where it has no type, as a table of 1,024 bytes.
#[unsafe(no_mangle)]
pub extern "C" fn gelmusko_smallest_part(
    text: &[u8],
    limit: u32,
    frames: &mut [u8],
    row: u32,
    marks: &mut [u8],
    out: &mut [u8],
) -> u32
    ensures outcome { result
        ≡ by_room out.old (no_room limit text.now)
        (part_exported limit text.now (length frames.old) (record { 0 = row })
        marks.old).number }
    ensures frames { frames.new
        ≡ by_room out.old frames.old
        (frames_marked limit text.now frames.old marks.old) }
    ensures marks { marks.new
        ≡ by_room out.old marks.old
        (table_after limit text.now (length frames.old) (record { 0 = row })
        marks.old) }
    ensures out { out.new
        ≡ put_frame out.old 0 (refused_frame
        (part_exported limit text.now (length frames.old) (record { 0 = row })
        marks.old)) }
{
    if out.len() < 16 {
        return no_room(text, limit);
    }
    if marks.len() < 1024 {
        return put_outcome(out, Err(short_read(text, limit)));
    }
    let part = smallest_part(text, limit, frames, RowNumber(clamped(row)));
    let found = part.marks;
    put_marks(found, marks);
    let outcome = part.outcome;
    put_part(out, outcome)
}

// The lines of the file cut to those rows.
#[unsafe(no_mangle)]
pub extern "C" fn gelmusko_cut_text(
    text: &[u8],
    limit: u32,
    frames: &mut [u8],
    row: u32,
    cut: &mut [u8],
    out: &mut [u8],
) -> u32
    ensures outcome { result
        ≡ by_room out.old (no_room limit text.now)
        (cut_said (cut_text limit text.now (length frames.old) (record { 0 = row })
        (length cut.old))).number }
    ensures frames { frames.new
        ≡ by_room out.old frames.old
        (frames_after limit text.now frames.old NotLent) }
    ensures cut { cut.new
        ≡ by_room out.old cut.old
        (cut_after limit text.now (length frames.old) (record { 0 = row })
        cut.old) }
    ensures out { out.new
        ≡ put_frame out.old 0 (refused_frame
        (cut_said (cut_text limit text.now (length frames.old) (record { 0 = row })
        (length cut.old)))) }
{
    if out.len() < 16 {
        return no_room(text, limit);
    }
    let given = cut_text(text, limit, frames, RowNumber(clamped(row)), cut);
    put_cut(out, given)
}
