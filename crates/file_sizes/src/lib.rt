// The bytes that a type of a file fills, and their range where the lengths of pending arrays are known as ranges only
// (document 02, requests 5 and 6). The file is checked first.
#![tactic(auto)]

ghost use Rattle.std.specs.Prelude.{◌≡◌, ◌≤◌, length};
ghost use Rattle.text.specs.declared.AnswerRoom.TheVariants.{NotLent};
ghost use Rattle.rule_sizes.specs.Sizes.{size_said};
ghost use Rattle.rule_file.specs.File.{frames_after};
ghost use Rattle.archive.specs.Starts.{type_count, override_count};
ghost use Rattle.rule_ranges.specs.Ranges.{counts_of, type_range_in, type_range_said};
ghost use Rattle.rule_file_sizes.specs.Sizes.{type_size, type_size_said};
ghost use Rattle.rule_file_sizes.specs.Ranges.{size_range, size_range_said, frames_ranged};

use archive::Starts;
use archive_access::families::{find_starts, is_type};
use file_read::{first_frames, read_file};
use ir::TypeNumber;
use rule_ranges::{RangeError, TypeRange};
use rule_sizes::TypeSize;
use size_pending::{faulty_span, pending_marks};
use text_decode::room::short_read;
use type_sizes::range_marked;

// Alignment and size of type n, or 42, 43 or 44 with the lowest faulty type; 6 where there is no such type. The frame
// buffer is as `read_file` leaves it.
#[tactic(auto, unfolding(rule_file_sizes::specs::Sizes::type_size))]
pub fn type_size(text: &[u8], limit: u32, frames: &mut [u8], n: TypeNumber) -> TypeSize
    ensures outcome { result ≡ type_size limit text.now (length frames.old) n }
    ensures said { size_said result ≡ type_size_said limit text.now (length frames.old) n }
    ensures frames { frames.new ≡ frames_after limit text.now frames.old NotLent }
{
    let count = read_file(text, limit, frames)?;
    let fr = first_frames(frames, count);
    type_sizes::type_size(fr, find_starts(fr), n)
}

// The range of type n: number 6 where there is no such type, then 45, then what it fills.
#[tactic(auto, unfolding(rule_ranges::specs::Ranges::type_range_in))]
fn type_range(frames: &[u8], s: Starts, least: &[u32], greatest: &[u32], n: TypeNumber) -> TypeRange
    requires { (type_count s ≤ 1024) × (override_count s ≤ 1024) }
    ensures { result
        ≡ type_range_in frames.now s (counts_of least.now) (counts_of greatest.now) n }
{
    if is_type(s, n) {
        match faulty_span(s, least, greatest) {
            Some(o) => Err(RangeError::Span { place: o as u16 }),
            None => {
                let marks = pending_marks(frames, s);
                Ok(range_marked(frames, s, &marks, least, greatest, n))
            }
        }
    } else {
        Err(RangeError::Index)
    }
}

// Alignment, least and greatest size of type n where the count of each override is between those of two tables; 42, 43
// or 44 with the lowest faulty type, 45 with the lowest override at fault, 6 where there is no such type. The frame
// buffer is as `read_file` leaves it; a table of fewer than 1,024 counts is number 3, and the buffer stays.
#[tactic(auto, unfolding(rule_file_sizes::specs::Ranges::size_range, rule_file_sizes::specs::Ranges::frames_ranged))]
pub fn size_range(
    text: &[u8],
    limit: u32,
    frames: &mut [u8],
    least: &[u32],
    greatest: &[u32],
    n: TypeNumber,
) -> TypeRange
    ensures outcome { result
        ≡ size_range limit text.now (length frames.old) least.now
        greatest.now n }
    ensures said { type_range_said result
        ≡ size_range_said limit text.now (length frames.old) least.now
        greatest.now n }
    ensures frames { frames.new
        ≡ frames_ranged limit text.now frames.old least.now greatest.now }
{
    let short = (least.len() < 1024) | (greatest.len() < 1024);
    if short {
        return Err(RangeError::NotAccepted(short_read(text, limit)));
    }
    let k = read_file(text, limit, frames)?;
    let fr = first_frames(frames, k);
    type_range(fr, find_starts(fr), least, greatest, n)
}
