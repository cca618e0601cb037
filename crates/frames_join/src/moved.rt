// A frame of the second file with its numbers moved past the first's (law_join/specs/Join.antt). It moves frames of all
// families; which numbers they have is crate frames_numbers'.
ghost use Rattle.std.specs.Prelude.{◌≡◌, ℕ, ◌+◌, ◌<◌, ◌≤◌};
ghost use Rattle.law_moved.specs.Frames.{move_of, moved_at, numbers_of, moved_frame};
ghost use Rattle.law_moved.proofs.Written.{Fits, AllFit};
ghost use Rattle.law_join.specs.Join.{join_moves};
ghost use Rattle.frames_numbers.specs.Spots.{counted_of, spot_of};

use archive::Starts;
use archive_access::families::row_count;
use frames::Frame;
use frames_numbers::{Counted, Numbers, Spot, frame_numbers, with_b2, with_b4, with_b8, with_b12};

// Numbers of two bytes, and of four, are below these.
const TWO_BYTES: usize = 65536;

const FOUR_BYTES: usize = 4294967296;

// How many the first file has of what a number counts: the second's numbers are moved past them.
fn count_of(s: Starts, counted: Counted) -> usize
    ensures { (n : ℕ) → move_of (join_moves s) (counted_of counted) n ≡ n + result }
{
    match counted {
        Counted::Types => s.members,
        Counted::Members => s.constants.saturating_sub(s.members),
        Counted::Constants => s.overrides.saturating_sub(s.constants),
        Counted::Overrides => s.globals.saturating_sub(s.overrides),
        Counted::Globals => s.arguments.saturating_sub(s.globals),
        Counted::Arguments => s.locals.saturating_sub(s.arguments),
        Counted::Locals => s.functions.saturating_sub(s.locals),
        Counted::Functions => s.intersections.saturating_sub(s.functions),
        Counted::Rows => row_count(s),
        Counted::Components => s.end.saturating_sub(s.components),
        Counted::Counts => 0,
    }
}

// A number moved past so many, below a limit of two bytes or of four. In a join each fits (law_join/proofs/Fits.antt);
// what did not fit would be cut off.
fn past(n: usize, count: usize, limit: usize) -> usize
    requires { (n < limit) × (limit ≤ 4294967296) }
    ensures below { result < limit }
    ensures moved { n + count < limit → result ≡ n + count }
{
    (n + count % limit) % limit
}

// A frame with one of its numbers moved.
fn moved_spot(s: Starts, spot: Spot, f: Frame) -> Frame
    ensures { Fits (join_moves s) f (spot_of spot) → result ≡ moved_at (join_moves s) (spot_of spot) f }
{
    match spot {
        Spot::B2(counted) => {
            let n = past(f.named() as usize, count_of(s, counted), TWO_BYTES);
            with_b2(f, n as u16)
        }
        Spot::B4(counted) => {
            let n = past(f.count() as usize, count_of(s, counted), TWO_BYTES);
            with_b4(f, n as u16)
        }
        Spot::B8(counted) => {
            let n = past(f.third() as usize, count_of(s, counted), FOUR_BYTES);
            with_b8(f, n as u32)
        }
        Spot::B12(counted) => {
            let n = past(f.last() as usize, count_of(s, counted), FOUR_BYTES);
            with_b12(f, n as u32)
        }
    }
}

// A frame with all its numbers moved; s is where the first file's families begin.
pub fn moved_frame(s: Starts, f: Frame) -> Frame
    ensures { AllFit (join_moves s) (numbers_of f) f → result ≡ moved_frame (join_moves s) f }
{
    match frame_numbers(f) {
        Numbers::Nothing => f,
        Numbers::One(a) => moved_spot(s, a, f),
        Numbers::Two(a, b) => moved_spot(s, b, moved_spot(s, a, f)),
        Numbers::Three(a, b, c) => moved_spot(s, c, moved_spot(s, b, moved_spot(s, a, f))),
    }
}
