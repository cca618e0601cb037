// Number 4: the order of the frames of a file.
ghost use Rattle.std.specs.Prelude.{◌≡◌, ◌-◌};
ghost use Rattle.scan.specs.Lowest.{lowest};
ghost use Rattle.frames.specs.Bytes.{frame_count};
ghost use Rattle.archive.specs.Order.{rank_of, is_known, follows, order_ok};

use archive::{INTERSECTION_RANK, VERTEX_RETURN_RANK};
use frames::{Frame, frame_at, frame_count};

// Where a frame stands in the order: by its family, and an item by its kind too.
pub fn rank_of(f: Frame) -> usize
    ensures { result ≡ rank_of f }
{
    if f.b0 == 3 {
        768 + (f.b1 as usize)
    } else {
        256 * (f.b0 as usize)
    }
}

// Families 1 to 5, and item kinds 1 to 8.
fn is_known(f: Frame) -> bool
    ensures { result ≡ is_known f }
{
    ((1 <= f.b0) & (f.b0 < 6)) & ((f.b0 != 3) | ((1 <= f.b1) & (f.b1 < 9)))
}

// A frame of this rank may stand after one of rank q: items of kind 7 and 8 stand at most once.
fn may_follow(q: usize, rank: usize) -> bool
    ensures { result ≡ follows q rank }
{
    (q < rank) | ((q == rank) & !((rank == INTERSECTION_RANK) | (rank == VERTEX_RETURN_RANK)))
}

#[tactic(auto, unfolding(archive::specs::Order::order_ok))]
fn order_ok(frames: &[u8], k: usize) -> bool
    ensures { result ≡ order_ok frames.now k }
{
    let f = frame_at(frames, k);
    let last = rank_of(frame_at(frames, k.saturating_sub(1)));
    is_known(f) & ((k == 0) | may_follow(last, rank_of(f)))
}

// The lowest frame that is out of order.
pub fn first_disorder(frames: &[u8]) -> Option<usize>
    ensures { result ≡ lowest (order_ok frames.now) (frame_count frames.now) }
{
    let n = frame_count(frames);
    (0..n).find(|k| !order_ok(frames, *k))
}
