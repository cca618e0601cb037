// Two kernels in one file (document 02, request 14): the definitions stand in specs/, their laws in proofs/, and here
// is what joining gives.
#![tactic(auto)]

use answers::FileError;

// What joining two files gives: how many frames the join has; the first file's own number, or the second's; that one of
// them may not be joined (49); that the join is over the limit (1); that the buffer for its lines is too small (3).
#[derive(Clone, Copy)]
pub enum JoinedFile {
    Frames(u16),
    First(FileError),
    Second(FileError),
    NotJoinable,
    Long { limit: u16 },
    Short,
}
