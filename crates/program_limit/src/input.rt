// Reading a stream into a buffer, and the numbers in a line of a file of cases.
ghost use Rattle.std.specs.Prelude.{◌≡◌, ◌+◌, ◌*◌, ◌%◌, ◌≤◌, IfOk, OnErr, fold, length};

use std::io;
use std::io::Read;

// Reads until the buffer is full or the input ends, and gives how many bytes it put at the buffer's front. After a
// failed read the buffer may begin with what was read before. A `while`: how far a turn goes is what a read gives.
pub fn read_full<R: Read>(from: &mut R, buf: &mut [u8]) -> io::Result<usize>
    ensures ok { IfOk result (λ n. n ≤ length buf.new) }
    ensures err { OnErr result (length buf.new ≡ length buf.old) }
{
    let mut done = 0;
    while done < buf.len() {
        let n = from.read(&mut buf[done..])?;
        if n == 0 {
            return Ok(done);
        }
        done += n;
    }
    Ok(done)
}

// The number that digits spell, of which the last five count; a byte counts by its low four bits.
pub fn number_of(digits: &[u8]) -> usize
    ensures { result ≡ fold (λ n d. n % 10000 * 10 + d % 16) 0 digits.now }
{
    digits
        .iter()
        .fold(0, |n, d| n % 10000 * 10 + usize::from(*d % 16))
}
