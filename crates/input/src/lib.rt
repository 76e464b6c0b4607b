// The bytes of a reader, up to a number of them.
#![tactic(auto)]

ghost use Rattle.std.specs.Io.{ReadsAtMost};

use std::io;
use std::io::Read;

// Reads until the slice is full or the reader ends: how many bytes it read. What fails is the call's error. The position is the sum of what
// the calls of `read` gave; the library's `read_exact` would make an error of a reader that ends before the slice is full.
pub fn fill<R: Read>(from: &mut R, to: &mut [u8]) -> io::Result<usize>
    ensures { ReadsAtMost result to.new }
{
    let mut n = 0;
    while n < to.len() {
        let read = from.read(&mut to[n..])?;
        if read == 0 {
            break;
        }
        n += read;
    }
    Ok(n)
}
