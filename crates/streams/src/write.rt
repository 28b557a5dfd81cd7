// Writing until all is written.
ghost use Rattle.std.specs.Prelude.{◌≤◌, length};
ghost use Rattle.streams.specs.Whole.{Written};

use crate::Moved;
use crate::again::{again, told};
use std::io;
use std::io::{ErrorKind, Write};
use std::time::Clock;

// One write of some bytes, made again as long as its failure may pass: it takes no more of them than there are. Apart from the loop, so that what is
// told of a write is told of the bytes that it was handed.
fn write_some<W: Write>(clock: &impl Clock, to: &mut W, bytes: &[u8]) -> Moved
    ensures { result.count ≤ length bytes.now }
{
    let answer = again(clock, &mut [], |_| to.write(bytes));
    told(answer, bytes.len())
}

// Writes all of bytes, or stops at the first write that fails. One that takes nothing failed too.
// Not `for`, as in `read_whole`: a step is as long as what the call moved.
pub fn write_whole<W: Write>(clock: &impl Clock, to: &mut W, bytes: &[u8]) -> Moved
    ensures { Written (length bytes.now) result }
{
    let mut count = 0;
    while count < bytes.len() {
        let put = write_some(clock, to, &bytes[count..]);
        if put.count == 0 {
            return Moved {
                count,
                end: put.end.and(Err(io::Error::from(ErrorKind::WriteZero))),
            };
        }
        count += put.count;
    }
    Moved { count, end: Ok(()) }
}
