// Reading until there is no more.
ghost use Rattle.std.specs.Prelude.{◌≡◌, length};
ghost use Rattle.io.specs.Counts.{IsPrefixLen};
ghost use Rattle.streams.specs.Whole.{WholeIfFull};

use crate::Moved;
use crate::again::{again, told};
use std::io::Read;
use std::time::Clock;

// Reads until buf is full or the input ends: then it is whole. It is not where a read failed; what was read before that is counted all the
// same. The bytes that were read are the first `count` of buf.
// Read and write each in its own loop: this one fills lent room and ends well at 0, where the other fails. Not `for`: a step is as long as what the
// call moved.
pub fn read_whole<R: Read>(clock: &impl Clock, from: &mut R, buf: &mut [u8]) -> Moved
    ensures prefix_len { IsPrefixLen result.count buf.new }
    ensures buf_len_unchanged { length buf.new ≡ length buf.old }
    ensures whole_if_full { WholeIfFull (length buf.old) result }
{
    let mut count = 0;
    while count < buf.len() {
        let rest = &mut buf[count..];
        let answer = again(clock, rest, |room| from.read(room));
        let got = told(answer, rest.len());
        if got.count == 0 {
            return Moved {
                count,
                end: got.end,
            };
        }
        count += got.count;
    }
    Moved { count, end: Ok(()) }
}
