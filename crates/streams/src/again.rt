// A call's answer, and when the call is made again.
ghost use Rattle.std.specs.Prelude.{◌≡◌, false, ◌≤◌, length, IsOk};
ghost use Rattle.std.specs.Fn.{CalledAtMut};
ghost use Rattle.streams.specs.Whole.{told_of};

use crate::Moved;
use crate::pause::pause;
use std::io;
use std::io::ErrorKind;
use std::time::Clock;

// How often a call is made again, each time after a pause, before its failure is taken for good: about a minute of pauses.
const MOST_PAUSES: u32 = 6000;

// Whether what a call just answered is a failure that may pass: a signal cut it off, or it would have had to wait. What moved anything never
// is: made again, it would move other bytes.
fn may_pass(answer: &io::Result<usize>) -> bool
    ensures { IsOk answer.now → result ≡ false }
{
    match answer {
        Ok(_) => false,
        Err(error) => matches!(error.kind(), ErrorKind::Interrupted | ErrorKind::WouldBlock),
    }
}

// A call that is lent room to fill, made again as long as its failure may pass. The answer is the last call's.
pub(crate) fn again<F: FnMut(&mut [u8]) -> io::Result<usize>>(
    clock: &impl Clock,
    room: &mut [u8],
    mut call: F,
) -> io::Result<usize>
    requires { F.IsAlwaysCallable call }
    ensures { (held : _) × (before : F) × (after : F) × CalledAtMut F.FnMut before held result after room.new }
{
    for _ in 0..MOST_PAUSES {
        let answer = call(room);
        if !may_pass(&answer) {
            return answer;
        }
        pause(clock);
    }
    call(room)
}

// What a call that was lent so many bytes answered, told apart: how many it moved, and how it ended.
pub(crate) fn told(answer: io::Result<usize>, lent: usize) -> Moved
    ensures value { result ≡ told_of answer lent }
    ensures count_in_bounds { result.count ≤ lent }
{
    match answer {
        Ok(n) => Moved {
            count: n.min(lent),
            end: Ok(()),
        },
        Err(error) => Moved {
            count: 0,
            end: Err(error),
        },
    }
}
