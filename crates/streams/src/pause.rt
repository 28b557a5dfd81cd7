// Waiting before a call is made again.
use std::thread;
use std::time::{Clock, Duration};

// Ten milliseconds; a signal does not cut them short.
pub(crate) fn pause(clock: &impl Clock) {
    thread::sleep(clock, Duration::from_millis(10));
}
