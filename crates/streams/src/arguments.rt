// The program's arguments as bytes, of which argument 0 is its own name.
ghost use Rattle.io.specs.Counts.{IsPrefixLen};

use std::env::{Env, FillError};

// Copies argument i to the start of buf and gives its length. One that is not there, or has no room, is empty.
pub fn argument<E: Env>(env: &E, i: usize, buf: &mut [u8]) -> usize
    ensures { IsPrefixLen result buf.new }
{
    env.arg(i, buf).unwrap_or(0)
}

// How many there are, with the program's own name.
// Nothing is ensured: `Env` promises nothing of how many there are, and any number may be right.
pub fn argument_count<E: Env>(env: &E) -> usize {
    (0..usize::MAX)
        .find(|i| matches!(env.arg(*i, &mut []), Err(FillError::NotPresent)))
        .unwrap_or(usize::MAX)
}
