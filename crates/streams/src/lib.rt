// Reading and writing the whole of something, by as many calls as it takes. A call that a signal cut off, or that would have had to wait, is
// made again for about a minute; a call that moves anything starts that minute anew. Any other failure ends it.
#![tactic(auto)]

mod again;
mod arguments;
mod fail;
mod pause;
mod read;
mod told;
mod write;

pub use arguments::{argument, argument_count};
use std::io;
pub use told::{read_input, read_named, write_output};
pub use write::write_whole;

// What it came to: how many bytes were moved, and whether that is all there was to move, or how the last call failed. A write that took nothing
// failed too.
#[derive(Clone, Copy)]
pub struct Moved {
    pub count: usize,
    pub end: io::Result<()>,
}
