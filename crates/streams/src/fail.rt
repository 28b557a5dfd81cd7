// Telling a failure: whose it is, and what the system says of it.
ghost use Rattle.io.specs.Counts.{IsPrefixLen};

use crate::write::write_whole;
use std::io;
use std::io::{Cursor, Write};

// What stands in an error's text behind the system's own words.
const BEHIND: &[u8] = b" (os error ";

// Puts an error's text at the start of text, and gives its length; that of one with no room is 0.
fn put_text(text: &mut [u8], error: io::Error) -> usize {
    let mut to = Cursor::new(text);
    if write!(to, "{error}").is_err() {
        return 0;
    }
    to.position() as usize
}

// Where the system's own words end in a text of so many bytes.
fn words_end(text: &[u8], written: usize) -> usize
    ensures { IsPrefixLen result text.now }
{
    let most = written.min(text.len());
    (0..most)
        .find(|at| text[*at..].starts_with(BEHIND))
        .unwrap_or(most)
}

// A line on standard error: a name, and the words.
pub(crate) fn fail(rt: &HostRuntime, name: &[u8], error: io::Error) {
    let mut text = [0u8; 256];
    let written = put_text(&mut text, error);
    let end = words_end(&text, written);
    for part in [name, b": ", &text[..end], b"\n"] {
        write_whole(rt, &mut rt.stderr(), part);
    }
}
