// Standard input, a named file and standard output, whose failures are told on standard error: whose they are, and the system's text.
ghost use Rattle.std.specs.Prelude.{◌≡◌, length};
ghost use Rattle.io.specs.Counts.{IsPrefixLen};
ghost use Rattle.streams.specs.Whole.{Written};

use crate::Moved;
use crate::fail::fail;
use crate::read::read_whole;
use crate::write::write_whole;
use std::env::{Env, FillError};
use std::fs::File;
use std::io::Read;
use std::{io, str};

// The longest name of a file, as the system counts it.
const PATH_MAX: usize = 4096;

// The system's numbers for a name that is too long, for an argument that is not there, and for bytes that are no text.
// Not std's `ErrorKind`: that is told in std's own words, and a number in the system's.
const NAME_TOO_LONG: i32 = 36;

const INVALID_ARGUMENT: i32 = 22;

const NO_TEXT: i32 = 84;

// Tells how it ended, by a name, where that is a failure.
fn tell_end(rt: &HostRuntime, name: &[u8], end: io::Result<()>) {
    if let Err(error) = end {
        fail(rt, name, error);
    }
}

// Tells why nothing was read, by a name.
fn nothing(rt: &HostRuntime, name: &[u8], error: io::Error) -> Moved
    ensures { result.count ≡ 0 }
{
    fail(rt, name, error);
    Moved {
        count: 0,
        end: Err(error),
    }
}

// A read that was told of, where it failed, by a name.
fn read_told<R: Read>(rt: &HostRuntime, from: &mut R, name: &[u8], buf: &mut [u8]) -> Moved
    ensures prefix_len { IsPrefixLen result.count buf.new }
    ensures buf_len_unchanged { length buf.new ≡ length buf.old }
{
    let got = read_whole(rt, from, buf);
    tell_end(rt, name, got.end);
    got
}

// All of standard input, as far as buf has room for it.
pub fn read_input(rt: &HostRuntime, buf: &mut [u8]) -> Moved
    ensures prefix_len { IsPrefixLen result.count buf.new }
    ensures buf_len_unchanged { length buf.new ≡ length buf.old }
{
    read_told(rt, &mut rt.stdin(), b"standard input", buf)
}

// The file of a name. A name that is no text in UTF-8 can't be opened.
fn opened(rt: &HostRuntime, name: &[u8]) -> io::Result<File> {
    let path = str::from_utf8(name).map_err(|_| io::Error::from_raw_os_error(NO_TEXT))?;
    File::open(rt, path)
}

// All of the file of a name, as far as buf has room for it.
fn read_file(rt: &HostRuntime, name: &[u8], buf: &mut [u8]) -> Moved
    ensures prefix_len { IsPrefixLen result.count buf.new }
    ensures buf_len_unchanged { length buf.new ≡ length buf.old }
{
    match opened(rt, name) {
        Ok(mut file) => read_told(rt, &mut file, name, buf),
        Err(error) => nothing(rt, name, error),
    }
}

// All of the file that argument i of the program names, as far as buf has room for it.
pub fn read_named(rt: &HostRuntime, i: usize, buf: &mut [u8]) -> Moved
    ensures prefix_len { IsPrefixLen result.count buf.new }
    ensures buf_len_unchanged { length buf.new ≡ length buf.old }
{
    let mut name = [0u8; PATH_MAX];
    let number = match rt.arg(i, &mut name) {
        Ok(n) => return read_file(rt, &name[..n], buf),
        Err(FillError::TooLong) => NAME_TOO_LONG,
        Err(FillError::NotPresent) => INVALID_ARGUMENT,
    };
    nothing(rt, b"-f FILE", io::Error::from_raw_os_error(number))
}

// All of a text to standard output.
pub fn write_output(rt: &HostRuntime, bytes: &[u8]) -> Moved
    ensures { Written (length bytes.now) result }
{
    let put = write_whole(rt, &mut rt.stdout(), bytes);
    tell_end(rt, b"standard output", put.end);
    put
}
