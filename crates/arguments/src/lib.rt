// What a program is asked, `PROGRAM [-f FILE] WORD ..`: its own words, the survey that it is handed, and where it says what it has to say.
// No contract can tell what an argument holds, so each says what follows whatever it holds.
#![tactic(auto)]

ghost use Rattle.std.specs.Prelude.{◌≡◌, true, ◌||◌, ◌≤◌, length};
ghost use Rattle.io.specs.Counts.{IsPrefixLen};
ghost use Rattle.streams.specs.Whole.{Written};
ghost use Rattle.figures.specs.Figures.{figure_of};
ghost use Rattle.said.specs.declared.Said.{Said};
ghost use Rattle.arguments.specs.Words.{Begins, longest_word, ReadFrom};

use figures::read_figure;
use said::{ERR_SIZE, Said};
use std::ops::Range;
use streams::{Moved, argument, argument_count, read_input, read_named, write_output, write_whole};
use survey::decode::LARGEST_FILE;

// Room to read a survey: one byte more than one may have tells that it is too long.
pub const SURVEY_ROOM: usize = LARGEST_FILE + 1;

// Which arguments are a program's own words, from `first` up to `end`, behind its name and `-f FILE`; and the argument that names the survey's file, if
// one does. Two ends and no `Range`, which is no `Copy`.
#[derive(Clone, Copy)]
pub struct Own {
    pub file: Option<usize>,
    pub first: usize,
    pub end: usize,
}

impl Own {
    pub fn words(self) -> Range<usize>
        ensures { (result.start ≡ self.first) × (result.end ≡ self.end) }
    {
        self.first..self.end
    }
}

// Whether argument i is this word. One that has no room here is not.
pub fn is_word(rt: &HostRuntime, i: usize, word: &[u8]) -> bool
    ensures { result ≡ true → length word.now ≤ longest_word }
{
    let mut text = [0u8; 16];
    let n = argument(rt, i, &mut text);
    &text[..n] == word
}

// The figure that argument i is. One that has no room here is none.
pub fn figure_at(rt: &HostRuntime, i: usize) -> Option<u32>
    ensures { ReadFrom figure_of result }
{
    let mut text = [0u8; 32];
    let n = argument(rt, i, &mut text);
    read_figure(&text[..n])
}

// Whether these arguments are figures, each of them.
pub fn are_figures(rt: &HostRuntime, mut words: Range<usize>) -> bool
    ensures { words.end ≤ words.start → result ≡ true }
{
    words.all(|i| figure_at(rt, i).is_some())
}

// Which words are the program's own. `-f` with nothing behind it names no file: it is one of them, and no program knows it.
pub fn own_words(rt: &HostRuntime) -> Own
    ensures { Begins result }
{
    let end = argument_count(rt);
    if 3 <= end && is_word(rt, 1, b"-f") {
        return Own {
            file: Some(2),
            first: 3,
            end,
        };
    }
    Own {
        file: None,
        first: 1,
        end,
    }
}

// Tells the program's use in place of all else: on standard output where `--help` is all that is asked, on standard error where the words
// are not right. Answers whether it did, which is before anything is read.
pub fn tells_use(rt: &HostRuntime, own: Own, right: bool, text: &[u8]) -> bool
    ensures { (result || right) ≡ true }
{
    if own.end == 2 && is_word(rt, 1, b"--help") {
        write_whole(rt, &mut rt.stdout(), text);
        return true;
    }
    if right {
        return false;
    }
    write_whole(rt, &mut rt.stderr(), text);
    true
}

// The survey, whole, from the file that is named or from standard input, as far as buf has room for it.
pub fn read_survey(rt: &HostRuntime, own: Own, buf: &mut [u8]) -> Moved
    ensures prefix_len { IsPrefixLen result.count buf.new }
    ensures buf_len_unchanged { length buf.new ≡ length buf.old }
{
    match own.file {
        Some(i) => read_named(rt, i, buf),
        None => read_input(rt, buf),
    }
}

// What is said, to standard output and then to standard error. Answers what came of the first.
// Two texts, since each goes to a stream of its own.
pub fn write_said(rt: &HostRuntime, out: &[u8], err: &[u8]) -> Moved
    ensures { Written (length out.now) result }
{
    let put = write_output(rt, out);
    write_whole(rt, &mut rt.stderr(), err);
    put
}

// What is said into `out`, for standard output, and into a memory of its own, for standard error: both are written. Answers what came of
// the first.
pub fn say<F: FnOnce(&mut [u8], &mut [u8]) -> Said>(
    rt: &HostRuntime,
    out: &mut [u8],
    text: F,
) -> Moved
    requires callable { F.IsAlwaysCallable text }
    requires within { (o e : _) (said : Said) (p f : _) → F.post text o e said p f → (said.out ≤ length p.now) × (said.err ≤ length f.now) }
    ensures { (o e : _) × (said : Said) × (p f : _) × F.post text o e said p f × (o.now ≡ out.old) × (p.now ≡ out.new) × Written said.out result }
{
    let mut err = [0u8; ERR_SIZE];
    let said = text(out, &mut err);
    write_said(rt, &out[..said.out], &err[..said.err])
}
