// What can be asked of a table, and the line that is said to each figure.
ghost use Rattle.std.specs.Prelude.{◌<◌, ◌≤◌, IsNone};

use arguments::{are_figures, figure_at, is_word, say};
use refusal::Refusal;
use report::lookups::{delivered_said, height_said, litres_said};
use said::LINE_SIZE;
use std::ops::Range;
use survey_lookup::Tabled;

#[derive(Clone, Copy, PartialEq, Eq)]
pub enum Command {
    Litres,
    Height,
    Delivered,
}

// The command that argument i is, if it is one.
fn command_at(rt: &HostRuntime, i: usize) -> Option<Command> {
    if is_word(rt, i, b"litres") {
        return Some(Command::Litres);
    }
    if is_word(rt, i, b"height") {
        return Some(Command::Height);
    }
    if is_word(rt, i, b"delivered") {
        return Some(Command::Delivered);
    }
    None
}

// The command that stands before these arguments, if they are figures as it takes them: delivered takes two, the others any number but none.
pub fn asked(rt: &HostRuntime, command: usize, figures: Range<usize>) -> Option<Command>
    ensures { figures.end ≤ figures.start → IsNone result }
{
    let command = command_at(rt, command)?;
    let right = match command {
        Command::Delivered => figures.len() == 2,
        _ => !figures.is_empty(),
    };
    (right && are_figures(rt, figures)).then_some(command)
}

// The hundredths of argument i; 0 where it is no figure.
fn hundredths_at(rt: &HostRuntime, i: usize) -> u32 {
    figure_at(rt, i).unwrap_or(0)
}

// Says the line to the figure that argument i is; for what was delivered, the second figure is the next argument. Answers whether the line
// could be written.
fn tell(rt: &HostRuntime, command: Command, t: Result<Tabled, Refusal>, i: usize) -> bool
    requires { i < usize.MAX }
{
    let asked = hundredths_at(rt, i);
    // One match, and no function that is handed on: delivered takes a figure more than the others.
    say(rt, &mut [0u8; LINE_SIZE], |out, err| match command {
        Command::Litres => litres_said(t, asked, out, err),
        Command::Height => height_said(t, asked, out, err),
        Command::Delivered => delivered_said(t, asked, hundredths_at(rt, i + 1), out, err),
    })
    .end
    .is_ok()
}

// A line for each figure, which are these arguments, up to the first that could not be written. A survey that is refused is told once,
// whatever was asked, and so is what was delivered between two figures.
pub fn tell_each(
    rt: &HostRuntime,
    command: Command,
    t: Result<Tabled, Refusal>,
    figures: Range<usize>,
) {
    // Not `in figures`: over two bounds it is known that i is below the last.
    for i in figures.start..figures.end {
        if !tell(rt, command, t, i) {
            return;
        }
        if t.is_err() || command == Command::Delivered {
            return;
        }
    }
}
