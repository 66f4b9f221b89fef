//! What a command answers is written here.

use crate::files::{Made, STANDARD};
use crate::why::{AtHand, Noted, STANDARD_OUTPUT, Tried, Why};
use spv_commands::{Command, Output, Reply, Trouble, report};
use spv_words::{FromWrite, write_all};
use std::io::Stdout;

/// The standard output, whose failed writes are noted.
pub fn standard_output<'a, 'b>(
    rt: &HostRuntime,
    why: &'b Why<'a>,
) -> FromWrite<Noted<'a, 'b, Stdout>> {
    FromWrite::new(Noted::new(rt.stdout(), STANDARD_OUTPUT, Tried::Write, why))
}

/// The exit status of a program whose standard output nobody reads any more: that of one that the signal SIGPIPE (13)
/// ended.
const CLOSED: u8 = 128 + 13;

/// Writes the line of a trouble, and after it why, where that is told: the exit status. Where nobody reads the standard
/// output any more, nothing is told.
pub fn report_why(
    rt: &HostRuntime,
    why: &Why<'_>,
    trouble: Trouble,
    at_hand: AtHand<'_, '_>,
) -> u8 {
    if why.is_closed() {
        return CLOSED;
    }
    report(trouble, &mut FromWrite::new(rt.stderr()));
    why.tell(trouble, at_hand, &mut rt.stderr());
    2
}

/// Writes what is told to the standard output, and nothing where that is asked for: whether it was written. Where a
/// module goes there, the line of a fault goes to the standard error.
fn write_output(rt: &HostRuntime, why: &Why<'_>, command: &Command<'_>, output: &Output) -> bool {
    match command {
        Command::Judge { quiet: true, .. } => true,
        Command::Asm { out, .. } if *out == STANDARD => {
            output.write(&mut FromWrite::new(rt.stderr())).is_ok()
        }
        _ => output.write(&mut standard_output(rt, why)).is_ok(),
    }
}

/// Writes the bytes of a module that is made, to a file or to the standard output: whether all were written.
fn write_module<'a>(rt: &HostRuntime, why: &Why<'a>, command: &Command<'a>, bytes: &[u8]) -> bool {
    let Command::Asm { out, .. } = command else {
        return true;
    };
    if *out == STANDARD {
        return write_all(bytes, &mut standard_output(rt, why)).is_ok();
    }
    let made = Noted::new(Made::new(rt, *out), *out, Tried::Write, why);
    write_all(bytes, &mut FromWrite::new(made)).is_ok()
}

/// Writes what a command comes to: whether all of it was written.
fn is_written<'a>(rt: &HostRuntime, why: &Why<'a>, command: &Command<'a>, reply: &Reply) -> bool {
    match reply {
        Reply::Done(output) => write_output(rt, why, command, output),
        Reply::Fault(output) => write_output(rt, why, command, output),
        Reply::Made(bytes) => write_module(rt, why, command, bytes),
    }
}

/// The exit status of what is written.
fn status_of(reply: &Reply) -> u8 {
    match reply {
        Reply::Fault(_) => 1,
        Reply::Done(_) | Reply::Made(_) => 0,
    }
}

/// Writes what a command comes to: the exit status.
pub fn write_answer<'a>(
    rt: &HostRuntime,
    why: &Why<'a>,
    command: &Command<'a>,
    reply: &Reply,
) -> Result<u8, Trouble> {
    if is_written(rt, why, command, reply) {
        Ok(status_of(reply))
    } else {
        Err(Trouble::File)
    }
}
