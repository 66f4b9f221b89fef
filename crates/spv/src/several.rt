//! Several modules, one after the other.

use crate::files::{module_bytes, open};
use crate::why::{AtHand, Why};
use crate::writing::{report_why, standard_output};
use spv_commands::{
    Command, Judging, Naming, Part, Table, Telling, Trouble, judge_file, table_in, tell,
};
use spv_words::{FromWrite, write_all};
use std::mem::forget;

/// How a verdict of several files is told, or of one whose name is asked for.
fn telling_by(naming: Naming, json: bool) -> Telling {
    if json {
        return Telling::Json;
    }
    match naming {
        Naming::Never => Telling::Bare,
        Naming::OfSeveral | Naming::Always => Telling::Named,
    }
}

/// How a command has each of several modules judged, if it does. An object of JSON tells the name of its file, of one
/// file too.
pub fn judging_of(command: &Command) -> Option<Judging> {
    match command {
        Command::Judge {
            task,
            files,
            scope,
            naming,
            json,
            ..
        } if files.len() != 1 || *naming == Naming::Always || *json => Some(Judging {
            task: *task,
            scope: *scope,
            telling: telling_by(*naming, *json),
        }),
        _ => None,
    }
}

/// All the bytes of the module of this name, or so many that it is none.
fn module_of<'a>(rt: &HostRuntime, why: &Why<'a>, name: &'a str) -> Result<Vec<u8>, Trouble> {
    let input = open(rt, why, name)?;
    module_bytes(rt.alloc(), why, name, input)
}

/// Tells why a file was not judged, where no such write failed before: whether none has.
fn tell_trouble(
    rt: &HostRuntime,
    why: &Why<'_>,
    name: &str,
    trouble: Trouble,
    sound: bool,
) -> bool {
    let heard = tell(name, Some(trouble), sound, &mut FromWrite::new(rt.stderr()));
    if heard {
        why.tell(trouble, AtHand::of(None), &mut rt.stderr());
    }
    heard
}

/// Writes what is written of a file: whether that was done.
fn write_part(rt: &HostRuntime, why: &Why<'_>, part: &Part, quiet: bool) -> bool {
    quiet || write_all(part.text.as_slice(), &mut standard_output(rt, why)).is_ok()
}

/// Judges each of several files by a table, and answers the exit status.
fn judge_each<'a>(
    rt: &HostRuntime,
    why: &Why<'a>,
    how: Judging,
    table: &Table,
    names: &[&'a str],
    quiet: bool,
) -> u8 {
    let mut status = 0u8;
    let mut sound = true;
    for name in names {
        let file = module_of(rt, why, *name);
        let part = judge_file(rt.alloc(), how, table, *name, file);
        status = status.max(part.status);
        if let Some(trouble) = part.trouble {
            sound = tell_trouble(rt, why, *name, trouble, sound);
        }
        if !write_part(rt, why, &part, quiet) {
            return if sound {
                report_why(rt, why, Trouble::File, AtHand::of(None))
            } else {
                2
            };
        }
    }
    status
}

/// Judges each of the modules of a command, in order, and answers the exit status.
pub fn judge_several<'a>(
    rt: &HostRuntime,
    why: &Why<'a>,
    command: &Command<'a>,
    how: Judging,
    grammar: Option<&[u8]>,
) -> Result<u8, Trouble> {
    let Command::Judge { files, quiet, .. } = command else {
        return Err(Trouble::Use);
    };
    let table = match table_in(rt.alloc(), grammar) {
        Ok(table) => table,
        Err(trouble) => return Ok(report_why(rt, why, trouble, AtHand::of(grammar))),
    };
    let status = judge_each(rt, why, how, &table, files, *quiet);
    // The process ends soon, which gives back its memory at once.
    forget(table);
    Ok(status)
}
