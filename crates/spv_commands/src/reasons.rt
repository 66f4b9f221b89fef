//! What is told to people behind the line of an error. Nothing is promised of its words.
ghost use Rattle.std.specs.Prelude.{◌≤◌, ◌+◌, length};

use crate::asked::scope_of;
use crate::replying::{image_in, take_as};
use simdutf8::basic::from_utf8;
use spv_command_line::{Command, Task, shown_word};
use spv_facts::{front_of, help_for};
use spv_module::opcode;
use spv_words::{Image, WordError, image_of, replace_version, word};
use std::alloc::{AllocError, Global};

/// Adds the id of an entry point's function.
fn push_function(alloc: Global, out: &mut String, id: u32) -> Result<(), AllocError> {
    let text = format!(in alloc; "entry point: {id} ")?;
    out.push_str(&text)
}

/// Adds the name of an entry point, and ends its line.
fn push_name(alloc: Global, out: &mut String, name: &str) -> Result<(), AllocError> {
    let text = shown_word(alloc, name)?;
    out.push_str(&text)?;
    out.push_str("\n")
}

/// The text at the front of octets, up to a zero octet. Empty where it is none.
fn text_at(octets: &[u8]) -> &str {
    let Some(size) = octets.iter().position(|octet| *octet == 0) else {
        return "";
    };
    match from_utf8(&octets[..size]) {
        Ok(text) => text,
        Err(_) => "",
    }
}

/// Adds a line for the OpEntryPoint whose words these are: the first, the execution model, the id of the function, and
/// the name.
fn push_entry(
    alloc: Global,
    out: &mut String,
    image: &Image,
    at: u32,
    end: u32,
) -> Result<(), AllocError>
    requires order { at + 3 ≤ end }
    requires within { end ≤ length image.now }
{
    let _words = image.len();
    push_function(alloc, out, word(image, at + 2))?;
    let name = &image.octets()[(at as usize + 3) * 4..end as usize * 4];
    push_name(alloc, out, text_at(name))
}

/// Adds a line for each OpEntryPoint of the valid module that these words are. They need not be decoded again: each
/// instruction tells how many words it takes.
fn push_entries(alloc: Global, out: &mut String, image: &Image) -> Result<(), AllocError> {
    let end = image.len();
    let mut at: u32 = 5;
    while at < end {
        let first = word(image, at);
        let size = first / 65536;
        if size == 0 || size > end - at {
            return Ok(());
        }
        if first % 65536 == u32::from(opcode::ENTRY_POINT) && size > 3 {
            push_entry(alloc, out, image, at, at + size)?;
        }
        at += size;
    }
    Ok(())
}

/// The entry points of the valid module of these bytes, a line each: the id of its function, and its name.
///
/// # Errors
///
/// Where a growth of memory was refused; there is no other.
pub fn entry_points(alloc: Global, bytes: &[u8]) -> Result<String, AllocError> {
    let mut out = String::new(alloc);
    let mut bytes = Vec::from_slice(alloc, bytes)?;
    replace_version(&mut bytes);
    match image_in(bytes) {
        Ok((image, _)) => push_entries(alloc, &mut out, &image)?,
        Err(WordError::W9) => return Err(AllocError),
        Err(_) => {}
    }
    Ok(out)
}

/// Whether a command writes the verdict line alone where it is a fault, and so tells nothing of what helps.
fn is_terse(command: &Command) -> bool {
    match command {
        Command::Judge { task, quiet, .. } => *task == Task::Check && !*quiet,
        Command::Show { .. }
        | Command::Annotate { .. }
        | Command::Graph { .. }
        | Command::Trace { .. } => true,
        Command::Asm { .. } | Command::Rules { .. } | Command::Grammar { .. } => false,
    }
}

/// What helps where the bytes of its file are none of a module, as a command takes them: the line of the key `help`
/// that `explain` writes, where it writes one. Nothing of a command that writes that line itself, or no verdict.
///
/// # Errors
///
/// Where a growth of memory was refused; there is no other.
pub fn refusal_help(alloc: Global, command: &Command, bytes: &[u8]) -> Result<String, AllocError> {
    let mut out = String::new(alloc);
    if !is_terse(command) {
        return Ok(out);
    }
    let mut bytes = Vec::from_slice(alloc, bytes)?;
    take_as(scope_of(command), &mut bytes);
    match image_of(alloc, &bytes) {
        Ok(_) => {}
        Err(WordError::W9) => return Err(AllocError),
        Err(code) => {
            if let Some(text) = help_for(code, front_of(&bytes)) {
                out.push_str("help: ")?;
                out.push_str(text)?;
                out.push_str("\n")?;
            }
        }
    }
    Ok(out)
}
