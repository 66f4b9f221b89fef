//! The words of the command line and of the environment, and what is told of words that are not understood.

use crate::why::Why;
use crate::writing::standard_output;
use spv_commands::{Color, Command, Task, Trouble, advice, help, text_asked};
use spv_words::write_all;
use std::alloc::{AllocError, Global};
use std::env;
use std::env::{Env, FillError, VarError};
use std::io::{IsTerminal, Write};

/// How many bytes a word is read with at first.
const FEW: usize = 256;

/// So many bytes of room.
fn room(alloc: Global, size: usize) -> Result<Vec<u8>, AllocError> {
    let mut bytes = Vec::new(alloc);
    bytes.resize(size, 0u8)?;
    Ok(bytes)
}

/// The bytes of the word of the command line of that number; none where it has no more words.
fn word_bytes(rt: &HostRuntime, number: usize) -> Result<Option<Vec<u8>>, AllocError> {
    let mut size = FEW;
    for _ in 0..usize::BITS {
        let mut bytes = room(rt.alloc(), size)?;
        match rt.arg(number, bytes.as_mut_slice()) {
            Ok(count) => {
                bytes.truncate(count);
                return Ok(Some(bytes));
            }
            Err(FillError::NotPresent) => return Ok(None),
            Err(FillError::TooLong) => size = size.saturating_mul(2),
        }
    }
    Err(AllocError)
}

/// A word that is no text, as one: what is not UTF-8 is U+0000. No file's name has that, so that no other file is taken
/// for the one that is named.
fn marked(alloc: Global, bytes: &[u8]) -> Result<String, AllocError> {
    let mut text = String::new(alloc);
    for chunk in bytes.utf8_chunks() {
        text.push_str(chunk.valid())?;
        if !chunk.invalid().is_empty() {
            text.push('\0')?;
        }
    }
    Ok(text)
}

/// A word as a text.
fn text_of(alloc: Global, bytes: Vec<u8>) -> Result<String, AllocError> {
    match String::from_utf8(bytes) {
        Ok(text) => Ok(text),
        Err(error) => marked(alloc, error.as_bytes()),
    }
}

/// Adds the words of the command line after the program's name.
pub fn push_words(rt: &HostRuntime, words: &mut Vec<String>) -> Result<(), AllocError> {
    for number in 1..usize::MAX {
        let Some(bytes) = word_bytes(rt, number)? else {
            return Ok(());
        };
        words.push(text_of(rt.alloc(), bytes)?)?;
    }
    Ok(())
}

/// Adds each word as a text.
pub fn push_texts<'a>(words: &'a [String], texts: &mut Vec<&'a str>) -> Result<(), Trouble> {
    for word in words {
        if texts.push(word.as_str()).is_err() {
            return Err(Trouble::Memory);
        }
    }
    Ok(())
}

/// The path of a grammar file that the environment names. In place of one that is no text it is an empty one, which no
/// file has, so that another grammar is not taken for the one that is named.
pub fn grammar_of_environment(rt: &HostRuntime) -> Result<Option<String>, Trouble> {
    match env::var(rt, "SPV_GRAMMAR") {
        Ok(path) => Ok(Some(path)),
        Err(VarError::NotPresent) => Ok(None),
        Err(VarError::NotUnicode) => Ok(Some(String::new(rt.alloc()))),
        Err(VarError::OutOfMemory) => Err(Trouble::Memory),
    }
}

/// Whether the environment asks for what `--verbose` does: SPV_VERBOSE is set, is not empty and is not 0.
pub fn is_verbose_by_environment(rt: &HostRuntime) -> bool {
    match env::var(rt, "SPV_VERBOSE") {
        Ok(text) => !text.is_empty() && text.as_str() != "0",
        Err(_) => false,
    }
}

/// Whether the environment asks for no colour: NO_COLOR is set and is not empty.
fn forbids_color(rt: &HostRuntime) -> bool {
    match env::var(rt, "NO_COLOR") {
        Ok(text) => !text.is_empty(),
        Err(VarError::NotPresent) => false,
        Err(_) => true,
    }
}

/// Settles whether a text has colour where its words leave that open: on a terminal, unless the environment asks for
/// none.
pub fn settle_color(rt: &HostRuntime, command: &mut Command<'_>) {
    if let Command::Annotate { color, .. } = command {
        if *color == Color::Auto && rt.stdout().is_terminal() && !forbids_color(rt) {
            *color = Color::Always;
        }
    }
}

/// Has a module only checked where nothing is told of its verdict: the exit status is that of one that is explained.
pub fn settle_task(command: &mut Command<'_>) {
    if let Command::Judge {
        task,
        quiet: true,
        ..
    } = command
    {
        *task = Task::Check;
    }
}

/// Prints the help or the version that the words ask for, and answers the exit status.
pub fn show_text(rt: &HostRuntime, why: &Why<'_>, words: &[&str]) -> Result<u8, Trouble> {
    let Ok(text) = text_asked(rt.alloc(), words) else {
        return Err(Trouble::Memory);
    };
    match write_all(text.as_bytes(), &mut standard_output(rt, why)) {
        Ok(()) => Ok(0),
        Err(_) => Err(Trouble::File),
    }
}

/// Tells what is wrong with words, for people: nothing where memory is short. No words at all ask for the help.
pub fn tell_use(rt: &HostRuntime, texts: &[&str]) {
    let text = if texts.is_empty() {
        help(rt.alloc())
    } else {
        advice(rt.alloc(), texts)
    };
    if let Ok(text) = text {
        let _ = rt.stderr().write_all(text.as_bytes());
    }
}
