//! What is wrong with words that give no command, for people.
use crate::program::{all_words, command_named};
use clap::ArgMatches;
use clap::error::ErrorKind;
use spv_lines::push_plain;
use std::alloc::{AllocError, Global};

/// A word without its control characters: each byte of one as `\xNN`.
pub fn shown_word(alloc: Global, word: &str) -> Result<String, AllocError> {
    let mut text = String::new(alloc);
    push_plain(&mut text, word)?;
    Ok(text)
}

/// What is wrong with words that `clap` takes.
fn own_reason(matches: &ArgMatches<'_>) -> &'static str {
    let Some((name, _)) = matches.subcommand() else {
        return "the words fit no command";
    };
    match name {
        "check" | "explain" => {
            "`-` may be one FILE only, and neither --with-filename and --no-filename nor --as-1.6 and --opencl go together"
        }
        "trace" => {
            "N and those in LIST are decimal numbers below 4294967296, with a comma between two in LIST, and --as-1.6 and \
            --opencl do not go together"
        }
        "annotate" => {
            "WHEN is `auto`, `always` or `never`, and --as-1.6 and --opencl do not go together"
        }
        "show" | "graph" => "--as-1.6 and --opencl do not go together",
        "asm" => "OUT is FILE itself",
        "rules" => "no code has this name; `spv rules` writes all of them",
        _ => "the words fit no command",
    }
}

/// What `clap` says of words, without the word `error` and without the usage.
fn own_part(text: &str) -> &str {
    let part = match text.split_once("\n\nUsage:") {
        Some((part, _)) => part,
        None => text,
    };
    part.strip_prefix("error: ").unwrap_or(part)
}

/// What is wrong with these words.
fn reason_of(alloc: Global, words: &[&str]) -> Result<String, AllocError> {
    let program = all_words(alloc)?;
    match program.try_get_matches_from(words) {
        Ok(matches) => String::from_str(alloc, own_reason(&matches)),
        Err(error) => match error.kind() {
            ErrorKind::OutOfMemory => Err(AllocError),
            _ => {
                let text = format!(in alloc; "{error}")?;
                String::from_str(alloc, own_part(&text).trim_end())
            }
        },
    }
}

/// What is wrong with the words where `arguments` answers `NoCommand`, for people: a line or more that say which word
/// does not fit or what is missing, and the line `see: spv help`, with the command after it that the words begin with.
/// Each byte of a control character of a word is `\xNN`.
///
/// # Errors
///
/// Where a growth of memory was refused; there is no other.
pub fn advice(alloc: Global, words: &[&str]) -> Result<String, AllocError> {
    let mut shown: Vec<String> = Vec::new(alloc);
    for word in words {
        shown.push(shown_word(alloc, word)?)?;
    }
    let mut texts: Vec<&str> = Vec::new(alloc);
    for word in &shown {
        texts.push(word.as_str())?;
    }
    let mut text = reason_of(alloc, &texts)?;
    text.push_str("\nsee: spv help")?;
    if let Some(name) = command_named(&texts) {
        text.push_str(" ")?;
        text.push_str(name)?;
    }
    text.push_str("\n")?;
    Ok(text)
}
