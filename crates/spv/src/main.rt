//! `spv` checks, explains, shows, annotates, draws, assembles and traces SPIR-V 1.6 kernel modules, and tells its rules
//! and its grammar: it reads its files, asks for the answer, and writes that.
#![tactic(auto)]

mod files;
mod several;
mod why;
mod words;
mod writing;

use files::{STANDARD, is_same_file, make_if_absent, module_bytes, open, open_file, text_bytes};
use several::{judge_several, judging_of};
use spv_commands::{
    Command, Trouble, UseError, answer, arguments_in, is_verbose, refusal_help, report,
};
use spv_words::FromWrite;
use std::alloc::AllocError;
use std::io::{IsTerminal, Write};
use std::process::ExitCode;
use why::{AtHand, Why};
use words::{
    grammar_of_environment, is_verbose_by_environment, push_texts, push_words, settle_color,
    settle_task, show_text, tell_use,
};
use writing::{report_why, write_answer};

/// The path of the grammar file that a command names, if it names one.
fn grammar_path<'a>(command: &Command<'a>) -> Option<&'a str> {
    match command {
        Command::Judge { grammar, .. }
        | Command::Show { grammar, .. }
        | Command::Asm { grammar, .. }
        | Command::Trace { grammar, .. }
        | Command::Annotate { grammar, .. }
        | Command::Graph { grammar, .. } => *grammar,
        Command::Grammar { file } => *file,
        Command::Rules { .. } => None,
    }
}

/// The text of the grammar file that a command names, if it names one. FILE of `grammar` may be the standard input.
fn grammar_of<'a>(
    rt: &HostRuntime,
    why: &Why<'a>,
    command: &Command<'a>,
) -> Result<Option<Vec<u8>>, Trouble> {
    let Some(name) = grammar_path(command) else {
        return Ok(None);
    };
    let input = match command {
        Command::Grammar { .. } => open(rt, why, name)?,
        _ => open_file(rt, why, name)?,
    };
    Ok(Some(text_bytes(rt.alloc(), why, name, input)?))
}

/// The path of the one file that a command reads, if it reads one.
fn path_of<'a>(command: &Command<'a>) -> Option<&'a str> {
    match command {
        Command::Judge { files, .. } => files.first().copied(),
        Command::Show { file, .. }
        | Command::Asm { file, .. }
        | Command::Trace { file, .. }
        | Command::Annotate { file, .. }
        | Command::Graph { file, .. } => Some(*file),
        Command::Rules { .. } | Command::Grammar { .. } => None,
    }
}

/// What the file of a command gave. One that does not open ends the run at once.
fn file_of<'a>(
    rt: &HostRuntime,
    why: &Why<'a>,
    command: &Command<'a>,
) -> Result<Result<Vec<u8>, Trouble>, Trouble> {
    let Some(name) = path_of(command) else {
        return Ok(Ok(Vec::new(rt.alloc())));
    };
    let input = open(rt, why, name)?;
    Ok(match command {
        Command::Asm { .. } => text_bytes(rt.alloc(), why, name, input),
        _ => module_bytes(rt.alloc(), why, name, input),
    })
}

/// A copy of the bytes of a module whose entry points may have to be told: none where memory is short.
fn kept_of(
    rt: &HostRuntime,
    why: &Why<'_>,
    command: &Command<'_>,
    file: &Result<Vec<u8>, Trouble>,
) -> Option<Vec<u8>> {
    match (command, file) {
        (Command::Trace { .. }, Ok(bytes)) if why.is_told() => {
            Vec::from_slice(rt.alloc(), bytes).ok()
        }
        _ => None,
    }
}

/// What helps where the file of a command is no module: nothing where nothing is told, or memory is short.
fn help_of(
    rt: &HostRuntime,
    why: &Why<'_>,
    command: &Command<'_>,
    file: &Result<Vec<u8>, Trouble>,
) -> Option<String> {
    match file {
        Ok(bytes) if why.is_told() => refusal_help(rt.alloc(), command, bytes).ok(),
        _ => None,
    }
}

/// The name of the text that a command reads, if it reads one.
fn text_of<'a>(command: &Command<'a>) -> Option<&'a str> {
    match command {
        Command::Asm { file, .. } => Some(*file),
        _ => None,
    }
}

/// Makes the file that `asm` was to make, where it made none, there is none and no call of the system failed.
fn leave_made(rt: &HostRuntime, why: &Why<'_>, command: &Command<'_>, status: u8) {
    if let Command::Asm { out, .. } = command {
        if status != 0 && *out != STANDARD && !why.has_failed() {
            make_if_absent(rt, out);
        }
    }
}

/// Tells a trouble, where there was one, and leaves the file that was to be made: the exit status.
fn status_after(
    rt: &HostRuntime,
    why: &Why<'_>,
    command: &Command<'_>,
    written: Result<u8, Trouble>,
    at_hand: AtHand<'_, '_>,
) -> u8 {
    let status = match written {
        Ok(status) => status,
        Err(trouble) => report_why(rt, why, trouble, at_hand),
    };
    leave_made(rt, why, command, status);
    status
}

/// Tells what helps behind a fault.
fn tell_help(rt: &HostRuntime, status: u8, help: Option<String>) {
    if let (1, Some(help)) = (status, help) {
        let _ = rt.stderr().write_all(help.as_bytes());
    }
}

/// Reads the file of a command, answers it, and writes that: the exit status.
fn answer_one<'a>(
    rt: &HostRuntime,
    why: &Why<'a>,
    command: &Command<'a>,
    grammar: Option<&[u8]>,
) -> Result<u8, Trouble> {
    let file = file_of(rt, why, command)?;
    let kept = kept_of(rt, why, command, &file);
    let help = help_of(rt, why, command, &file);
    let at_hand = AtHand {
        text: text_of(command),
        grammar,
        module: match &kept {
            Some(bytes) => Some(bytes.as_slice()),
            None => None,
        },
    };
    let written = match answer(rt.alloc(), command, grammar, file) {
        Ok(reply) => write_answer(rt, why, command, &reply),
        Err(trouble) => Err(trouble),
    };
    let status = status_after(rt, why, command, written, at_hand);
    tell_help(rt, status, help);
    Ok(status)
}

/// Whether a command would write the file that it reads.
fn is_destroying(rt: &HostRuntime, command: &Command) -> bool {
    match command {
        Command::Asm { file, out, .. } => *out != STANDARD && is_same_file(rt, file, out),
        _ => false,
    }
}

/// Reads the grammar file of a command, does what it asks, and answers the exit status.
fn with_command<'a>(rt: &HostRuntime, why: &Why<'a>, command: &Command<'a>) -> Result<u8, Trouble> {
    if is_destroying(rt, command) {
        return Err(Trouble::Use);
    }
    let grammar = grammar_of(rt, why, command)?;
    let grammar = match &grammar {
        Some(bytes) => Some(bytes.as_slice()),
        None => None,
    };
    match judging_of(command) {
        Some(how) => judge_several(rt, why, command, how, grammar),
        None => answer_one(rt, why, command, grammar),
    }
}

/// Does what the words ask, and answers the exit status.
fn with_texts<'a>(
    rt: &HostRuntime,
    why: &Why<'a>,
    texts: &'a [&'a str],
    environment: Option<&'a str>,
) -> Result<u8, Trouble> {
    match arguments_in(rt.alloc(), texts, environment) {
        Ok(mut command) => {
            if let (Some(path), Some(named)) = (environment, grammar_path(&command)) {
                if path == named {
                    why.note_environment(named);
                }
            }
            settle_color(rt, &mut command);
            settle_task(&mut command);
            with_command(rt, why, &command)
        }
        Err(UseError::NoCommand) => Err(Trouble::Use),
        Err(UseError::Memory) => Err(Trouble::Memory),
        Err(UseError::Help | UseError::Version) => show_text(rt, why, texts),
    }
}

/// The words without a `--verbose` in front of the command, where it stands there alone.
fn after_verbose<'a, 'b>(texts: &'b [&'a str]) -> &'b [&'a str] {
    match texts {
        [first, rest @ ..] if *first == "--verbose" && !is_verbose(rest) => rest,
        _ => texts,
    }
}

/// Does what the words ask, tells where that is not done, and answers the exit status.
fn status_of(rt: &HostRuntime, texts: &[&str], environment: Option<&str>) -> u8 {
    let is_told = is_verbose(texts) || is_verbose_by_environment(rt) || rt.stderr().is_terminal();
    let why = Why::new(rt.alloc(), is_told);
    match with_texts(rt, &why, after_verbose(texts), environment) {
        Ok(status) => status,
        Err(trouble) => {
            let status = report_why(rt, &why, trouble, AtHand::of(None));
            if is_told && matches!(trouble, Trouble::Use) {
                tell_use(rt, texts);
            }
            status
        }
    }
}

/// Tells a trouble of reading the words: the exit status.
fn refuse(rt: &HostRuntime, trouble: Trouble) -> u8 {
    report(trouble, &mut FromWrite::new(rt.stderr()));
    2
}

/// Does what the words of the command line ask, and answers the exit status.
fn with_words(rt: &HostRuntime, words: &[String]) -> u8 {
    let mut texts: Vec<&str> = Vec::new(rt.alloc());
    if let Err(trouble) = push_texts(words, &mut texts) {
        return refuse(rt, trouble);
    }
    match grammar_of_environment(rt) {
        Ok(Some(path)) => status_of(rt, &texts, Some(path.as_str())),
        Ok(None) => status_of(rt, &texts, None),
        Err(trouble) => refuse(rt, trouble),
    }
}

fn main(rt: HostRuntime) -> ExitCode {
    let mut words: Vec<String> = Vec::new(rt.alloc());
    let status = match push_words(&rt, &mut words) {
        Ok(()) => with_words(&rt, &words),
        Err(AllocError) => refuse(&rt, Trouble::Memory),
    };
    ExitCode::from(status)
}
