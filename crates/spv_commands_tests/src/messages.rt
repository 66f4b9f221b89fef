//! What the errors of the commands are shown as: each variant of each type.

use spv_builtin::GrammarError;
use spv_commands::{Trouble, UseError};
use spv_explain::Unread;
use spv_views::ViewError;
use std::alloc::{AllocError, Global};
use std::fmt::Display;
use std::test::Fail;

/// What they are shown as, a line each.
const MESSAGES: &str = "the words fit no command
a read or a write failed
the text is not UTF-8
out of memory
the id is no entry point's function, or the name that of no function
the id is the result of no function, or the name that of none
several functions have the name
the grammar names a kind that it does not have
the file could not be read
out of memory
a read or a write failed
the id is the result of no function, or the name that of none
several functions have the name
out of memory
the words fit no command
out of memory
help is asked for
the version is asked for
";

/// Adds the lines of some errors to a text.
fn show_each<E: Display>(
    alloc: Global,
    errors: &[E],
    lines: &mut String,
) -> Result<(), AllocError> {
    for error in errors {
        lines.push_str(format!(in alloc; "{error}\n")?.as_str())?;
    }
    Ok(())
}

/// Adds those of why a run ends with an error.
fn show_troubles(alloc: Global, lines: &mut String) -> Result<(), AllocError> {
    use Trouble::{File, Grammar, Memory, NoEntry, NoFunction, NotText, SeveralFunctions, Use};
    let troubles = &[
        Use,
        File,
        NotText,
        Memory,
        NoEntry,
        NoFunction,
        SeveralFunctions,
    ];
    show_each(alloc, troubles, lines)?;
    show_each(alloc, &[Grammar(GrammarError::J4)], lines)
}

/// Adds those of words of the command line.
fn show_uses(alloc: Global, lines: &mut String) -> Result<(), AllocError> {
    use UseError::{Help, Memory, NoCommand, Version};
    show_each(alloc, &[NoCommand, Memory, Help, Version], lines)
}

#[test]
fn messages(rt: HostRuntime) -> Result<(), Fail> {
    let alloc = rt.alloc();
    let mut lines = String::new(alloc);
    show_troubles(alloc, &mut lines)?;
    show_each(alloc, &[Unread::File, Unread::Memory], &mut lines)?;
    show_each(
        alloc,
        &[
            ViewError::Failed,
            ViewError::NoFunction,
            ViewError::SeveralFunctions,
            ViewError::Memory,
        ],
        &mut lines,
    )?;
    show_uses(alloc, &mut lines)?;
    assert!(rt; lines.as_str() == MESSAGES);
    Ok(())
}
