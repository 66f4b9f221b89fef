//! Why a run ends with an error, and the line that tells it.
ghost use Rattle.std.specs.Prelude.{◌≡◌};
ghost use Rattle.spv_commands.specs.Trouble as specs;
ghost use Rattle.spv_commands.specs.Trouble.{Gets, grammar_text, trouble_text};

use spv_explain::Unread;
use spv_grammar::GrammarError;
use spv_words::{Failed, Sink, write_all};
use std::alloc::AllocError;
use thiserror::Error;

/// Why nothing is answered, or not all of an answer was written: the program ends with the exit status 2 (own).
/// `report` writes its line.
#[derive(Clone, Copy, Debug, Drop, Error, PartialEq, Eq)]
pub enum Trouble {
    /// The words of the command line fit no command: `error use`.
    #[error("the words fit no command")]
    Use,
    /// A file does not open, or a read or a write failed: `error file`.
    #[error("a read or a write failed")]
    File,
    /// A text is not UTF-8: `error file`.
    #[error("the text is not UTF-8")]
    NotText,
    /// A growth of memory was refused: `error memory`.
    #[error("out of memory")]
    Memory,
    /// The function whose run is asked for is no entry point's: `error X1`.
    #[error("the id is no entry point's function, or the name that of no function")]
    NoEntry,
    /// The function that is asked for is none of the module: `error X2`.
    #[error("the id is the result of no function, or the name that of none")]
    NoFunction,
    /// The name of the function that is asked for is that of several: `error use`.
    #[error("several functions have the name")]
    SeveralFunctions,
    /// The grammar file is refused: `error J1` to `error J7`, and `error memory` for J8.
    #[error("{0}")]
    Grammar(GrammarError),
}

impl From<Failed> for Trouble {
    ghost use Rattle.std.specs.Prelude.{◌≡◌};
    ghost use Rattle.spv_commands.specs.declared.trouble.Trouble.TheVariants as trouble;

    ghost from_gives = { λ _ e. e ≡ trouble.File };

    fn from(_error: Failed) -> Trouble {
        Trouble::File
    }
}

impl From<AllocError> for Trouble {
    ghost use Rattle.std.specs.Prelude.{◌≡◌};
    ghost use Rattle.spv_commands.specs.declared.trouble.Trouble.TheVariants as trouble;

    ghost from_gives = { λ _ e. e ≡ trouble.Memory };

    fn from(_error: AllocError) -> Trouble {
        Trouble::Memory
    }
}

/// What is told in an object of JSON of a file that was not read: want of memory for it, or that it was not read,
/// whatever the trouble was.
pub fn unread_of(trouble: Trouble) -> Unread
    ensures { result ≡ specs.unread_of trouble }
{
    match trouble {
        Trouble::Memory => Unread::Memory,
        _ => Unread::File,
    }
}

/// What a command answers where its file was not read: the same by its line.
pub fn file_trouble(trouble: Trouble) -> Trouble
    ensures { result ≡ specs.file_trouble trouble }
{
    match trouble {
        Trouble::Memory => Trouble::Memory,
        _ => Trouble::File,
    }
}

/// The line that tells a trouble, its line feed included.
pub fn trouble_line(trouble: Trouble) -> &'static [u8]
    ensures { result.now ≡ trouble_text trouble }
{
    match trouble {
        Trouble::Use | Trouble::SeveralFunctions => b"error use\n",
        Trouble::File | Trouble::NotText => b"error file\n",
        Trouble::Memory => b"error memory\n",
        Trouble::NoEntry => b"error X1\n",
        Trouble::NoFunction => b"error X2\n",
        Trouble::Grammar(error) => grammar_line(error),
    }
}

/// The line that tells a refused grammar file. J8 is out of memory.
fn grammar_line(error: GrammarError) -> &'static [u8]
    ensures { result.now ≡ grammar_text error }
{
    match error {
        GrammarError::J1 => b"error J1\n",
        GrammarError::J2 => b"error J2\n",
        GrammarError::J3 => b"error J3\n",
        GrammarError::J4 => b"error J4\n",
        GrammarError::J5 => b"error J5\n",
        GrammarError::J6 => b"error J6\n",
        GrammarError::J7 => b"error J7\n",
        GrammarError::J8 => b"error memory\n",
    }
}

/// Writes the line of a trouble, its line feed included. Where that fails too, there is nowhere left to tell it, and a
/// beginning was written.
pub fn report<E: Sink>(trouble: Trouble, err: &mut E)
    ensures { Gets E.contents E.failures err.old err.new (trouble_text trouble) }
{
    let _ = write_all(trouble_line(trouble), err);
}
