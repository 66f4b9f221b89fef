//! Why a run ends with an error, for people: what is told after the one line of it.

use spv_commands::{Trouble, entry_points, grammar_reason, write_label};
use spv_words::FromWrite;
use std::alloc::{AllocError, Global};
use std::cell::Cell;
use std::io;
use std::io::{ErrorKind, Read, Write};

/// What the standard output is called where a write to it fails.
pub const STANDARD_OUTPUT: &str = "standard output";

/// What is told of a file whose name is no text.
const NO_TEXT: &[u8] = b"the name is not UTF-8; the shell's < gives such a file, as FILE -\n";

/// What is tried with a file.
#[derive(Clone, Copy)]
pub enum Tried {
    /// To open it.
    Open,
    /// To read it.
    Read,
    /// To write it.
    Write,
}

impl Tried {
    /// It in a word.
    fn word(self) -> &'static str {
        match self {
            Tried::Open => "open",
            Tried::Read => "read",
            Tried::Write => "write",
        }
    }
}

/// A call of the system that failed.
#[derive(Clone, Copy)]
struct Failure<'a> {
    /// The name of the file.
    name: &'a str,
    /// What was tried.
    tried: Tried,
    error: io::Error,
}

/// Writes a line on a file: its name and what is told of it. What cannot be written is left out.
fn tell_line<W: Write>(name: &str, told: &[u8], to: &mut W) {
    let mut to = FromWrite::new(to);
    write_label(name, true, &mut to);
    let _ = to.inner.write_all(told);
}

/// What a run reads, as far as it is at hand.
#[derive(Clone, Copy)]
pub struct AtHand<'a, 'b> {
    /// The name of the text that is read, where one is.
    pub text: Option<&'a str>,
    /// The text of the grammar file, where one is named.
    pub grammar: Option<&'b [u8]>,
    /// The bytes of the module, where they were kept.
    pub module: Option<&'b [u8]>,
}

impl<'a, 'b> AtHand<'a, 'b> {
    /// Nothing but the text of the grammar file, where one is named.
    pub fn of(grammar: Option<&'b [u8]>) -> Self {
        AtHand {
            text: None,
            grammar,
            module: None,
        }
    }
}

/// Notes of what failed, for what is told after the line of an error.
#[derive(Drop)]
pub struct Why<'a> {
    alloc: Global,
    /// Whether more than the line is told.
    is_told: bool,
    /// The path of the grammar file, where the environment names it and no word does.
    environment: Cell<Option<&'a str>>,
    /// Whether a call failed.
    has_failed: Cell<bool>,
    /// Whether nobody reads the standard output any more.
    is_closed: Cell<bool>,
    /// The call that failed last, until it is told.
    last: Cell<Option<Failure<'a>>>,
}

impl<'a> Why<'a> {
    /// Of a run in which nothing failed yet.
    pub fn new(alloc: Global, is_told: bool) -> Self {
        Why {
            alloc,
            is_told,
            environment: Cell::new(None),
            has_failed: Cell::new(false),
            is_closed: Cell::new(false),
            last: Cell::new(None),
        }
    }

    /// Whether more than the line is told.
    pub fn is_told(&self) -> bool {
        self.is_told
    }

    /// Whether a call failed that is noted here.
    pub fn has_failed(&self) -> bool {
        self.has_failed.get()
    }

    /// Whether a write failed since nobody reads the standard output any more.
    pub fn is_closed(&self) -> bool {
        self.is_closed.get()
    }

    /// Notes that the environment names the grammar file.
    pub fn note_environment(&self, path: &'a str) {
        self.environment.set(Some(path));
    }

    /// Notes a call that failed.
    pub fn note(&self, name: &'a str, tried: Tried, error: io::Error) {
        self.has_failed.set(true);
        if name == STANDARD_OUTPUT && error.kind() == ErrorKind::BrokenPipe {
            self.is_closed.set(true);
        }
        self.last.set(Some(Failure { name, tried, error }));
    }

    /// Tells that the environment names a grammar file, where it is this one.
    fn tell_environment<W: Write>(&self, name: &str, to: &mut W) {
        if self.environment.get() == Some(name) {
            tell_line(name, b"SPV_GRAMMAR names this grammar file\n", to);
        }
    }

    /// Tells what was tried last and why it failed, a line, where a call failed. What cannot be written is left out.
    fn tell_file<W: Write>(&self, to: &mut W) {
        let Some(failure) = self.last.take() else {
            return;
        };
        let reason = format!(in self.alloc; "cannot {}: {}\n", failure.tried.word(), failure.error);
        if let Ok(reason) = reason {
            tell_line(failure.name, reason.as_bytes(), to);
        }
        // (as a word of the command line that is no text is marked)
        if failure.name.contains('\0') {
            tell_line(failure.name, NO_TEXT, to);
        }
        self.tell_environment(failure.name, to);
    }

    /// Tells where a grammar file is refused, and what is wanted there.
    fn tell_grammar<W: Write>(&self, grammar: Option<&[u8]>, to: &mut W) {
        let Some(grammar) = grammar else {
            return;
        };
        if let Ok(lines) = grammar_reason(self.alloc, grammar) {
            let _ = to.write_all(lines.as_slice());
        }
        if let Some(name) = self.environment.get() {
            self.tell_environment(name, to);
        }
    }

    /// The entry points of the module, which is at hand but where memory is short.
    fn entries(&self, at_hand: AtHand<'_, '_>) -> Result<String, AllocError> {
        match at_hand.module {
            Some(module) => entry_points(self.alloc, module),
            None => Err(AllocError),
        }
    }

    /// Tells that a function is no entry point's, and which entry points there are: nothing where memory is short.
    fn tell_entry<W: Write>(&self, at_hand: AtHand<'_, '_>, to: &mut W) {
        if let Ok(entries) = self.entries(at_hand) {
            let _ = to.write_all(b"FUNCTION is that of no OpEntryPoint\n");
            let _ = to.write_all(entries.as_bytes());
        }
    }

    /// Tells why a run ends with an error, where that is asked for.
    pub fn tell<W: Write>(&self, trouble: Trouble, at_hand: AtHand<'_, '_>, to: &mut W) {
        if !self.is_told {
            return;
        }
        match trouble {
            Trouble::File => self.tell_file(to),
            Trouble::NotText => {
                if let Some(name) = at_hand.text {
                    tell_line(name, b"the bytes are no text in UTF-8\n", to);
                }
            }
            Trouble::Grammar(_) => self.tell_grammar(at_hand.grammar, to),
            Trouble::NoEntry => self.tell_entry(at_hand, to),
            Trouble::NoFunction => {
                let _ = to.write_all(
                    b"FUNCTION is neither the result of an OpFunction nor the name of one\n",
                );
            }
            Trouble::SeveralFunctions => {
                let _ = to.write_all(
                    b"FUNCTION is the name of several functions; an id chooses one\n",
                );
            }
            Trouble::Use | Trouble::Memory => {}
        }
    }
}

/// A reader or a writer whose failed calls are noted.
#[derive(Drop)]
pub struct Noted<'a, 'b, T> {
    inner: T,
    name: &'a str,
    tried: Tried,
    why: &'b Why<'a>,
}

impl<'a, 'b, T> Noted<'a, 'b, T> {
    /// Of a file of this name, with which this is tried.
    pub fn new(inner: T, name: &'a str, tried: Tried, why: &'b Why<'a>) -> Self {
        Noted {
            inner,
            name,
            tried,
            why,
        }
    }
}

impl<T: Read> Read for Noted<'_, '_, T> {
    fn read(&mut self, buf: &mut [u8]) -> io::Result<usize> {
        let answer = self.inner.read(buf);
        if let Err(error) = answer {
            self.why.note(self.name, self.tried, error);
        }
        answer
    }
}

impl<T: Write> Write for Noted<'_, '_, T> {
    fn write(&mut self, buf: &[u8]) -> io::Result<usize> {
        let answer = self.inner.write(buf);
        if let Err(error) = answer {
            self.why.note(self.name, self.tried, error);
        }
        answer
    }

    fn flush(&mut self) -> io::Result<()> {
        self.inner.flush()
    }
}
