//! The answer to one row.
use anyhow::bail;
use spv_commands::{Command, Trouble, UseError, arguments, report};
use spv_streams::run;
use spv_words::{FromRead, FromWrite};
use std::alloc::Global;
use std::io::Write;

/// All that a command answers: its exit status, and the bytes that it wrote.
#[derive(Drop)]
pub struct Answer {
    status: u8,
    out: Vec<u8>,
    err: Vec<u8>,
    made: Vec<u8>,
}

/// Whether a command names a grammar file.
fn names_grammar(command: &Command) -> bool {
    match command {
        Command::Judge { grammar, .. }
        | Command::Show { grammar, .. }
        | Command::Asm { grammar, .. }
        | Command::Trace { grammar, .. }
        | Command::Annotate { grammar, .. }
        | Command::Graph { grammar, .. } => grammar.is_some(),
        Command::Grammar { file } => file.is_some(),
        Command::Rules { .. } => false,
    }
}

impl Answer {
    /// The answer to the words of a command line, where the grammar file and the file that is read hold these bytes.
    /// Where the words name no grammar file, the built-in grammar is used.
    ///
    /// # Errors
    ///
    /// Memory is short already when the words are read, or the words ask for help.
    pub fn of(
        alloc: Global,
        words: &[&str],
        grammar: &[u8],
        input: &[u8],
    ) -> anyhow::Result<Answer> {
        match arguments(alloc, words) {
            Ok(command) => Ok(Answer::of_command(alloc, &command, grammar, input)),
            Err(UseError::NoCommand) => Ok(Answer::of_no_command(alloc)),
            Err(error) => bail!("{error}"),
        }
    }

    /// The answer to a command.
    fn of_command(alloc: Global, command: &Command, grammar: &[u8], input: &[u8]) -> Answer {
        let mut file = FromRead::new(input);
        let grammar = if names_grammar(command) {
            Some(grammar)
        } else {
            None
        };
        let mut out = FromWrite::new(Vec::new(alloc));
        let mut made = FromWrite::new(Vec::new(alloc));
        let mut err = FromWrite::new(Vec::new(alloc));
        let status = run(
            alloc, command, grammar, &mut file, &mut out, &mut made, &mut err,
        );
        Answer {
            status,
            out: out.inner,
            err: err.inner,
            made: made.inner,
        }
    }

    /// The answer to words that fit no command.
    fn of_no_command(alloc: Global) -> Answer {
        let mut err = FromWrite::new(Vec::new(alloc));
        report(Trouble::Use, &mut err);
        Answer {
            status: 2,
            out: Vec::new(alloc),
            err: err.inner,
            made: Vec::new(alloc),
        }
    }

    /// Prints the answer: a line with the row's name, the exit status, and how many bytes were written to the standard
    /// output, to the standard error and to the file that is made; then the bytes of the first two as they are; then
    /// those of the third in hexadecimal on a line, if there are any.
    ///
    /// # Errors
    ///
    /// A write failed, or memory is short.
    pub fn print(&self, rt: &HostRuntime, name: &str) -> anyhow::Result<()> {
        let (out, err, made) = (self.out.len(), self.err.len(), self.made.len());
        println!(rt;
            "== {name}: exit {}, out {out}, err {err}, made {made}",
            self.status
        )?;
        let mut to = rt.stdout();
        to.write_all(&self.out)?;
        to.write_all(&self.err)?;
        if !self.made.is_empty() {
            println!(rt; "{}", hex::encode(rt.alloc(), self.made.as_slice())?)?;
        }
        Ok(())
    }
}
