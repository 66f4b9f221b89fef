//! What a command answers, of the bytes that its files have. It reads and writes nothing.
ghost use Rattle.std.specs.Prelude.{◌≡◌, ℕ, List, Option, IfErr, IfOk, option_map};
ghost use Rattle.spv_builtin.specs.Source.{IsTableOf};
ghost use Rattle.spv_command_line.specs.declared.command_line.Command.{Command};
ghost use Rattle.spv_commands.specs.Answer.{Answers, IsRefusal};
ghost use Rattle.spv_commands.specs.Output.{bytes_in, status_of, written_err, written_made, written_out};
ghost use Rattle.spv_commands.specs.Task.{ReadsGrammar};
ghost use Rattle.spv_commands.specs.Trouble.{grammar_text, trouble_text};

use crate::replying::{Reply, reply_to, ruled};
use crate::trouble::{Trouble, file_trouble};
use spv_builtin::table_of;
use spv_command_line::Command;
use spv_grammar::GrammarError;
use spv_table::Table;
use std::alloc::Global;
use std::mem::forget;

/// What a command answers by a table of what its file gave.
fn answer_by(
    alloc: Global,
    command: &Command,
    table: &Table,
    file: Result<Vec<u8>, Trouble>,
) -> Result<Reply, Trouble>
    requires { ReadsGrammar command.now }
    ensures { (text : Option (List ℕ)) → IsTableOf text table.now
        → Answers command.now text (bytes_in file) (written_out result) (written_made result) (written_err result)
        (status_of result) }
{
    match file {
        Ok(bytes) => reply_to(alloc, command, table, bytes),
        Err(trouble) => Err(file_trouble(trouble)),
    }
}

/// What a refused grammar file is told as. J8 is out of memory.
fn grammar_trouble(error: GrammarError) -> Trouble
    ensures { trouble_text result ≡ grammar_text error }
{
    match error {
        GrammarError::J8 => Trouble::Memory,
        _ => Trouble::Grammar(error),
    }
}

/// The table of a grammar file's text, or the built-in one.
///
/// # Errors
///
/// `Grammar`: the text is refused. `Memory`: a growth of memory was refused. There is no other.
pub fn table_in(alloc: Global, grammar: Option<&[u8]>) -> Result<Table, Trouble>
    ensures table { IfOk result (IsTableOf (option_map (λ g. g.now) grammar.entry)) }
    ensures refused { (command : Command) (file : Option (List ℕ)) → ReadsGrammar command → IfErr result
        (λ t. IsRefusal command (option_map (λ g. g.now) grammar.entry) file (trouble_text t)) }
{
    match table_of(alloc, grammar) {
        Ok(table) => Ok(table),
        Err(error) => Err(grammar_trouble(error)),
    }
}

/// What a command answers: the exit status and what the standard output, the file that is made and the standard error
/// get. Of a command on several files it is that of this one, as if it were the only one.
///
/// `grammar` is the text of the grammar file; without one the built-in grammar is used. `file` has all the bytes of the
/// module or of the text, or why they could not be read; a command that reads none takes none. Of a module that is too
/// long 16,777,217 of its bytes are enough. A grammar file that is refused is told before a file that could not be
/// read. What is written and told is said at `run`, which reads and writes too.
pub fn answer(
    alloc: Global,
    command: &Command,
    grammar: Option<&[u8]>,
    file: Result<Vec<u8>, Trouble>,
) -> Result<Reply, Trouble>
    ensures { Answers command.now (option_map (λ g. g.now) grammar.entry) (bytes_in file) (written_out result)
        (written_made result) (written_err result) (status_of result) }
{
    if let Command::Rules { code, json } = command {
        return ruled(alloc, *code, *json);
    }
    let table = table_in(alloc, grammar)?;
    let answer = answer_by(alloc, command, &table, file);
    // The process ends soon, which gives back its memory at once.
    forget(table);
    answer
}
