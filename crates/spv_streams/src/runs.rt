//! The run of a command over readers and writers.
ghost use Rattle.std.specs.Prelude.{◌≡◌, ◌≤◌, ◌⊎◌, ◌↔◌, [], IfErr, IfOk, IfSome, IsErrOf, false, option_map};
ghost use Rattle.spv_builtin.specs.Source.{breaks};
ghost use Rattle.spv_grammar.specs.declared.error.GrammarError.{GrammarError};
ghost use Rattle.spv_grammar.specs.declared.error.GrammarError.TheVariants.{J8};
ghost use Rattle.spv_check.specs.Outcome.{HasFailed};
ghost use Rattle.spv_commands.specs.Output.{made_of};
ghost use Rattle.spv_commands.specs.Streams.{reading, writing};
ghost use Rattle.spv_commands.specs.Task.{Does, MakesNothing, ReadsGrammar, ReadsNoFile};
ghost use Rattle.spv_commands.specs.Task.{WritesRules, WritesRulesOf};
ghost use Rattle.spv_commands.specs.Trouble.{Gets, grammar_text, memory_line};
ghost use Rattle.spv_commands.specs.declared.trouble.Trouble.TheVariants.{File, Grammar};
ghost use Rattle.spv_streams.specs.Begin.{BeginsRules, BeginsRulesOf};
ghost use Rattle.spv_streams.specs.Run.{Runs, RunsRules};
ghost use Rattle.spv_streams.specs.inner.Ending.{EndsByTable, EndsByText, EndsUnread, IsReason};
ghost use Rattle.spv_streams.specs.inner.Put.{GivesBoth};

use crate::reading::content_on;
use crate::writing::write_reply;
use spv_builtin::laws::one_table;
use spv_builtin::table_of;
use spv_command_line::{AnyCode, Command};
use spv_commands::asked::rules_bytes;
use spv_commands::{Reply, Trouble, reply_to, report, too_long};
use spv_table::Table;
use spv_words::{Sink, Source, write_all};
use std::alloc::Global;
use std::mem::forget;

/// Writes what codes say, or one of them: it is written.
fn ruled<W: Sink>(
    alloc: Global,
    code: Option<AnyCode>,
    json: bool,
    out: &mut W,
) -> Result<bool, Trouble>
    ensures { EndsUnread (WritesRules code json) (BeginsRules code json)
        (writing W.contents W.failures out.old out.new) result }
{
    let text = match rules_bytes(alloc, code, json) {
        Ok(text) => text,
        Err(_) => return Err(Trouble::Memory),
    };
    match write_all(text.as_slice(), out) {
        Ok(()) => Ok(true),
        Err(_) => Err(Trouble::File),
    }
}

/// What a command answers by a table of what its file gives.
fn reply_on<S: Source>(
    alloc: Global,
    command: &Command,
    table: &Table,
    file: &mut S,
) -> Result<Reply, Trouble>
    requires reads { ReadsGrammar command.now }
    ensures does { IfSome (S.remaining file.old) (λ bytes. IfOk result (GivesBoth (Does command.now table.now) bytes)) }
    ensures nothing { MakesNothing command.now → IfOk result (λ a. made_of a ≡ []) }
    ensures count { HasFailed S.failures file.old file.new ↔ IsErrOf result File }
    ensures why { IfErr result (IsReason command.now table.now (S.remaining file.old)) }
    ensures unread { ReadsNoFile command.now → file.new ≡ file.old }
{
    let content = content_on(alloc, command, file)?;
    match content {
        Some(bytes) => reply_to(alloc, command, table, bytes),
        None => too_long(alloc, command),
    }
}

/// Does what a command asks by a table: whether the module is valid, has a text, was made, has a run or was viewed.
fn done_by<S: Source, W: Sink, O: Sink>(
    alloc: Global,
    command: &Command,
    table: &Table,
    file: &mut S,
    out: &mut W,
    made: &mut O,
) -> Result<bool, Trouble>
    requires reads { ReadsGrammar command.now }
    ensures ends { EndsByTable command.now table.now (reading S.remaining S.failures file.old file.new)
        (writing W.contents W.failures out.old out.new) (writing O.contents O.failures made.old made.new) result }
    ensures nothing { MakesNothing command.now → made.new ≡ made.old }
    ensures unread { ReadsNoFile command.now → file.new ≡ file.old }
{
    let reply = reply_on(alloc, command, table, file)?;
    write_reply(&reply, out, made)
}

/// Makes the table, and then does what a command asks: whether the module is valid, has a
/// text, was made or has a run.
fn done_by_text<S: Source, W: Sink, O: Sink>(
    alloc: Global,
    command: &Command,
    grammar: Option<&[u8]>,
    file: &mut S,
    out: &mut W,
    made: &mut O,
) -> Result<bool, Trouble>
    requires reads { ReadsGrammar command.now }
    ensures ends { EndsByText command.now (option_map (λ g. g.now) grammar.entry)
        (reading S.remaining S.failures file.old file.new) (writing W.contents W.failures out.old out.new)
        (writing O.contents O.failures made.old made.new) result }
    ensures refused { (e : GrammarError) → breaks (option_map (λ g. g.now) grammar.entry) e
        → (file.new ≡ file.old) × (out.new ≡ out.old) × (made.new ≡ made.old)
        × (IsErrOf result (Grammar e) ⊎ IsErrOf result (Grammar J8)) }
    ensures nothing { MakesNothing command.now → made.new ≡ made.old }
    ensures unread { ReadsNoFile command.now → file.new ≡ file.old }
{
    one_table();
    match table_of(alloc, grammar) {
        Ok(table) => {
            let answer = done_by(alloc, command, &table, file, out, made);
            // The process ends soon, which gives back its memory at once.
            forget(table);
            answer
        }
        Err(error) => Err(Trouble::Grammar(error)),
    }
}

/// Does what a command asks: whether the module is valid, has a text, was made or has a run, or what codes say was
/// written.
fn done<S: Source, W: Sink, O: Sink>(
    alloc: Global,
    command: &Command,
    grammar: Option<&[u8]>,
    file: &mut S,
    out: &mut W,
    made: &mut O,
) -> Result<bool, Trouble>
    ensures by_text { ReadsGrammar command.now → EndsByText command.now (option_map (λ g. g.now) grammar.entry)
        (reading S.remaining S.failures file.old file.new) (writing W.contents W.failures out.old out.new)
        (writing O.contents O.failures made.old made.new) result }
    ensures refused { ReadsGrammar command.now → (e : GrammarError) → breaks (option_map (λ g. g.now) grammar.entry) e
        → (file.new ≡ file.old) × (out.new ≡ out.old) × (made.new ≡ made.old)
        × (IsErrOf result (Grammar e) ⊎ IsErrOf result (Grammar J8)) }
    ensures rules { ¬ (ReadsGrammar command.now) → EndsUnread (WritesRulesOf command.now) (BeginsRulesOf command.now)
        (writing W.contents W.failures out.old out.new) result }
    ensures nothing { MakesNothing command.now → made.new ≡ made.old }
    ensures unread { ReadsNoFile command.now → file.new ≡ file.old }
{
    match command {
        Command::Rules { code, json } => ruled(alloc, *code, *json, out),
        _ => done_by_text(alloc, command, grammar, file, out, made),
    }
}

/// Does what a command asks, and answers the exit status. Of a command on several files it does the task on this one,
/// as if it were the only one.
///
/// `grammar` is the text of the grammar file; without one the built-in grammar is used. `file` is the module or the
/// text, `out` the standard output, `made` the file that a command makes (only `asm` makes one), `err` the standard
/// error. A module is taken as the version that the command asks for, and looked at as far. Names, objects of JSON and
/// `--quiet` are of `run_each`, and colour is written only where it is asked for in any case. 0: the module is valid,
/// or its text, the module of a text, a run, what people look at, a grammar file or what codes say was written. 1: a
/// fault line was written. 2: one line was written to `err`: `error J1` to `error J7` where the grammar file is
/// refused, which is told first, `error file` where a read or a write failed or a text is not UTF-8, `error X1` where
/// the function whose run is asked for is no entry point's, `error X2` where the function that is asked for is none of
/// the module, `error use` where its name is that of several, `error memory` where a growth of memory was refused.
/// Where the write to `err` fails too, it has got a beginning of that line, and the status is 2 all the same.
pub fn run<S: Source, W: Sink, O: Sink, E: Sink>(
    alloc: Global,
    command: &Command,
    grammar: Option<&[u8]>,
    file: &mut S,
    out: &mut W,
    made: &mut O,
    err: &mut E,
) -> u8
    ensures status { result ≤ 2 }
    // What is written, and what the status tells.
    ensures runs { ReadsGrammar command.now → Runs command.now (option_map (λ g. g.now) grammar.entry)
        (reading S.remaining S.failures file.old file.new) (writing W.contents W.failures out.old out.new)
        (writing O.contents O.failures made.old made.new) (Gets E.contents E.failures err.old err.new) result }
    // A refused grammar is told first, before anything is read or written: by its code, or as out of memory.
    ensures refused { ReadsGrammar command.now → (e : GrammarError) → breaks (option_map (λ g. g.now) grammar.entry) e
        → (result ≡ 2) × (file.new ≡ file.old) × (out.new ≡ out.old) × (made.new ≡ made.old)
        × (Gets E.contents E.failures err.old err.new (grammar_text e)
        ⊎ Gets E.contents E.failures err.old err.new memory_line) }
    ensures rules { ¬ (ReadsGrammar command.now)
        → RunsRules command.now (writing W.contents W.failures out.old out.new)
        (Gets E.contents E.failures err.old err.new) result }
    // `rules` and `grammar` read no module.
    ensures unread { ReadsNoFile command.now → file.new ≡ file.old }
    // Only `asm` makes a file.
    ensures nothing { MakesNothing command.now → made.new ≡ made.old }
    // The standard error gets a line only with the status 2.
    ensures quiet { result ≤ 1 → err.new ≡ err.old }
{
    match done(alloc, command, grammar, file, out, made) {
        Ok(true) => 0,
        Ok(false) => 1,
        Err(trouble) => {
            report(trouble, err);
            2
        }
    }
}
