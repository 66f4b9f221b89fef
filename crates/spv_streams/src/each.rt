//! The run on several files.
ghost use Rattle.std.specs.Prelude.{◌≡◌, ◌≤◌, ℕ, List, Option, map, option_map};
ghost use Rattle.spv_builtin.specs.Source.{IsTableOf, breaks};
ghost use Rattle.spv_grammar.specs.declared.error.GrammarError.{GrammarError};
ghost use Rattle.spv_commands.specs.Trouble.{Gets};
ghost use Rattle.spv_commands.specs.Part.{IsPart, told_line};
ghost use Rattle.spv_streams.specs.Each.{Ends};

use crate::files::Files;
use spv_builtin::laws::one_table;
use spv_builtin::table_of;
use spv_commands::{Judging, Part, Trouble, judge_file, report, tell, write_on};
use spv_table::Table;
use spv_words::Sink;
use std::alloc::Global;
use std::mem::forget;

/// What is written of the file of a number and a name.
fn part_of<F: Files>(
    alloc: Global,
    how: Judging,
    table: &Table,
    name: &str,
    number: usize,
    files: &mut F,
) -> Part
    ensures part { IsPart table.now how name.now (F.known files.old number) result.text.items
        (told_line name.now result.trouble) result.status }
    ensures small { result.status ≤ 2 }
    ensures kept { (n : ℕ) → F.known files.new n ≡ F.known files.old n }
{
    let file = files.read(alloc, number);
    judge_file(alloc, how, table, name, file)
}

/// Judges each file by a table, and answers the exit status.
fn each_by<F: Files, W: Sink, E: Sink>(
    alloc: Global,
    how: Judging,
    table: &Table,
    names: &[&str],
    files: &mut F,
    out: &mut W,
    err: &mut E,
) -> u8
    ensures ends { (text : Option (List ℕ)) → IsTableOf text table.now
        → Ends text how (F.known files.old) (map (λ name. name.now) names.now)
        (Gets W.contents W.failures out.old out.new) (Gets E.contents E.failures err.old err.new)
        (W.failures out.new ≡ W.failures out.old) result }
    ensures status { result ≤ 2 }
{
    let mut status = 0u8;
    let mut told = true;
    let mut number = 0usize;
    while number < names.len() {
        let name = names[number];
        let part = part_of(alloc, how, table, name, number, files);
        status = status.max(part.status);
        told = tell(name, part.trouble, told, err);
        if !write_on(part.text.as_slice(), true, out) {
            write_on(b"error file\n", told, err);
            return 2;
        }
        number += 1;
    }
    status
}

/// Judges each of the files, in order, and answers the exit status.
///
/// `grammar` is the text of the grammar file; without one the built-in grammar is used. `names` are those of the files,
/// `out` is the standard output, `err` the standard error. Of each file one line `NAME: VERDICT` is written, or the
/// verdict alone where no names are asked for, before the next is read (`explain`: behind it the lines that explain
/// it); or one object of JSON, as a line. One that does not open or whose read fails is told by `NAME: error file` on
/// `err`, out of memory at one by `NAME: error memory`, and the next follows; where objects are written there is one
/// for it too, if there is memory for that. In NAME a control character is `\xNN`, and a backslash `\\`. 0: each module
/// is valid. 1: one is not. 2: there was an error. A grammar file that is refused is told first, as by `run`; and a
/// failed write to `out` ends the run by `error file`. After a failed write to `err` nothing more is written there.
pub fn run_each<F: Files, W: Sink, E: Sink>(
    alloc: Global,
    how: Judging,
    grammar: Option<&[u8]>,
    names: &[&str],
    files: &mut F,
    out: &mut W,
    err: &mut E,
) -> u8
    ensures ends { Ends (option_map (λ g. g.now) grammar.entry) how (F.known files.old)
        (map (λ name. name.now) names.now) (Gets W.contents W.failures out.old out.new)
        (Gets E.contents E.failures err.old err.new) (W.failures out.new ≡ W.failures out.old) result }
    ensures status { result ≤ 2 }
    // A refused grammar is told before any file is read.
    ensures refused { (e : GrammarError) → breaks (option_map (λ g. g.now) grammar.entry) e
        → (result ≡ 2) × (files.new ≡ files.old) × (out.new ≡ out.old) }
{
    one_table();
    match table_of(alloc, grammar) {
        Ok(table) => {
            let status = each_by(alloc, how, &table, names, files, out, err);
            // The process ends soon, which gives back its memory at once.
            forget(table);
            status
        }
        Err(error) => {
            report(Trouble::Grammar(error), err);
            2
        }
    }
}
