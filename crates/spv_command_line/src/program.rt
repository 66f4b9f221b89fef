//! The command line that `clap` reads: a table of the commands and of what stands after the name of each.
ghost use Rattle.std.specs.Prelude.{◌≡◌, ◌∷◌, [], false, IfOk, IfSome, map};
ghost use Rattle.clap.specs.Words.{app_of, rule_of, shape_of};
ghost use Rattle.clap.specs.declared.builder.command.Command.TheViews.{out-Command};
ghost use Rattle.spv_command_line.specs.CommandLine.{annotate_command, asm_command, bare_program, check_command};
ghost use Rattle.spv_command_line.specs.CommandLine.{explain_command, grammar_command, graph_command, program};
ghost use Rattle.spv_command_line.specs.CommandLine.{rules_command, show_command, trace_command};
ghost use Rattle.spv_command_line.specs.inner.Program.{IsOneOf, IsRowOf, ReadsAsProgram, rule_by, shape_by};
ghost use Rattle.spv_command_line.specs.inner.Program.{with_arguments, with_command, with_commands};

use crate::manual;
use clap::{Arg, ArgAction};
use std::alloc::{AllocError, Global};

/// How an argument stands after the name of a command.
#[derive(Clone, Copy)]
enum Form {
    /// As one word.
    Word,
    /// As one word or more.
    Words,
    /// As an option, whose value is the word after it.
    Option,
    /// As an option without a value.
    Flag,
    /// As an option without a value, which may also be written as `-` and this letter.
    Lettered(char),
}

/// An argument of commands.
#[derive(Clone, Copy)]
struct Argument {
    name: &'static str,
    form: Form,
    /// What help calls the value, if it has one.
    value: &'static str,
    required: bool,
    help: &'static str,
}

const GRAMMAR: Argument = Argument {
    name: "grammar",
    form: Form::Option,
    value: "G",
    required: false,
    help: manual::GRAMMAR_FILE,
};

const AS_1_6: Argument = Argument {
    name: "as-1.6",
    form: Form::Flag,
    value: "",
    required: false,
    help: manual::AS_1_6,
};

const EXTENDED: Argument = Argument {
    name: "extended",
    form: Form::Flag,
    value: "",
    required: false,
    help: manual::EXTENDED,
};

const OPENCL: Argument = Argument {
    name: "opencl",
    form: Form::Flag,
    value: "",
    required: false,
    help: manual::OPENCL,
};

const OPENCL_TEXT: Argument = Argument {
    name: "opencl",
    form: Form::Flag,
    value: "",
    required: false,
    help: manual::OPENCL_TEXT,
};

const SHOWN_OPENCL: Argument = Argument {
    name: "opencl",
    form: Form::Flag,
    value: "",
    required: false,
    help: manual::SHOWN_OPENCL,
};

const WITH_FILENAME: Argument = Argument {
    name: "with-filename",
    form: Form::Lettered('H'),
    value: "",
    required: false,
    help: "Writes `FILE: ` before the verdict on one file too",
};

const NO_FILENAME: Argument = Argument {
    name: "no-filename",
    form: Form::Flag,
    value: "",
    required: false,
    help: "Writes no `FILE: ` before the verdicts on several files",
};

const FULL: Argument = Argument {
    name: "full",
    form: Form::Flag,
    value: "",
    required: false,
    help: "Writes the name of each opcode that may come; without it, more than eight are summed up by kind",
};

const QUIET: Argument = Argument {
    name: "quiet",
    form: Form::Flag,
    value: "",
    required: false,
    help: "Writes no verdict: the exit status gives it. Errors are still reported",
};

const JSON: Argument = Argument {
    name: "json",
    form: Form::Flag,
    value: "",
    required: false,
    help: "Writes a JSON object for each file, a line each",
};

const RULES_JSON: Argument = Argument {
    name: "json",
    form: Form::Flag,
    value: "",
    required: false,
    help: "Writes a JSON object for each code, a line each",
};

const VERBOSE: Argument = Argument {
    name: "verbose",
    form: Form::Flag,
    value: "",
    required: false,
    help: "Says after the line of an error what was tried and why it failed, as it does on a terminal",
};

const MODULE: Argument = Argument {
    name: "file",
    form: Form::Word,
    value: "FILE",
    required: true,
    help: "The module, or `-` for the standard input",
};

const MODULES: Argument = Argument {
    name: "file",
    form: Form::Words,
    value: "FILE",
    required: true,
    help: "The modules, of which one may be `-` for the standard input",
};

const TEXT: Argument = Argument {
    name: "file",
    form: Form::Word,
    value: "FILE",
    required: true,
    help: "The text, or `-` for the standard input",
};

const OUT: Argument = Argument {
    name: "out",
    form: Form::Option,
    value: "OUT",
    required: true,
    help: "The module that is made, or `-` for the standard output",
};

const BIG: Argument = Argument {
    name: "big",
    form: Form::Flag,
    value: "",
    required: false,
    help: "The highest byte of a word stands first",
};

const EXPLAINED: Argument = Argument {
    name: "explain",
    form: Form::Flag,
    value: "",
    required: false,
    help: "Writes after the line of a fault its rule, the line of the text, and what is wanted and found there",
};

const ONLY_FUNCTION: Argument = Argument {
    name: "function",
    form: Form::Option,
    value: "FUNCTION",
    required: false,
    help: manual::ONLY_FUNCTION,
};

const DRAWN_FUNCTION: Argument = Argument {
    name: "function",
    form: Form::Option,
    value: "FUNCTION",
    required: false,
    help: manual::DRAWN_FUNCTION,
};

const HTML: Argument = Argument {
    name: "html",
    form: Form::Flag,
    value: "",
    required: false,
    help: "Writes a page of HTML, which needs no other file",
};

const COLOR: Argument = Argument {
    name: "color",
    form: Form::Option,
    value: "WHEN",
    required: false,
    help: "When the text has colour: auto (on a terminal, unless NO_COLOR is set), always or never",
};

const FUNCTION: Argument = Argument {
    name: "function",
    form: Form::Option,
    value: "FUNCTION",
    required: true,
    help: manual::FUNCTION,
};

const CHOICES: Argument = Argument {
    name: "choices",
    form: Form::Option,
    value: "LIST",
    required: false,
    help: "The targets that are taken, from 0, as 0,1",
};

const LIMIT: Argument = Argument {
    name: "limit",
    form: Form::Option,
    value: "N",
    required: true,
    help: manual::LIMIT,
};

const CODE: Argument = Argument {
    name: "code",
    form: Form::Word,
    value: "CODE",
    required: false,
    help: "The only code of which it is written, in capital or small letters",
};

const GRAMMAR_TEXT: Argument = Argument {
    name: "file",
    form: Form::Word,
    value: "FILE",
    required: false,
    help: "A grammar file, or `-` for the standard input; where it is left out, the built-in grammar",
};

/// A command of the program.
#[derive(Clone, Copy)]
struct Entry {
    name: &'static str,
    /// What is said of it among the commands.
    about: &'static str,
    /// What is said after its arguments.
    notes: &'static str,
    arguments: &'static [Argument],
}

/// What stands after the name of `check`.
const CHECK: &[Argument] = &[
    GRAMMAR,
    MODULES,
    AS_1_6,
    EXTENDED,
    OPENCL,
    WITH_FILENAME,
    NO_FILENAME,
    QUIET,
    JSON,
    VERBOSE,
];

/// What stands after the name of `explain`.
const EXPLAIN: &[Argument] = &[
    GRAMMAR,
    MODULES,
    FULL,
    AS_1_6,
    EXTENDED,
    OPENCL,
    WITH_FILENAME,
    NO_FILENAME,
    QUIET,
    JSON,
    VERBOSE,
];

/// The commands that say whether a module is valid.
static JUDGING: [Entry; 2] = [
    Entry {
        name: "check",
        about: "Writes the verdict on a module, or on each of several",
        notes: manual::CHECK,
        arguments: CHECK,
    },
    Entry {
        name: "explain",
        about: "Writes the verdict on a module, or on each of several, and what explains it",
        notes: manual::EXPLAIN,
        arguments: EXPLAIN,
    },
];

/// The commands that write out a module or a part of it.
static SHOWING: [Entry; 4] = [
    Entry {
        name: "show",
        about: "Writes the text of a module",
        notes: manual::SHOW,
        arguments: &[GRAMMAR, MODULE, AS_1_6, SHOWN_OPENCL, VERBOSE],
    },
    Entry {
        name: "annotate",
        about: "Writes the text of a module for people, with comments",
        notes: manual::ANNOTATE,
        arguments: &[
            GRAMMAR,
            MODULE,
            ONLY_FUNCTION,
            HTML,
            COLOR,
            AS_1_6,
            OPENCL,
            VERBOSE,
        ],
    },
    Entry {
        name: "graph",
        about: "Draws the calls of a module, or the blocks of a function, in DOT",
        notes: manual::GRAPH,
        arguments: &[GRAMMAR, MODULE, DRAWN_FUNCTION, AS_1_6, OPENCL, VERBOSE],
    },
    Entry {
        name: "trace",
        about: "Writes the run of an entry point's function",
        notes: manual::TRACE,
        arguments: &[
            GRAMMAR, MODULE, FUNCTION, CHOICES, LIMIT, AS_1_6, EXTENDED, OPENCL, VERBOSE,
        ],
    },
];

/// The other commands.
static OTHERS: [Entry; 3] = [
    Entry {
        name: "asm",
        about: "Makes the module of a text",
        notes: manual::ASM,
        arguments: &[GRAMMAR, TEXT, OUT, BIG, EXPLAINED, OPENCL_TEXT, VERBOSE],
    },
    Entry {
        name: "rules",
        about: "Writes what each code of a verdict or an error says",
        notes: manual::RULES,
        arguments: &[CODE, RULES_JSON, VERBOSE],
    },
    Entry {
        name: "grammar",
        about: "Writes the built-in grammar, or that of a file, as a grammar file of the least size",
        notes: manual::GRAMMAR,
        arguments: &[GRAMMAR_TEXT, VERBOSE],
    },
];

/// An argument, as `clap` is told of it.
fn argument_of<'a>(alloc: Global, row: &Argument) -> Arg<'a>
    ensures rule { rule_of result ≡ rule_by row.now }
    ensures local { result.global ≡ false }
{
    let named = Arg::new(alloc, row.name)
        .required(row.required)
        .help(row.help);
    match row.form {
        Form::Word => named.value_name(row.value),
        Form::Words => named.value_name(row.value).num_args(1..),
        Form::Option => named.long(row.name).value_name(row.value),
        Form::Flag => named.long(row.name).action(ArgAction::SetTrue),
        Form::Lettered(letter) => named
            .long(row.name)
            .short(letter)
            .action(ArgAction::SetTrue),
    }
}

/// A command with these arguments more.
fn with_arguments<'a>(
    alloc: Global,
    command: clap::Command<'a>,
    rows: &[Argument],
) -> Result<clap::Command<'a>, AllocError>
    requires { (out-Command command).has_globals ≡ false }
    ensures shape { IfOk result (λ c. app_of c ≡ with_arguments (app_of command.entry) rows.now) }
    ensures local { IfOk result (λ c. (out-Command c).has_globals ≡ false) }
{
    let mut command = command;
    for row in rows {
        command = command.arg(argument_of(alloc, row))?;
    }
    Ok(command)
}

/// A command, as `clap` is told of it.
fn command_of<'a>(alloc: Global, row: &Entry) -> Result<clap::Command<'a>, AllocError>
    ensures shape { IfOk result (λ c. shape_of c ≡ shape_by row.now) }
    ensures local { IfOk result (λ c. (out-Command c).has_globals ≡ false) }
{
    let command = clap::Command::new(alloc, row.name)
        .about(row.about)
        .after_help(row.notes);
    with_arguments(alloc, command, row.arguments)
}

/// The program with no commands yet.
fn bare_words<'a>(alloc: Global) -> clap::Command<'a>
    ensures { app_of result ≡ bare_program }
{
    clap::Command::new(alloc, "spv")
        .about("Checks, explains, shows, draws, assembles and traces SPIR-V 1.6 kernel modules")
        .after_help(manual::PROGRAM)
        .version(manual::VERSION)
        .no_binary_name(true)
        .subcommand_required(true)
}

/// The same, which help and errors name before each command.
fn named_words<'a>(alloc: Global) -> Result<clap::Command<'a>, AllocError>
    ensures { IfOk result (λ c. app_of c ≡ bare_program) }
{
    bare_words(alloc).bin_name("spv")
}

/// A program with these commands more.
fn with_commands<'a>(
    alloc: Global,
    program: clap::Command<'a>,
    rows: &[Entry],
) -> Result<clap::Command<'a>, AllocError>
    ensures { IfOk result (λ c. app_of c ≡ with_commands (app_of program.entry) rows.now) }
{
    let mut program = program;
    for row in rows {
        program = program.subcommand(command_of(alloc, row)?)?;
    }
    Ok(program)
}

/// The commands that say whether a module is valid.
fn judging() -> &'static [Entry]
    ensures { map shape_by result.now ≡ check_command ∷ explain_command ∷ [] }
{
    &JUDGING
}

/// The commands that write out a module or a part of it.
fn showing() -> &'static [Entry]
    ensures { map shape_by result.now ≡ show_command ∷ annotate_command ∷ graph_command ∷ trace_command ∷ [] }
{
    &SHOWING
}

/// The other commands.
fn others() -> &'static [Entry]
    ensures { map shape_by result.now ≡ asm_command ∷ rules_command ∷ grammar_command ∷ [] }
{
    &OTHERS
}

/// The whole command line, with the commands in the order in which help tells them.
pub fn all_words<'a>(alloc: Global) -> Result<clap::Command<'a>, AllocError>
    ensures { IfOk result (λ c. app_of c ≡ program) }
{
    let program = with_commands(alloc, named_words(alloc)?, judging())?;
    let program = with_commands(alloc, program, showing())?;
    with_commands(alloc, program, others())
}

/// The command line of this command alone.
fn words_of<'a>(alloc: Global, row: &Entry) -> Result<clap::Command<'a>, AllocError>
    ensures { IfOk result (λ c. app_of c ≡ with_command bare_program row.now) }
{
    bare_words(alloc).subcommand(command_of(alloc, row)?)
}

/// The command of this name among these, if one is.
fn row_among(rows: &'static [Entry], word: &str) -> Option<&'static Entry>
    ensures { IfSome result (λ row. (row.now.name.now ≡ word.now)
        × IsOneOf (shape_by row.now) (map shape_by rows.now)) }
{
    for row in rows {
        if row.name == word {
            return Some(row);
        }
    }
    None
}

/// The command of this name, if there is one.
#[tactic(auto, using(crate::proofs::OneCommand::of_tables))]
fn row_named(word: &str) -> Option<&'static Entry>
    ensures { IfSome result (λ row. (row.now.name.now ≡ word.now) × IsOneOf (shape_by row.now) program.subs) }
{
    let first = row_among(judging(), word);
    let next = row_among(showing(), word);
    let last = row_among(others(), word);
    first.or(next).or(last)
}

/// The command that the words begin with, if they begin with one.
#[tactic(auto, using(crate::proofs::OneCommand::of_first))]
fn row_of(words: &[&str]) -> Option<&'static Entry>
    ensures { IfSome result (λ row. IsRowOf row.now (map (λ w. w.now) words.now)) }
{
    let word = words.first()?;
    row_named(word)
}

/// The name of the command that the words begin with, if they begin with one.
pub fn command_named(words: &[&str]) -> Option<&'static str> {
    let row = row_of(words)?;
    Some(row.name)
}

/// The command line that these words are read by: where they begin with the name of a command it has this one alone,
/// since the making of a command costs more than the reading of most words.
pub fn words_for<'a>(alloc: Global, words: &[&str]) -> Result<clap::Command<'a>, AllocError>
    ensures { IfOk result (λ c. ReadsAsProgram (app_of c) (map (λ w. w.now) words.now)) }
{
    match row_of(words) {
        Some(row) => words_of(alloc, row),
        None => all_words(alloc),
    }
}
