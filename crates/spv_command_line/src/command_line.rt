//! The words of the command line, read by `clap`.
ghost use Rattle.std.specs.Prelude.{◌≡◌, ◌≤◌, ◌↔◌, ◌∷◌, [], codes, IfSome, IsTrue, MatchOption, map};
ghost use Rattle.std.specs.Prelude.{option_map, Ok, length};
ghost use Rattle.std.specs.Str.{bytes_eq};
ghost use Rattle.clap.specs.Words.{first_of, found_of, rows_of, subcommand_rows_of};
ghost use Rattle.spv_command_line.specs.declared.command_line.Task.{Task};
ghost use Rattle.spv_command_line.specs.CommandLine.{Answers, AnswersTo, IsCommandOf, IsDetailed, count_of, error_of};
ghost use Rattle.spv_command_line.specs.CommandLine.{inputs_among, path_of, task_name};
ghost use Rattle.spv_command_line.specs.inner.CommandLine.{IsGiven, IsGivenFor, IsOfFiles};

use crate::options::{
    chosen_if_given, chosen_of, color_in, form_in, is_set, naming_in, number_of, numbers_of,
    scope_in,
};
use crate::program::{all_words, words_for};
use clap::ArgMatches;
use clap::error::ErrorKind;
use spv_names::Chosen;
use spv_rules::AnyCode;
use spv_scope::Scope;
use std::alloc::{AllocError, Global};
use thiserror::Error;

/// What is done with each module.
#[derive(Clone, Copy, PartialEq, Eq)]
pub enum Task {
    /// The verdict on it, as `spv check`.
    Check,
    /// The verdict on it and what explains it, as `spv explain`.
    Explain {
        /// Whether it is told with every name, as `--full` asks for.
        full: bool,
    },
}

/// Which verdicts have the name of their file before them.
#[derive(Clone, Copy, PartialEq, Eq)]
pub enum Naming {
    /// Those of several files.
    OfSeveral,
    /// All: `-H` or `--with-filename`.
    Always,
    /// None: `--no-filename`.
    Never,
}

/// What `spv annotate` writes.
#[derive(Clone, Copy)]
pub enum Form {
    /// The lines, as text.
    Text,
    /// A page of HTML: `--html`.
    Page,
}

/// When text has colour.
#[derive(Clone, Copy, PartialEq, Eq)]
pub enum Color {
    /// Where the output takes it: `auto`, and where nothing is asked for.
    Auto,
    /// Always: `always`.
    Always,
    /// Never: `never`.
    Never,
}

/// What the program is asked to do. A path of a grammar file that is None stands for the built-in grammar.
#[derive(Drop)]
pub enum Command<'a> {
    /// `spv check [--grammar G] FILE ..`, or `spv explain [--full]`: a task on these modules, one after the other.
    Judge {
        /// The task.
        task: Task,
        /// The path of the grammar file, if one is named.
        grammar: Option<&'a str>,
        /// The paths of the modules: one or more, of which at most one is `-`, the standard input.
        files: Vec<&'a str>,
        /// As which version a module is read, and how far it is looked at.
        scope: Scope,
        /// Which verdicts have the name of their file before them.
        naming: Naming,
        /// Whether no verdict is written, and the exit status alone tells it.
        quiet: bool,
        /// Whether each is told as a JSON object.
        json: bool,
    },
    /// `spv show [--grammar G] FILE`: the text of a module.
    Show {
        /// The path of the grammar file, if one is named.
        grammar: Option<&'a str>,
        /// The path of the module.
        file: &'a str,
        /// As which version the module is read, and how far it is looked at: never as with `--extended`.
        scope: Scope,
    },
    /// `spv annotate [--grammar G] FILE`: the text of a module for people, with comments.
    Annotate {
        /// The path of the grammar file, if one is named.
        grammar: Option<&'a str>,
        /// The path of the module.
        file: &'a str,
        /// As which version the module is read, and how far it is looked at: never as with `--extended`.
        scope: Scope,
        /// The only function that is written, if it is only one.
        function: Option<Chosen<'a>>,
        /// What is written.
        form: Form,
        /// When the text has colour; a page has colours of its own.
        color: Color,
    },
    /// `spv graph [--grammar G] FILE`: a picture of a module, in DOT.
    Graph {
        /// The path of the grammar file, if one is named.
        grammar: Option<&'a str>,
        /// The path of the module.
        file: &'a str,
        /// As which version the module is read, and how far it is looked at: never as with `--extended`.
        scope: Scope,
        /// The function whose blocks are drawn; without it the calls of the module are.
        function: Option<Chosen<'a>>,
    },
    /// `spv asm [--grammar G] --out OUT [--big] FILE`: the module of a text.
    Asm {
        /// The path of the grammar file, if one is named.
        grammar: Option<&'a str>,
        /// The path of the text.
        file: &'a str,
        /// The path of the module that is made.
        out: &'a str,
        /// Whether the bytes of its words stand from the highest to the lowest.
        big: bool,
        /// Whether the fault of a text is explained.
        explain: bool,
        /// Whether a text may tell version 1.0 to 1.5 too, which the module then has: `--opencl`.
        opencl: bool,
    },
    /// `spv trace [--grammar G] --function FUNCTION [--choices 0,1] --limit N FILE`: the run of an entry point's
    /// function.
    Trace {
        /// The path of the grammar file, if one is named.
        grammar: Option<&'a str>,
        /// The path of the module.
        file: &'a str,
        /// The function of an OpEntryPoint.
        function: Chosen<'a>,
        /// The places of the targets that are taken, from 0: one for each branch on a condition or switch that is
        /// executed.
        choices: Vec<u32>,
        /// The greatest number of steps; a step is one instruction that is executed.
        limit: u32,
        /// As which version a module is read, and how far it is looked at.
        scope: Scope,
    },
    /// `spv rules [CODE]`: what each code says, or one of them. No file is read.
    Rules {
        /// The code, if it is only one.
        code: Option<AnyCode>,
        /// Whether each is told as a JSON object.
        json: bool,
    },
    /// `spv grammar [FILE]`: the built-in grammar, or that of a grammar file, as a grammar file of the least size.
    Grammar {
        /// The path of the grammar file, if one is named; `-` is the standard input.
        file: Option<&'a str>,
    },
}

/// Why the words of the command line give no command.
#[derive(Clone, Copy, Debug, PartialEq, Eq, Error)]
pub enum UseError {
    /// The words fit no command.
    #[error("the words fit no command")]
    NoCommand,
    /// A growth of memory was refused.
    #[error("out of memory")]
    Memory,
    /// The words ask for help.
    #[error("help is asked for")]
    Help,
    /// The words ask for the version.
    #[error("the version is asked for")]
    Version,
}

impl From<AllocError> for UseError {
    ghost use Rattle.std.specs.Prelude.{◌≡◌};
    ghost use Rattle.spv_command_line.specs.declared.command_line.UseError.TheVariants.{Memory};

    ghost from_gives = { λ _ e. e ≡ Memory };

    fn from(_error: AllocError) -> UseError {
        UseError::Memory
    }
}

/// The error for what `clap` refused.
fn refusal(kind: ErrorKind) -> UseError
    ensures { result ≡ error_of kind }
{
    match kind {
        ErrorKind::OutOfMemory => UseError::Memory,
        ErrorKind::DisplayHelp => UseError::Help,
        ErrorKind::DisplayVersion => UseError::Version,
        _ => UseError::NoCommand,
    }
}

/// The command `show` with the texts of these, if its options go together.
fn show_in<'a>(
    found: &ArgMatches<'a>,
    grammar: Option<&'a str>,
    file: &'a str,
) -> Result<Command<'a>, UseError>
    ensures { IsGivenFor (codes "show") (rows_of (found_of found.now)) (path_of grammar.entry) (file.now ∷ []) result }
{
    let Some(scope) = scope_in(found) else {
        return Err(UseError::NoCommand);
    };
    Ok(Command::Show {
        grammar,
        file,
        scope,
    })
}

/// The command `annotate` with the texts of these, if its own is a word for a use of colour and its options go
/// together.
fn annotate_in<'a>(
    found: &ArgMatches<'a>,
    grammar: Option<&'a str>,
    file: &'a str,
) -> Result<Command<'a>, UseError>
    ensures { IsGivenFor (codes "annotate") (rows_of (found_of found.now)) (path_of grammar.entry) (file.now ∷ [])
        result }
{
    let function = chosen_if_given(found, "function");
    let color = color_in(found)?;
    let Some(scope) = scope_in(found) else {
        return Err(UseError::NoCommand);
    };
    Ok(Command::Annotate {
        grammar,
        file,
        scope,
        function,
        form: form_in(found),
        color,
    })
}

/// The command `graph` with the texts of these, if its options go together.
fn graph_in<'a>(
    found: &ArgMatches<'a>,
    grammar: Option<&'a str>,
    file: &'a str,
) -> Result<Command<'a>, UseError>
    ensures { IsGivenFor (codes "graph") (rows_of (found_of found.now)) (path_of grammar.entry) (file.now ∷ []) result }
{
    let Some(scope) = scope_in(found) else {
        return Err(UseError::NoCommand);
    };
    Ok(Command::Graph {
        grammar,
        file,
        scope,
        function: chosen_if_given(found, "function"),
    })
}

/// The command `asm` with the texts of these, if `clap` read its own too.
fn asm_in<'a>(
    found: &ArgMatches<'a>,
    grammar: Option<&'a str>,
    file: &'a str,
) -> Result<Command<'a>, UseError>
    ensures { IsGivenFor (codes "asm") (rows_of (found_of found.now)) (path_of grammar.entry) (file.now ∷ []) result }
{
    let Some(out) = found.get_str("out") else {
        return Err(UseError::NoCommand);
    };
    Ok(Command::Asm {
        grammar,
        file,
        out,
        big: is_set(found, "big"),
        explain: is_set(found, "explain"),
        opencl: is_set(found, "opencl"),
    })
}

/// The command `trace` with the texts of these, if its own are numbers too and its options go together.
fn trace_in<'a>(
    alloc: Global,
    found: &ArgMatches<'a>,
    grammar: Option<&'a str>,
    file: &'a str,
) -> Result<Command<'a>, UseError>
    ensures { IsGivenFor (codes "trace") (rows_of (found_of found.now)) (path_of grammar.entry) (file.now ∷ []) result }
{
    let Some(function) = chosen_of(found, "function") else {
        return Err(UseError::NoCommand);
    };
    let Some(limit) = number_of(found, "limit") else {
        return Err(UseError::NoCommand);
    };
    let Some(choices) = numbers_of(alloc, found, "choices")? else {
        return Err(UseError::NoCommand);
    };
    let Some(scope) = scope_in(found) else {
        return Err(UseError::NoCommand);
    };
    Ok(Command::Trace {
        grammar,
        file,
        function,
        choices,
        limit,
        scope,
    })
}

/// The command `rules`, if its word is the name of a code or it has none.
fn rules_in<'a>(found: &ArgMatches<'a>) -> Result<Command<'a>, UseError>
    ensures { IsGiven (codes "rules") (rows_of (found_of found.now)) result }
{
    let json = is_set(found, "json");
    let Some(name) = found.get_str("code") else {
        return Ok(Command::Rules { code: None, json });
    };
    match AnyCode::named(name) {
        Some(code) => Ok(Command::Rules {
            code: Some(code),
            json,
        }),
        None => Err(UseError::NoCommand),
    }
}

/// The command `grammar`.
fn grammar_in<'a>(found: &ArgMatches<'a>) -> Command<'a>
    ensures { IsGiven (codes "grammar") (rows_of (found_of found.now)) (Ok result) }
{
    Command::Grammar {
        file: found.get_str("file"),
    }
}

/// The command of a name on one file, if it is one with all its texts; the name is of no other kind of command.
fn one_file_command<'a>(
    alloc: Global,
    name: &str,
    found: &ArgMatches<'a>,
    grammar: Option<&'a str>,
    file: &'a str,
) -> Result<Command<'a>, UseError>
    requires files { IsOfFiles name.now }
    requires task { (task : Task) → ¬ (name.now ≡ task_name task) }
    ensures { IsGivenFor name.now (rows_of (found_of found.now)) (path_of grammar.entry) (file.now ∷ []) result }
{
    match name {
        "show" => show_in(found, grammar, file),
        "annotate" => annotate_in(found, grammar, file),
        "graph" => graph_in(found, grammar, file),
        "asm" => asm_in(found, grammar, file),
        "trace" => trace_in(alloc, found, grammar, file),
        _ => Err(UseError::NoCommand),
    }
}

/// The task of the command of a name, if it is one on modules.
fn task_in(name: &str, found: &ArgMatches<'_>) -> Option<Task>
    ensures named { MatchOption result ((task : Task) → ¬ (name.now ≡ task_name task))
        (λ task. name.now ≡ task_name task) }
    ensures detailed { IfSome result (λ task.
        IsDetailed (first_of (codes "full") (rows_of (found_of found.now))) task) }
{
    match name {
        "check" => Some(Task::Check),
        "explain" => Some(Task::Explain {
            full: is_set(found, "full"),
        }),
        _ => None,
    }
}

/// Whether two words are the same.
fn is_same(one: &str, other: &str) -> bool
    ensures { result ≡ bytes_eq one.now other.now }
{
    one == other
}

/// How many of these words are this one.
fn occurrences_of(word: &str, words: &[&str]) -> usize
    ensures { result ≡ count_of word.now (map (λ w. w.now) words.now) }
{
    let mut count = 0usize;
    for other in words {
        if is_same(other, word) {
            count += 1;
        }
    }
    count
}

/// Whether these files are one or more, of which at most one is the standard input.
fn are_modules(files: &[&str]) -> bool
    ensures { IsTrue result ↔ ((1 ≤ length files.now) × (inputs_among (map (λ file. file.now) files.now) ≤ 1)) }
{
    !files.is_empty() && occurrences_of("-", files) < 2
}

/// The command that does a task on these files, if it is one with all its texts.
fn judge_command<'a>(
    alloc: Global,
    task: Task,
    found: &ArgMatches<'a>,
    grammar: Option<&'a str>,
    files: &[&'a str],
) -> Result<Command<'a>, UseError>
    requires { IsDetailed (first_of (codes "full") (rows_of (found_of found.now))) task }
    ensures { IsGivenFor (task_name task) (rows_of (found_of found.now)) (path_of grammar.entry)
        (map (λ file. file.now) files.now) result }
{
    if !are_modules(files) {
        return Err(UseError::NoCommand);
    }
    let Some(naming) = naming_in(found) else {
        return Err(UseError::NoCommand);
    };
    let Some(scope) = scope_in(found) else {
        return Err(UseError::NoCommand);
    };
    let files = Vec::from_slice(alloc, files)?;
    Ok(Command::Judge {
        task,
        grammar,
        files,
        scope,
        naming,
        quiet: is_set(found, "quiet"),
        json: is_set(found, "json"),
    })
}

/// The command of a name on these files, if it is one with all its texts.
fn command_on<'a>(
    alloc: Global,
    name: &str,
    found: &ArgMatches<'a>,
    grammar: Option<&'a str>,
    files: &[&'a str],
) -> Result<Command<'a>, UseError>
    requires { IsOfFiles name.now }
    ensures { IsGivenFor name.now (rows_of (found_of found.now)) (path_of grammar.entry)
        (map (λ file. file.now) files.now) result }
{
    if let Some(task) = task_in(name, found) {
        return judge_command(alloc, task, found, grammar, files);
    }
    if files.len() != 1 {
        return Err(UseError::NoCommand);
    }
    one_file_command(alloc, name, found, grammar, files[0])
}

/// The command of a name on files, if it is one with all its texts.
fn file_command_in<'a>(
    alloc: Global,
    name: &str,
    found: &ArgMatches<'a>,
    environment: Option<&'a str>,
) -> Result<Command<'a>, UseError>
    requires { IsOfFiles name.now }
    ensures { IsCommandOf (option_map (λ g. g.now) environment.entry)
        (Some (name.now, rows_of (found_of found.now))) result }
{
    let grammar = found.get_str("grammar").or(environment);
    let Some(files) = found.get_strs("file") else {
        return Err(UseError::NoCommand);
    };
    command_on(alloc, name, found, grammar, files)
}

/// The command that `clap` read, if it is one with all its texts.
fn command_in<'a>(
    alloc: Global,
    matches: &ArgMatches<'a>,
    environment: Option<&'a str>,
) -> Result<Command<'a>, UseError>
    ensures { IsCommandOf (option_map (λ g. g.now) environment.entry) (subcommand_rows_of matches.now) result }
{
    let Some((name, found)) = matches.subcommand() else {
        return Err(UseError::NoCommand);
    };
    match name {
        "rules" => rules_in(found),
        "grammar" => Ok(grammar_in(found)),
        _ => file_command_in(alloc, name, found, environment),
    }
}

/// Whether `--verbose` stands among the words, for what is told where they give no command.
pub fn is_verbose(words: &[&str]) -> bool
    ensures { IsTrue result ↔ (1 ≤ count_of (codes "--verbose") (map (λ w. w.now) words.now)) }
{
    occurrences_of("--verbose", words) > 0
}

/// The command that the words after the program's name give, as `arguments_in` where the environment names no grammar
/// file.
///
/// # Errors
///
/// As `arguments_in`.
pub fn arguments<'a>(alloc: Global, words: &'a [&'a str]) -> Result<Command<'a>, UseError>
    ensures { AnswersTo (map (λ w. w.now) words.now) result }
{
    arguments_in(alloc, words, None)
}

/// The command that the words after the program's name give, where the environment names a grammar file, or none, by
/// the surface of the program (own). The texts are lent by the words. Options may stand in any order, each once. The
/// grammar file is that of `--grammar`, and without it that of the environment; where neither names one there is none,
/// which asks for the built-in grammar. `grammar` takes its own word alone.
///
/// A number is one or more ASCII digits, and one of 32 bits in decimal; a function is a number, which is its id, or
/// else its name; choices are numbers joined by commas, none
/// where the option is not given. Colour is used by the word of `--color`: `auto`, `always` or `never`.
///
/// # Errors
///
/// `NoCommand`: the words fit no command, an option is given twice, both `--with-filename` and `--no-filename` are or
/// both `--as-1.6` and `--opencl`, `-` is two of the files, or a code is unknown. `Memory`: a growth of memory was
/// refused. `Help`: they ask for help, by `help`, `--help` or `-h`. `Version`: they ask for the version, by `--version`
/// or `-V`.
pub fn arguments_in<'a>(
    alloc: Global,
    words: &'a [&'a str],
    environment: Option<&'a str>,
) -> Result<Command<'a>, UseError>
    ensures { Answers (option_map (λ g. g.now) environment.entry) (map (λ w. w.now) words.now) result }
{
    let program = words_for(alloc, words)?;
    let matches = match program.try_get_matches_from(words) {
        Ok(matches) => matches,
        Err(error) => return Err(refusal(error.kind())),
    };
    command_in(alloc, &matches, environment)
}

/// The text that `--help` prints: the commands of the program, a line each.
///
/// # Errors
///
/// Where a growth of memory was refused; there is no other.
pub fn help(alloc: Global) -> Result<String, AllocError> {
    let mut program = all_words(alloc)?;
    program.render_long_help()
}

/// The text that the words ask for where `arguments` answers `Help` or `Version`: the help of the program or of a
/// command, or the version. Of other words it is what is wrong with them, and of those of a command nothing.
///
/// # Errors
///
/// Where a growth of memory was refused; there is no other.
pub fn text_asked(alloc: Global, words: &[&str]) -> Result<String, AllocError> {
    let program = all_words(alloc)?;
    match program.try_get_matches_from(words) {
        Ok(_) => Ok(String::new(alloc)),
        Err(error) => match error.kind() {
            ErrorKind::OutOfMemory => Err(AllocError),
            _ => format!(in alloc; "{error}"),
        },
    }
}
