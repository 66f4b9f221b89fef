//! What the options of a command ask for.
ghost use Rattle.std.specs.Prelude.{◌≡◌, IfOk};
ghost use Rattle.spv_commands.specs.Assemble.{order_of};
ghost use Rattle.spv_commands.specs.Task.{AreRules, detail_of, is_colored, view_of};
ghost use Rattle.spv_commands.specs.inner.Asked as asked;

use spv_command_line::{AnyCode, Color, Command, Form, Scope, Task};
use spv_explain::{Detail, rules_json, rules_text};
use spv_views::View;
use spv_words::Order;
use std::alloc::{AllocError, Global};

/// What a command reads of its file.
#[derive(Clone, Copy)]
pub enum Reads {
    /// It has none.
    Nothing,
    /// The bytes of a module: as many as one has at most, and one more where there are more.
    Module,
    /// All the bytes of a text.
    Text,
}

/// How much an explanation tells, where it is to be full or not.
pub fn detail_by(full: bool) -> Detail
    ensures { result ≡ detail_of full }
{
    if full { Detail::Full } else { Detail::Short }
}

/// The order in which the bytes of words are written.
pub fn order_by(big: bool) -> Order
    ensures { result ≡ order_of big }
{
    if big { Order::Big } else { Order::Little }
}

/// Whether a text has colour. Where a terminal asks for it, that was settled before.
fn is_in_color(color: Color) -> bool
    ensures { result ≡ is_colored color }
{
    match color {
        Color::Always => true,
        Color::Auto | Color::Never => false,
    }
}

/// What `annotate` writes of the file of a name.
fn view_by(form: Form, color: Color, file: &str) -> View<'_>
    ensures { result ≡ view_of form color file.entry }
{
    match form {
        Form::Text => View::Text {
            color: is_in_color(color),
        },
        Form::Page => View::Page { title: file },
    }
}

/// What a command shows people of its file: a picture, where it is not `annotate`.
pub fn how_by<'a>(command: &Command<'a>) -> View<'a>
    ensures { result ≡ asked.how_of command.now }
{
    match command {
        Command::Annotate {
            file,
            form,
            color,
            ..
        } => view_by(*form, *color, *file),
        _ => View::Graph,
    }
}

/// As which version a command reads a module, and how far it looks at it.
pub fn scope_of(command: &Command) -> Scope {
    match command {
        Command::Judge { scope, .. }
        | Command::Show { scope, .. }
        | Command::Trace { scope, .. }
        | Command::Annotate { scope, .. }
        | Command::Graph { scope, .. } => *scope,
        Command::Asm { .. } | Command::Rules { .. } | Command::Grammar { .. } => {
            Scope::Own { as_1_6: false }
        }
    }
}

/// What a command reads of its file.
pub fn reads_of(command: &Command) -> Reads
    ensures { result ≡ asked.reads_of command.now }
{
    match command {
        Command::Judge { .. }
        | Command::Show { .. }
        | Command::Trace { .. }
        | Command::Annotate { .. }
        | Command::Graph { .. } => Reads::Module,
        Command::Asm { .. } => Reads::Text,
        Command::Rules { .. } | Command::Grammar { .. } => Reads::Nothing,
    }
}

/// Whether a task explains.
fn explains(task: Task) -> bool
    ensures { result ≡ asked.explains task }
{
    match task {
        Task::Check => false,
        Task::Explain { .. } => true,
    }
}

/// Whether a command explains a verdict.
pub fn is_explaining(command: &Command) -> bool
    ensures { result ≡ asked.is_explaining command.now }
{
    match command {
        Command::Judge { task, .. } => explains(*task),
        _ => false,
    }
}

/// What codes say, or one of them, as lines or as objects of JSON.
pub fn rules_bytes(alloc: Global, code: Option<AnyCode>, json: bool) -> Result<Vec<u8>, AllocError>
    ensures { IfOk result (λ v. AreRules code json v.items) }
{
    if json {
        return rules_json(alloc, code);
    }
    Ok(rules_text(alloc, code)?.into_bytes())
}
