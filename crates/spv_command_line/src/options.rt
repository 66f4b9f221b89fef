//! The options after the name of a command, as `clap` read them.
ghost use Rattle.std.specs.Prelude.{◌≡◌, ◌↔◌, ℕ, List, codes, IfErr, IfOk, IsTrue, MatchOption};
ghost use Rattle.clap.specs.Words.{first_of, found_of, rows_of};
ghost use Rattle.spv_command_line.specs.declared.command_line.Color.{Color};
ghost use Rattle.spv_command_line.specs.declared.command_line.Naming.{Naming};
ghost use Rattle.spv_command_line.specs.declared.command_line.UseError.TheVariants.{NoCommand};
ghost use Rattle.spv_command_line.specs.CommandLine.{IsColor, IsFlag, IsForm, IsNaming, IsScopeOf, color_word};
ghost use Rattle.spv_command_line.specs.inner.CommandLine.{form_of, naming_of, scope_of};
ghost use Rattle.spv_command_line.specs.Number.{AreNumbersOf, IsChoice, IsChoiceIfAny, IsChoiceOf, IsNumberOf};
ghost use Rattle.spv_names.specs.declared.chosen.Chosen.{Chosen};
ghost use Rattle.spv_scope.specs.declared.scope.Scope.{Scope};

use crate::command_line::{Color, Form, Naming, UseError};
use crate::number::{number_in, numbers_in};
use clap::ArgMatches;
use spv_names::Chosen;
use spv_scope::Scope;
use std::alloc::{AllocError, Global};

/// Whether a text is that of a flag that is set.
fn is_true(text: &str) -> bool
    ensures { IsTrue result ↔ (text.now ≡ codes "true") }
{
    match text {
        "true" => true,
        _ => false,
    }
}

/// Whether `clap` read this flag.
pub fn is_set(found: &ArgMatches<'_>, flag: &str) -> bool
    ensures { IsFlag (first_of flag.now (rows_of (found_of found.now))) result }
{
    match found.get_str(flag) {
        Some(text) => is_true(text),
        None => false,
    }
}

/// As which version a module is read, and how far it is looked at, by the options for it. None where those are given
/// that say different things of a version.
fn scope_by(as_1_6: bool, extended: bool, opencl: bool) -> Option<Scope>
    ensures { result ≡ scope_of as_1_6 extended opencl }
{
    match (opencl, extended) {
        (true, _) => { if as_1_6 { None } else { Some(Scope::OpenCl) } }
        (false, true) => Some(Scope::Extended { as_1_6 }),
        (false, false) => Some(Scope::Own { as_1_6 }),
    }
}

/// As which version a module is read, and how far it is looked at, by what `clap` read.
pub fn scope_in(found: &ArgMatches<'_>) -> Option<Scope>
    ensures { MatchOption result ((scope : Scope) → ¬ (IsScopeOf (rows_of (found_of found.now)) scope))
        (λ scope. IsScopeOf (rows_of (found_of found.now)) scope) }
{
    let as_1_6 = is_set(found, "as-1.6");
    let extended = is_set(found, "extended");
    let opencl = is_set(found, "opencl");
    scope_by(as_1_6, extended, opencl)
}

/// Which verdicts have names by the options that ask for it and against it. None where both do.
fn naming_by(with_filename: bool, no_filename: bool) -> Option<Naming>
    ensures { result ≡ naming_of with_filename no_filename }
{
    match (with_filename, no_filename) {
        (false, false) => Some(Naming::OfSeveral),
        (true, false) => Some(Naming::Always),
        (false, true) => Some(Naming::Never),
        (true, true) => None,
    }
}

/// Which verdicts have names by what `clap` read.
pub fn naming_in(found: &ArgMatches<'_>) -> Option<Naming>
    ensures { MatchOption result
        ((naming : Naming) → ¬ (IsNaming (first_of (codes "with-filename") (rows_of (found_of found.now)))
        (first_of (codes "no-filename") (rows_of (found_of found.now))) naming))
        (λ naming. IsNaming (first_of (codes "with-filename") (rows_of (found_of found.now)))
        (first_of (codes "no-filename") (rows_of (found_of found.now))) naming) }
{
    let with_filename = is_set(found, "with-filename");
    let no_filename = is_set(found, "no-filename");
    naming_by(with_filename, no_filename)
}

/// The number of an option that must be given. None where it is not, or its text is no number of 32 bits.
pub fn number_of(found: &ArgMatches<'_>, option: &str) -> Option<u32>
    ensures { MatchOption result ((n : ℕ) → ¬ (IsNumberOf (first_of option.now (rows_of (found_of found.now))) n))
        (λ n. IsNumberOf (first_of option.now (rows_of (found_of found.now))) n) }
{
    match found.get_str(option) {
        Some(text) => number_in(text.as_bytes()),
        None => None,
    }
}

/// The function that a text chooses: that of an id, where it is a number of 32 bits, and else that of a name.
fn chosen_by<'a>(text: &'a str) -> Chosen<'a>
    ensures { IsChoice text.now result }
{
    match number_in(text.as_bytes()) {
        Some(id) => Chosen::Id(id),
        None => Chosen::Name(text),
    }
}

/// The function of an option that must be given, if it is.
pub fn chosen_of<'a>(found: &ArgMatches<'a>, option: &str) -> Option<Chosen<'a>>
    ensures { MatchOption result
        ((chosen : Chosen) → ¬ (IsChoiceOf (first_of option.now (rows_of (found_of found.now))) chosen))
        (λ chosen. IsChoiceOf (first_of option.now (rows_of (found_of found.now))) chosen) }
{
    match found.get_str(option) {
        Some(text) => Some(chosen_by(text)),
        None => None,
    }
}

/// The function of an option that may be given, if it is.
pub fn chosen_if_given<'a>(found: &ArgMatches<'a>, option: &str) -> Option<Chosen<'a>>
    ensures { IsChoiceIfAny (first_of option.now (rows_of (found_of found.now))) result }
{
    match found.get_str(option) {
        Some(text) => Some(chosen_by(text)),
        None => None,
    }
}

/// The numbers of an option that may be given. None where its text is no numbers of 32 bits joined by commas.
pub fn numbers_of(
    alloc: Global,
    found: &ArgMatches<'_>,
    option: &str,
) -> Result<Option<Vec<u32>>, AllocError>
    ensures { IfOk result (λ o. MatchOption o
        ((ns : List ℕ) → ¬ (AreNumbersOf (first_of option.now (rows_of (found_of found.now))) ns))
        (λ v. AreNumbersOf (first_of option.now (rows_of (found_of found.now))) v.items)) }
{
    match found.get_str(option) {
        Some(text) => numbers_in(alloc, text.as_bytes()),
        None => Ok(Some(Vec::new(alloc))),
    }
}

/// What `annotate` writes by an option that asks for a page.
fn form_by(html: bool) -> Form
    ensures { result ≡ form_of html }
{
    if html { Form::Page } else { Form::Text }
}

/// What `annotate` writes by what `clap` read.
pub fn form_in(found: &ArgMatches<'_>) -> Form
    ensures { IsForm (first_of (codes "html") (rows_of (found_of found.now))) result }
{
    form_by(is_set(found, "html"))
}

/// The use of colour that a word asks for, if it is a word for one.
fn color_named(word: &str) -> Option<Color>
    ensures { MatchOption result ((color : Color) → ¬ (word.now ≡ color_word color))
        (λ color. word.now ≡ color_word color) }
{
    match word {
        "auto" => Some(Color::Auto),
        "always" => Some(Color::Always),
        "never" => Some(Color::Never),
        _ => None,
    }
}

/// The use of colour that `clap` read.
///
/// # Errors
///
/// `NoCommand` where its word is none for a use of colour.
pub fn color_in(found: &ArgMatches<'_>) -> Result<Color, UseError>
    ensures read { IfOk result (λ color. IsColor (first_of (codes "color") (rows_of (found_of found.now))) color) }
    ensures refused { IfErr result (λ e. (e ≡ NoCommand)
        × ((color : Color) → ¬ (IsColor (first_of (codes "color") (rows_of (found_of found.now))) color))) }
{
    let Some(word) = found.get_str("color") else {
        return Ok(Color::Auto);
    };
    color_named(word).ok_or(UseError::NoCommand)
}
