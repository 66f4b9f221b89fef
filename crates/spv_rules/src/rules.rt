//! Codes, and what each says: the text of `spv rules`.
ghost use Rattle.std.specs.Prelude.{◌≡◌, ◌≤◌, ◌<◌, ◌++◌, [], ◌∷◌, Some, IfOk, MatchOption, OnOk};
ghost use Rattle.std.specs.Prelude.{flat_map, length, map, slice_get, string_bytes};
ghost use Rattle.spv_rules.specs.Codes.{all_codes, code_line, indented, told_text};
ghost use Rattle.spv_rules.specs.Errors.{any_meaning, any_name, any_section, any_sentence, error_codes};
ghost use Rattle.spv_rules.specs.Rules.{IsNamed, meaning_of, name_of, number_of, place_of, section_of, sentence_of};
ghost use Rattle.spv_rules.specs.Table.{row_count, rows};
ghost use Rattle.spv_rules.specs.inner.Held.{plain};
ghost use Rattle.spv_rules.specs.inner.Lines.{indented_line};
ghost use Rattle.spv_rules.specs.declared.errors.AnyCode.TheVariants.{Error};
ghost use Rattle.spv_rules.specs.declared.rules.Code.{Code};

use crate::errors::{AnyCode, error_at, error_count};
use crate::table::{Row, count, row_at};
use spv_module::Rule;
use spv_words::WordError;
use std::alloc::{AllocError, Global};

/// A code that a verdict line may have.
#[derive(Clone, Copy, PartialEq, Eq)]
pub enum Code {
    /// One of the codes on words, W1 to W9.
    Word(WordError),
    /// A rule on instructions.
    Rule(Rule),
}

impl Code {
    /// Its place in the table.
    fn place(self) -> usize
        ensures place { result ≡ place_of self }
        ensures within { result < row_count }
    {
        match self {
            Code::Word(code) => code as usize,
            Code::Rule(rule) => 9 + rule as usize,
        }
    }

    /// Its row of the table.
    fn row(self) -> &'static Row
        ensures { slice_get rows (place_of self) ≡ Some (plain result.now) }
    {
        row_at(self.place())
    }

    /// Its name, as `W3` or `A1`.
    pub fn name(self) -> &'static str
        ensures name { result.now ≡ name_of self }
        ensures short { length result.now ≤ 3 }
    {
        self.row().2
    }

    /// Its name with a zero octet at the end, as C takes it.
    pub fn c_name(self) -> &'static str
        ensures { result.now ≡ name_of self ++ 0 ∷ [] }
    {
        self.row().3
    }

    /// What it says, in a sentence, with its sources, and with a zero octet at the end, as C takes it.
    pub fn c_sentence(self) -> &'static str
        ensures { result.now ≡ sentence_of self ++ 0 ∷ [] }
    {
        self.row().4
    }

    /// What it says, in a sentence, with its sources in brackets: sections of the Khronos SPIR-V Specification 1.6, or
    /// own.
    pub fn sentence(self) -> &'static str
        ensures { result.now ≡ sentence_of self }
    {
        let text = self.c_sentence();
        &text[..text.len() - 1]
    }

    /// The sources of the sentence.
    pub fn section(self) -> &'static str
        ensures { result.now ≡ section_of self }
    {
        self.row().5
    }

    /// Where it is broken: a line for each place.
    pub fn meaning(self) -> &'static str
        ensures { result.now ≡ meaning_of self }
    {
        self.row().6
    }

    /// Its number in C: its letter's hundred, and then its own number, so that I7 is 107 and W2 is 2.
    pub fn number(self) -> u32
        ensures { result ≡ number_of self }
    {
        self.row().1
    }

    /// The code of that number; None where no code has it.
    pub fn numbered(number: u32) -> Option<Code>
        ensures { MatchOption result ((code : Code) → ¬ (number ≡ number_of code))
            (λ code. number ≡ number_of code) }
    {
        for place in 0..count() {
            let row = row_at(place);
            if row.1 == number {
                return Some(row.0);
            }
        }
        None
    }

    /// The code of that name, in capital or small letters; None where no code has it.
    pub fn named(name: &str) -> Option<Code>
        ensures { MatchOption result ((code : Code) → ¬ (IsNamed name.now (name_of code)))
            (λ code. IsNamed name.now (name_of code)) }
    {
        for place in 0..count() {
            let row = row_at(place);
            if name.eq_ignore_ascii_case(row.2) {
                return Some(row.0);
            }
        }
        None
    }
}

/// The code of an error at a place among these; None behind the last.
fn error_code_at(place: usize) -> Option<AnyCode>
    ensures { result ≡ slice_get (map Error error_codes) place }
{
    if place < error_count() {
        return Some(AnyCode::Error(error_at(place)));
    }
    None
}

/// The code at a place among all that a command prints, from 0: those of verdicts first, in the order of their tables,
/// and then those of errors. None behind the last.
pub fn code_at(place: usize) -> Option<AnyCode>
    ensures { result ≡ slice_get all_codes place }
{
    let verdicts = count();
    if place < verdicts {
        return Some(AnyCode::Verdict(row_at(place).0));
    }
    error_code_at(place - verdicts)
}

impl AnyCode {
    /// Its name, as `A1` or `J4`.
    pub fn name(self) -> &'static str
        ensures { result.now ≡ any_name self }
    {
        match self {
            AnyCode::Verdict(code) => code.name(),
            AnyCode::Error(code) => code.name(),
        }
    }

    /// What it says, in a sentence, with its sources in brackets.
    pub fn sentence(self) -> &'static str
        ensures { result.now ≡ any_sentence self }
    {
        match self {
            AnyCode::Verdict(code) => code.sentence(),
            AnyCode::Error(code) => code.sentence(),
        }
    }

    /// The sources of the sentence.
    pub fn section(self) -> &'static str
        ensures { result.now ≡ any_section self }
    {
        match self {
            AnyCode::Verdict(code) => code.section(),
            AnyCode::Error(code) => code.section(),
        }
    }

    /// Where it is broken, or when it is told: a line for each place.
    pub fn meaning(self) -> &'static str
        ensures { result.now ≡ any_meaning self }
    {
        match self {
            AnyCode::Verdict(code) => code.meaning(),
            AnyCode::Error(code) => code.meaning(),
        }
    }
}

/// Adds the line of a code: its name and its sentence.
fn push_code(out: &mut String, code: AnyCode) -> Result<(), AllocError>
    ensures { OnOk result (string_bytes out.new ≡ string_bytes out.old ++ code_line code) }
{
    out.push_str(code.name())?;
    out.push_str(": ")?;
    out.push_str(code.sentence())?;
    out.push_str("\n")
}

/// Adds a line after four spaces.
fn push_indented(out: &mut String, line: &str) -> Result<(), AllocError>
    ensures { OnOk result (string_bytes out.new ≡ string_bytes out.old ++ indented_line line.now) }
{
    out.push_str("    ")?;
    out.push_str(line)?;
    out.push_str("\n")
}

/// Adds where a code is broken, each line of it after four spaces.
fn push_meaning(out: &mut String, meaning: &str) -> Result<(), AllocError>
    ensures { OnOk result (string_bytes out.new ≡ string_bytes out.old ++ indented meaning.now) }
{
    let mut rest = meaning;
    while let Some((line, more)) = rest.split_once('\n') {
        push_indented(out, line)?;
        rest = more;
    }
    push_indented(out, rest)
}

/// Adds the line of each code.
fn push_codes(out: &mut String) -> Result<(), AllocError>
    ensures { OnOk result (string_bytes out.new ≡ string_bytes out.old ++ flat_map code_line all_codes) }
{
    let mut place = 0;
    while let Some(code) = code_at(place) {
        push_code(out, code)?;
        place += 1;
    }
    Ok(())
}

/// A line for each code that a command prints, in the order of the tables: its name and its sentence. Of one code, if
/// one is asked for, that line and where it is broken.
///
/// An `AllocError` comes only where a growth of memory was refused.
pub fn rules_text(alloc: Global, code: Option<AnyCode>) -> Result<String, AllocError>
    ensures { IfOk result (λ t. string_bytes t ≡ told_text code) }
{
    let mut out = String::new(alloc);
    match code {
        Some(code) => {
            push_code(&mut out, code)?;
            push_meaning(&mut out, code.meaning())?;
        }
        None => push_codes(&mut out)?,
    }
    Ok(out)
}
