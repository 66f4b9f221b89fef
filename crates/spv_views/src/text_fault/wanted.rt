//! What is wanted, in words.

ghost use Rattle.std.specs.Prelude.{◌≡◌, ◌++◌, [], option_map, string_bytes, unwrap_or, OnOk};
ghost use Rattle.spv_table.specs.Table.{kind_of};
ghost use Rattle.spv_views.specs.text_fault.Lines.{header_words, kind_name, number_words, wanted_text};

use crate::text_fault::cut::push_shown;
use spv_parser::Wanted;
use spv_table::Table;
use std::alloc::AllocError;

/// What the header's line of a number is.
fn header_words(number: u32) -> &'static str
    ensures { result.now ≡ header_words number }
{
    match number {
        1 => "a line \"; SPIR-V\"",
        2 => "a line \"; Version: 1.6\"",
        3 => "a line \"; Generator: N\", N of 32 bits",
        4 => "a line \"; Bound: N\", N from 1 to 4194303",
        _ => "a line \"; Schema: 0\"",
    }
}

/// A number of one word or two.
fn number_words(words: u32, hexadecimal: bool) -> &'static str
    ensures { result.now ≡ number_words words hexadecimal }
{
    match (hexadecimal, words == 2) {
        (true, true) => "0x and 16 hexadecimal digits",
        (true, false) => "0x and 8 hexadecimal digits",
        (false, true) => "a number of 64 bits",
        (false, false) => "a number of 32 bits",
    }
}

/// The name of a kind; empty where there is none.
fn name_of(table: &Table, number: u32) -> &str
    ensures { result.now ≡ unwrap_or (option_map (λ s. s.kind.name) (kind_of table.now number)) [] }
{
    match table.kind(number) {
        Some(kind) => kind.name(),
        None => "",
    }
}

/// Adds a text and the name of a kind, as it is shown.
fn push_kind(out: &mut String, table: &Table, text: &str, number: u32) -> Result<(), AllocError>
    ensures { OnOk result (string_bytes out.new ≡ string_bytes out.old ++ (text.now ++ kind_name table.now number)) }
{
    out.push_str(text)?;
    push_shown(out, name_of(table, number))
}

/// Adds what is wanted.
pub fn push_wanted(out: &mut String, table: &Table, wanted: Wanted) -> Result<(), AllocError>
    ensures { OnOk result (string_bytes out.new ≡ string_bytes out.old ++ wanted_text table.now wanted) }
{
    match wanted {
        Wanted::HeaderLine(number) => out.push_str(header_words(number)),
        Wanted::Equals => out.push_str("= and the name of an instruction"),
        Wanted::Name => out.push_str("the name of an instruction"),
        Wanted::Result => out.push_str("a result id and ="),
        Wanted::ResultId => out.push_str("a result id, as %7"),
        Wanted::NoResult => out.push_str("no result id"),
        Wanted::Id => out.push_str("an id, as %7"),
        Wanted::Number { words, hexadecimal } => out.push_str(number_words(words, hexadecimal)),
        Wanted::KnownWidth => out.push_str("a number of a type that the lines before declare"),
        Wanted::Text => out.push_str("a text in quotes"),
        Wanted::Value(kind) => push_kind(out, table, "a value of ", kind),
        Wanted::Mask(kind) => push_kind(out, table, "a mask of ", kind),
        Wanted::Nothing(kind) => push_kind(
            out,
            table,
            "no text: the grammar has no form of ",
            kind,
        ),
        Wanted::End => out.push_str("the end of the line"),
        Wanted::Shorter => {
            out.push_str("an instruction of at most 65535 words, in a module of at most 4194304")
        }
    }
}
