//! The lines of a reason.

ghost use Rattle.std.specs.Prelude.{◌≡◌, ◌++◌, codes, decimal, string_bytes, IfOk, OnOk};
ghost use Rattle.spv_lines.specs.Fault.{IsFailure};
ghost use Rattle.spv_parser.specs.Reason.{plain_reason};
ghost use Rattle.spv_views.specs.text_fault.Lines.{Tells, found_text, keyed, reason_text, shown, wanted_text};

use crate::text_fault::cut::push_shown;
use crate::text_fault::wanted::push_wanted;
use itoa::Buffer;
use spv_lines::{AsmError, split_token};
use spv_parser::{TextReason, Wanted, reason};
use spv_table::Table;
use std::alloc::{AllocError, Global};

/// Adds a line with a text.
fn push_line(out: &mut String, key: &str, text: &str) -> Result<(), AllocError>
    ensures { OnOk result (string_bytes out.new ≡ string_bytes out.old ++ keyed key.now text.now) }
{
    out.push_str(key)?;
    out.push_str(": ")?;
    out.push_str(text)?;
    out.push_str("\n")
}

/// Adds a line with a text as it is shown.
fn push_shown_line(out: &mut String, key: &str, text: &str) -> Result<(), AllocError>
    ensures { OnOk result (string_bytes out.new ≡ string_bytes out.old ++ keyed key.now (shown text.now)) }
{
    out.push_str(key)?;
    out.push_str(": ")?;
    push_shown(out, text)?;
    out.push_str("\n")
}

/// Adds the line of a column.
fn push_column(out: &mut String, column: usize) -> Result<(), AllocError>
    ensures { OnOk result (string_bytes out.new ≡ string_bytes out.old ++ keyed (codes "column") (decimal column)) }
{
    let mut buffer = Buffer::new();
    push_line(out, "column", buffer.format(column))
}

/// Adds the line of what is wanted.
fn push_wanted_line(out: &mut String, table: &Table, wanted: Wanted) -> Result<(), AllocError>
    ensures { OnOk result (string_bytes out.new
        ≡ string_bytes out.old ++ keyed (codes "wanted") (wanted_text table.now wanted)) }
{
    out.push_str("wanted: ")?;
    push_wanted(out, table, wanted)?;
    out.push_str("\n")
}

/// Adds the line of what stands where something else is wanted: the word at the front, or a line of the header.
fn push_found_line(out: &mut String, wanted: Wanted, rest: &str) -> Result<(), AllocError>
    ensures { OnOk result (string_bytes out.new
        ≡ string_bytes out.old ++ keyed (codes "found") (found_text wanted rest.now)) }
{
    if rest.is_empty() {
        return push_line(out, "found", "the end of the line");
    }
    let (word, _) = split_token(rest);
    if word.is_empty() {
        return push_line(out, "found", "a space");
    }
    match wanted {
        Wanted::HeaderLine(_) => push_shown_line(out, "found", rest),
        _ => push_shown_line(out, "found", word),
    }
}

/// The lines of a reason.
fn lines_of(
    alloc: Global,
    table: &Table,
    sentence: &str,
    why: &TextReason<'_>,
) -> Result<String, AllocError>
    ensures { IfOk result (λ s. string_bytes s ≡ reason_text table.now sentence.now (plain_reason why.now)) }
{
    let mut out = String::new(alloc);
    push_line(&mut out, "rule", sentence)?;
    push_shown_line(&mut out, "at", why.text)?;
    push_column(&mut out, why.column())?;
    push_wanted_line(&mut out, table, why.wanted)?;
    push_found_line(&mut out, why.wanted, why.rest)?;
    Ok(out)
}

/// The lines that say why a text fails, each ended by a line feed: the sentence of the code, the line, the octet of it
/// where its reading stopped, from 1, what is wanted there, and what stands there. `error` is that of `assemble`, other
/// than S6, and `sentence` that of its code. The text is read again, up to the line that fails.
///
/// An `AllocError` comes only where a growth of memory was refused.
pub fn reason_lines(
    alloc: Global,
    table: &Table,
    sentence: &str,
    text: &str,
    error: AsmError,
) -> Result<String, AllocError>
    ensures { IsFailure table.now text.now error.code error.line
        → IfOk result (λ s. Tells table.now sentence.now text.now error.code error.line (string_bytes s)) }
{
    // Of every table, and so of this one, no parameter and no base is of the kind of results.
    let _ = table.kind(0);
    match reason(alloc, table, text)? {
        Some(why) => {
            let lines = lines_of(alloc, table, sentence, &why)?;
            Ok(lines)
        }
        None => Ok(String::new(alloc)),
    }
}
