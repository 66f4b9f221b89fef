//! Texts in quotes.

ghost use Rattle.std.specs.Prelude.{◌≡◌, ◌≢◌, ◌<◌, ◌++◌, ◌∷◌, [], ℕ, List, Some, None};
ghost use Rattle.std.specs.Prelude.{IfOk, IfSome, MatchOption, length, drop, slice_index, string_bytes};
ghost use Rattle.spv_lines.specs.Operand.{escaped, quoted};
ghost use Rattle.spv_lines.specs.inner.Quoted.{IsMark};

use crate::split::{behind, split_before};
use memchr::memchr3;
use std::alloc::AllocError;

/// What stands in quotes where an octet is no plain one.
#[derive(Clone, Copy)]
enum Mark<'a> {
    /// The closing quote, and what is behind it.
    End(&'a str),
    /// An escaped character, and what is behind it.
    Escape(char, &'a str),
    /// What stands in no quotes.
    Wrong,
}

/// The mark at the front of a text whose first octet is `"`, `\` or a line feed.
fn mark_of(text: &str) -> Mark<'_>
    ensures { IsMark text.now result }
{
    if let Some(rest) = behind(text, b'"') {
        return Mark::End(rest);
    }
    let Some(escaped) = behind(text, b'\\') else {
        return Mark::Wrong;
    };
    if let Some(rest) = behind(escaped, b'"') {
        return Mark::Escape('"', rest);
    }
    if let Some(rest) = behind(escaped, b'\\') {
        return Mark::Escape('\\', rest);
    }
    if let Some(rest) = behind(escaped, b'n') {
        return Mark::Escape('\n', rest);
    }
    Mark::Wrong
}

/// Reads the text in quotes at the front of a text into `out`, without its escapes, and gives what stands behind the
/// closing quote. None where no text in quotes stands there; then nothing is said of what is left in `out`.
///
/// An `AllocError` comes only where a growth of memory was refused, and then nothing is said of what is left in `out`.
pub fn read_quoted<'a>(out: &mut String, text: &'a str) -> Result<Option<&'a str>, AllocError>
    ensures { IfOk result (λ o. MatchOption o ((t u : List ℕ) → text.now ≡ quoted t ++ u → ⊥)
        (λ u. text.now ≡ quoted (string_bytes out.new) ++ u.now)) }
{
    out.clear();
    let Some(inside) = behind(text, b'"') else {
        return Ok(None);
    };
    let mut rest = inside;
    while let Some(at) = memchr3(b'"', b'\\', b'\n', rest.as_bytes()) {
        let (plain, marked) = split_before(rest, at);
        out.push_str(plain)?;
        match mark_of(marked) {
            Mark::End(behind) => return Ok(Some(behind)),
            Mark::Escape(character, behind) => {
                out.push(character)?;
                rest = behind;
            }
            Mark::Wrong => return Ok(None),
        }
    }
    Ok(None)
}

/// A text in quotes that has no escapes, and what stands behind the closing quote.
#[derive(Clone, Copy)]
pub struct Quotation<'a> {
    pub text: &'a str,
    pub rest: &'a str,
}

/// Lends the text in quotes at the front of a text, if that has no escapes. None where no such text in quotes stands
/// there.
pub fn read_unescaped(text: &str) -> Option<Quotation<'_>>
    ensures { IfSome result (λ q. text.now ≡ quoted q.text.now ++ q.rest.now) }
{
    let Some(inside) = behind(text, b'"') else {
        return None;
    };
    let Some(at) = memchr3(b'"', b'\\', b'\n', inside.as_bytes()) else {
        return None;
    };
    let (plain, marked) = split_before(inside, at);
    let Some(rest) = behind(marked, b'"') else {
        return None;
    };
    Some(Quotation { text: plain, rest })
}
