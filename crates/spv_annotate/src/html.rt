//! Texts in HTML.

ghost use Rattle.std.specs.Prelude.{◌≡◌, ◌++◌, true, OnOk, string_bytes};
ghost use Rattle.memchr.specs.Find.{IsFirstByte};
ghost use Rattle.spv_annotate.specs.Html.{escaped, escaped_byte, is_marked};

use std::alloc::AllocError;

/// Whether a byte stands in HTML for something else than itself.
#[inline(always)]
pub fn is_mark(byte: u8) -> bool
    ensures { result ≡ is_marked byte }
{
    byte == b'<' || byte == b'>' || byte == b'&' || byte == b'"' || byte == b'\''
}

/// The place of the first such byte.
pub fn first_mark(bytes: &[u8]) -> Option<usize>
    ensures { IsFirstByte is_marked bytes.now result }
{
    for (at, byte) in bytes.iter().enumerate() {
        if is_mark(*byte) {
            return Some(at);
        }
    }
    None
}

/// The character reference of such a byte.
fn reference(byte: u8) -> &'static str
    ensures { is_marked byte ≡ true → result.now ≡ escaped_byte byte }
{
    match byte {
        b'<' => "&lt;",
        b'>' => "&gt;",
        b'&' => "&amp;",
        b'"' => "&quot;",
        _ => "&#39;",
    }
}

/// Adds a text as it is written in HTML.
///
/// An `AllocError` comes only where a growth of memory was refused, and then nothing is said of what is left.
pub fn push_escaped(out: &mut String, text: &str) -> Result<(), AllocError>
    ensures { OnOk result (string_bytes out.new ≡ string_bytes out.old ++ escaped text.now) }
{
    let mut rest = text;
    while let Some(at) = first_mark(rest.as_bytes()) {
        out.push_str(&rest[..at])?;
        out.push_str(reference(rest.as_bytes()[at]))?;
        rest = &rest[at + 1..];
    }
    out.push_str(rest)
}
