//! Texts in quotes.

ghost use Rattle.std.specs.Prelude.{◌≡◌, ◌++◌, ◌∷◌, [], true, OnOk, string_bytes};
ghost use Rattle.memchr.specs.Find.{is_byte3};
ghost use Rattle.spv_lines.specs.Operand.{escaped, quoted};

use memchr::memchr3;
use std::alloc::AllocError;

/// How `"`, `\\` and a line feed stand in quotes.
fn escape_of(octet: u8) -> &'static str
    ensures { is_byte3 34 92 10 octet ≡ true → result.now ≡ escaped (octet ∷ []) }
{
    match octet {
        b'"' => "\\\"",
        b'\\' => "\\\\",
        _ => "\\n",
    }
}

/// Adds a text in double quotes, with `\"`, `\\` and `\n` for these three characters.
///
/// An `AllocError` comes only where a growth of memory was refused, and then nothing is said of what is left.
pub fn push_quoted(out: &mut String, text: &str) -> Result<(), AllocError>
    ensures { OnOk result (string_bytes out.new ≡ string_bytes out.old ++ quoted text.now) }
{
    out.push('"')?;
    let mut rest = text;
    while let Some(at) = memchr3(b'"', b'\\', b'\n', rest.as_bytes()) {
        out.push_str(&rest[..at])?;
        out.push_str(escape_of(rest.as_bytes()[at]))?;
        rest = &rest[at + 1..];
    }
    out.push_str(rest)?;
    out.push('"')?;
    Ok(())
}
