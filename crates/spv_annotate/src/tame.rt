//! Texts without control characters, most of which have none.

ghost use Rattle.std.specs.Prelude.{◌≡◌, ◌++◌, OnOk, string_bytes, true};
ghost use Rattle.std.specs.List.{list_all};
ghost use Rattle.spv_lines.specs.Plain.{plain_of};
ghost use Rattle.spv_lines.specs.Text.{lines_of};
ghost use Rattle.spv_annotate.specs.inner.Tame as specs;
ghost use Rattle.spv_annotate.specs.inner.Tame.{are_tame_lines, is_tame_octet};

use spv_lines::push_plain;
use std::alloc::AllocError;

/// Whether all octets are of ASCII, and none is a control character. It looks at all of them, so that a compiler can
/// take many at a time.
pub fn are_tame(octets: &[u8]) -> bool
    ensures { result ≡ list_all is_tame_octet octets.now }
{
    let mut tame = true;
    for octet in octets {
        if *octet < 32 || *octet >= 127 {
            tame = false;
        }
    }
    tame
}

/// Whether an octet is a line feed, or one of ASCII that is no control character.
#[inline(always)]
fn is_line_octet(octet: u8) -> bool
    ensures { result ≡ specs.is_line_octet octet }
{
    octet == b'\n' || (octet >= 32 && octet < 127)
}

/// Whether all octets are of ASCII, and none is a control character but line feeds. It looks at all of them, as
/// `are_tame`.
fn are_line_octets(octets: &[u8]) -> bool
    ensures { result ≡ list_all specs.is_line_octet octets.now }
{
    let mut tame = true;
    for octet in octets {
        tame &= is_line_octet(*octet);
    }
    tame
}

/// Whether it is found at once that no line of a text has a control character, or a character that is none of ASCII.
pub fn has_tame_lines(text: &str) -> bool
    ensures { result ≡ true → are_tame_lines (lines_of text.now) ≡ true }
{
    are_line_octets(text.as_bytes())
}

/// Whether a line is tame, as was found of all lines at once, or is found now.
pub fn is_tame_line(found: bool, line: &str) -> bool
    requires { found ≡ true → list_all is_tame_octet line.now ≡ true }
    ensures { result ≡ true → list_all is_tame_octet line.now ≡ true }
{
    if found {
        return true;
    }
    are_tame(line.as_bytes())
}

/// Adds a text without its control characters, each octet of one as `\xNN`, as `push_plain`.
///
/// An `AllocError` comes only where a growth of memory was refused, and then nothing is said of what is left.
pub fn push_tame(out: &mut String, text: &str) -> Result<(), AllocError>
    ensures { OnOk result (string_bytes out.new ≡ string_bytes out.old ++ plain_of text.now) }
{
    if are_tame(text.as_bytes()) {
        return out.push_str(text);
    }
    push_plain(out, text)
}
