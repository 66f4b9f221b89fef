//! Texts in a line, cut to their first characters.

ghost use Rattle.std.specs.Prelude.{◌≡◌, ◌++◌, take, string_bytes, IsCharBoundary, OnOk};
ghost use Rattle.spv_views.specs.text_fault.Lines.{first_of, is_begin, shown};

use spv_lines::push_plain;
use std::alloc::AllocError;

/// How many characters of a text a line has.
const MOST: usize = 200;

/// Whether an octet begins a character.
fn is_begin(octet: u8) -> bool
    ensures { result ≡ is_begin octet }
{
    octet < 128 || 192 <= octet
}

/// Where the first characters of a text end.
fn end_of_first(text: &str) -> usize
    ensures first { take result text.now ≡ first_of 200 text.now }
    ensures boundary { IsCharBoundary text.now result }
{
    let octets = text.as_bytes();
    let mut left = MOST;
    let mut at = 0;
    while at < octets.len() {
        if is_begin(octets[at]) {
            if left == 0 {
                return at;
            }
            left -= 1;
        }
        at += 1;
    }
    at
}

/// The first characters of a text.
fn first_characters(text: &str) -> &str
    ensures { result.now ≡ first_of 200 text.now }
{
    let end = end_of_first(text);
    &text[..end]
}

/// Adds the first characters of a text without control characters, and a mark where it has more.
pub fn push_shown(out: &mut String, text: &str) -> Result<(), AllocError>
    ensures { OnOk result (string_bytes out.new ≡ string_bytes out.old ++ shown text.now) }
{
    let front = first_characters(text);
    push_plain(out, front)?;
    if front.len() < text.len() {
        return out.push_str(" ..");
    }
    Ok(())
}
