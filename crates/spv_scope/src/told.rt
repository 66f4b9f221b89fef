//! The minor number of the version that the text of a module tells.
ghost use Rattle.std.specs.Prelude.{◌≡◌, ◌≤◌, ◌<◌, length, IfSome, slice_index};
ghost use Rattle.spv_scope.specs.Told as spec;

use crate::minor::GREATEST_MINOR;

/// What the text of a module begins with, up to the minor number of the version.
const HEADING: &[u8] = b"; SPIR-V\n; Version: 1.";

/// How many characters the first two lines of such a text have.
const HEADING_SIZE: usize = 24;

/// Whether a text begins with the first two lines of one of a module of version 1.0 to 1.6. (own)
fn has_heading(text: &[u8]) -> bool
    requires { 24 ≤ length text.now }
    ensures { result ≡ spec.has_heading text.now }
{
    text.starts_with(HEADING) && b'0' <= text[22] && text[22] <= b'6' && text[23] == b'\n'
}

/// The place of the minor version number in a text that begins with these lines. (own)
fn digit_place(text: &[u8]) -> Option<usize>
    ensures place { result ≡ spec.digit_place text.now }
    ensures inside { IfSome result (λ at. at < length text.now) }
    ensures least { IfSome result (λ at. 48 ≤ slice_index text.now at) }
    ensures most { IfSome result (λ at. slice_index text.now at ≤ 54) }
{
    if text.len() < HEADING_SIZE || !has_heading(text) {
        return None;
    }
    Some(22)
}

/// The minor number of the version that a text tells, which begins with the lines `; SPIR-V` and `; Version: 1.0` to
/// `1.6`: 0 to 6. None of other texts. (own)
pub fn text_minor(text: &[u8]) -> Option<u8>
    ensures told { result ≡ spec.text_minor text.now }
    ensures known { IfSome result (λ minor. minor ≤ 6) }
{
    let at = digit_place(text)?;
    Some(text[at] - b'0')
}

/// Puts another minor number, of 0 to 6, in place of that which such a text tells. Any other text is left as it is, and
/// so is each where the number is another. (own)
pub fn put_text_minor(text: &mut [u8], minor: u8)
    ensures { text.new ≡ spec.with_text_minor minor text.old }
{
    if minor > GREATEST_MINOR {
        return;
    }
    if let Some(at) = digit_place(text) {
        text[at] = b'0' + minor;
    }
}
