//! Parts of a line in a buffer, put before a place or added behind one.

ghost use Rattle.std.specs.Prelude.{◌≡◌, ◌≤◌, ◌+◌, ◌++◌, ◌∷◌, IfSome, IsUtf8, decimal, drop};
ghost use Rattle.std.specs.Prelude.{length};
ghost use Rattle.spv_lines.specs.Operand.{id_text};
ghost use Rattle.spv_lines.specs.Line.{shown_result};
ghost use Rattle.spv_printer.specs.inner.Fast.{IsTextAdded};

use itoa::write_digits;

/// The size of a buffer for an id or a word, which end in its middle.
const TOKEN: usize = 32;

/// Puts octets before a place, and gives where they begin.
pub fn put_octets(buffer: &mut [u8], octets: &[u8], end: usize) -> usize
    requires room { length octets.now ≤ end }
    requires within { end ≤ length buffer.old }
    ensures low { result + length octets.now ≡ end }
    ensures text { drop result buffer.new ≡ octets.now ++ drop end buffer.old }
{
    let start = end - octets.len();
    buffer[start..end].copy_from_slice(octets);
    start
}

/// Puts ` %7` before a place, and gives where it begins.
#[inline(always)]
fn put_id(buffer: &mut [u8], id: u32, end: usize) -> usize
    requires room { 16 ≤ end }
    requires within { end ≤ length buffer.old }
    ensures low { result ≤ end }
    ensures text { drop result buffer.new ≡ (32 ∷ id_text id) ++ drop end buffer.old }
{
    let start = write_digits(u64::from(id), buffer, end);
    buffer[start - 1] = b'%';
    buffer[start - 2] = b' ';
    start - 2
}

/// Puts ` 7` before a place, and gives where it begins.
#[inline(always)]
fn put_word(buffer: &mut [u8], word: u32, end: usize) -> usize
    requires room { 16 ≤ end }
    requires within { end ≤ length buffer.old }
    ensures low { result ≤ end }
    ensures text { drop result buffer.new ≡ (32 ∷ decimal word) ++ drop end buffer.old }
{
    let start = write_digits(u64::from(word), buffer, end);
    buffer[start - 1] = b' ';
    start - 1
}

/// Puts what a line has of a result before a place, and gives where it begins.
#[inline(always)]
pub fn put_result(buffer: &mut [u8], id: Option<u32>, end: usize) -> usize
    requires room { 32 ≤ end }
    requires within { end ≤ length buffer.old }
    ensures low { result ≤ end }
    ensures text { drop result buffer.new ≡ shown_result id ++ drop end buffer.old }
    ensures utf8 { IsUtf8 (shown_result id) }
{
    let Some(id) = id else {
        return end;
    };
    let equals = put_octets(buffer, b" = ", end);
    put_id(buffer, id, equals) + 1
}

/// Adds ` %7` behind a place, and gives where it ends.
#[inline(always)]
pub fn add_id(buffer: &mut [u8], id: u32, at: usize) -> usize
    requires { at + 96 ≤ length buffer.old }
    ensures { IsTextAdded (id_text id) at result buffer.old buffer.new }
{
    let mut token = [0u8; TOKEN];
    let start = put_id(&mut token, id, 16);
    buffer[at..at + 16].copy_from_slice(&token[start..start + 16]);
    at + (16 - start)
}

/// Adds ` 7` behind a place, and gives where it ends.
#[inline(always)]
pub fn add_word(buffer: &mut [u8], word: u32, at: usize) -> usize
    requires { at + 96 ≤ length buffer.old }
    ensures { IsTextAdded (decimal word) at result buffer.old buffer.new }
{
    let mut token = [0u8; TOKEN];
    let start = put_word(&mut token, word, 16);
    buffer[at..at + 16].copy_from_slice(&token[start..start + 16]);
    at + (16 - start)
}

/// Adds a space and a name behind a place, and gives where they end. None where the name has more than 64 octets.
#[inline(always)]
pub fn add_name(buffer: &mut [u8], name: &str, at: usize) -> Option<usize>
    requires { at + 96 ≤ length buffer.old }
    ensures { IfSome result (λ end. IsTextAdded name.now at end buffer.old buffer.new) }
{
    let octets = name.as_bytes();
    let count = octets.len();
    if count > 64 {
        return None;
    }
    buffer[at] = b' ';
    buffer[at + 1..at + 1 + count].copy_from_slice(octets);
    Some(at + 1 + count)
}
