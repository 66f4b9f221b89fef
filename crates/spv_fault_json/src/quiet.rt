//! JSON texts without control characters.
ghost use Rattle.std.specs.Prelude.{◌≡◌, ◌≤◌, ◌<◌, ◌++◌, IfOk, OnOk, drop, length, slice_index, take};
ghost use Rattle.spv_lines.specs.Digits.{hex_digit};
ghost use Rattle.spv_lines.specs.Plain.{is_late_control};
ghost use Rattle.spv_fault_json.specs.Quiet.{quiet_byte, quiet_of, unicode_escape};

use std::alloc::{AllocError, Global};

/// The digit of a number below 16.
fn digit(number: u8) -> u8
    requires { number < 16 }
    ensures { result ≡ hex_digit number }
{
    if number < 10 {
        b'0' + number
    } else {
        b'a' - 10 + number
    }
}

/// Adds a character below U+0100 as JSON escapes it.
fn push_escape(out: &mut Vec<u8>, number: u8) -> Result<(), AllocError>
    ensures { OnOk result (out.new.items ≡ out.old.items ++ unicode_escape number) }
{
    out.extend_from_slice(&[
        b'\\',
        b'u',
        b'0',
        b'0',
        digit(number / 16),
        digit(number % 16),
    ])
}

/// Adds a byte, or DEL as JSON escapes it.
fn push_byte(out: &mut Vec<u8>, byte: u8) -> Result<(), AllocError>
    ensures { OnOk result (out.new.items ≡ out.old.items ++ quiet_byte byte) }
{
    if byte == 127 {
        return push_escape(out, byte);
    }
    out.push(byte)?;
    Ok(())
}

/// Whether two bytes together are one of the control characters from U+0080 to U+009F.
fn is_late(first: u8, second: u8) -> bool
    ensures { result ≡ is_late_control first second }
{
    first == 194 && (128 <= second && second < 160)
}

/// The second byte of a text, or 0 where there is none.
fn second_of(text: &[u8]) -> u8
    ensures { result ≡ slice_index text.now 1 }
{
    match text {
        [_, second, ..] => *second,
        _ => 0,
    }
}

/// Adds the first character of a text, or its first byte, and gives how many bytes that are.
fn push_first(out: &mut Vec<u8>, text: &[u8]) -> Result<usize, AllocError>
    requires { 0 < length text.now }
    ensures added { IfOk result (λ n. out.new.items ++ quiet_of (drop n text.now)
        ≡ out.old.items ++ quiet_of text.now) }
    ensures some { IfOk result (λ n. 0 < n) }
    ensures fits { IfOk result (λ n. n ≤ length text.now) }
{
    let first = text[0];
    let second = second_of(text);
    if is_late(first, second) {
        push_escape(out, second)?;
        return Ok(2);
    }
    push_byte(out, first)?;
    Ok(1)
}

/// How many bytes stand in front of the first that may be of a control character.
fn quiet_count(text: &[u8]) -> usize
    ensures bound { result ≤ length text.now }
    ensures quiet { quiet_of text.now ≡ take result text.now ++ quiet_of (drop result text.now) }
{
    let mut count = 0;
    while count < text.len() && text[count] != 127 && text[count] != 194 {
        count += 1;
    }
    count
}

/// A JSON text in which DEL and the control characters from U+0080 to U+009F stand as JSON escapes them. One that has
/// none of them stays as it is, and takes no memory.
pub fn quieted(alloc: Global, text: Vec<u8>) -> Result<Vec<u8>, AllocError>
    ensures { IfOk result (λ v. v.items ≡ quiet_of text.items) }
{
    if quiet_count(&text) == text.len() {
        return Ok(text);
    }
    let mut out = Vec::new(alloc);
    let mut at = 0;
    while at < text.len() {
        at += push_first(&mut out, &text[at..])?;
    }
    Ok(out)
}
