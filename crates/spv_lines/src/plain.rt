//! Texts without control characters.
ghost use Rattle.std.specs.Prelude.{◌≡◌, ◌<◌, ◌≤◌, ◌++◌, ◌∷◌, ◌%◌, [], IfOk, MatchOption, OnOk, flat_map, length};
ghost use Rattle.std.specs.Prelude.{slice_index, string_bytes, take};
ghost use Rattle.spv_lines.specs.Digits.{hex_digit, hex_digits};
ghost use Rattle.spv_lines.specs.Plain.{escaped, is_control, is_late_control, plain_of};
ghost use Rattle.spv_lines.specs.inner.Control.{IsFirstControl, control_size};

use std::alloc::AllocError;

/// The digit of a number below 16.
fn digit(number: u8) -> u8
    requires { number < 16 }
    ensures value { result ≡ hex_digit number }
    ensures ascii { result < 128 }
{
    if number < 10 {
        b'0' + number
    } else {
        b'a' - 10 + number
    }
}

/// Adds the last hexadecimal digit of a number.
fn push_digit(out: &mut String, number: u32) -> Result<(), AllocError>
    ensures { OnOk result (string_bytes out.new ≡ string_bytes out.old ++ (hex_digit (number % 16) ∷ [])) }
{
    out.push(digit((number % 16) as u8) as char)
}

/// Adds a word in eight hexadecimal digits.
pub fn push_hex(out: &mut String, word: u32) -> Result<(), AllocError>
    ensures { OnOk result (string_bytes out.new ≡ string_bytes out.old ++ hex_digits 8 word) }
{
    push_digit(out, word / 16 / 16 / 16 / 16 / 16 / 16 / 16)?;
    push_digit(out, word / 16 / 16 / 16 / 16 / 16 / 16)?;
    push_digit(out, word / 16 / 16 / 16 / 16 / 16)?;
    push_digit(out, word / 16 / 16 / 16 / 16)?;
    push_digit(out, word / 16 / 16 / 16)?;
    push_digit(out, word / 16 / 16)?;
    push_digit(out, word / 16)?;
    push_digit(out, word)?;
    Ok(())
}

/// Whether a byte is a control character.
fn is_control_byte(byte: u8) -> bool
    ensures { result ≡ is_control byte }
{
    byte < 32 || byte == 127
}

/// Whether two bytes together are one of the control characters from U+0080 to U+009F.
fn is_late_pair(first: u8, second: u8) -> bool
    ensures { result ≡ is_late_control first second }
{
    first == 194 && (128 <= second && second < 160)
}

/// The first byte of a text, or 0 where there is none.
fn first_byte(text: &[u8]) -> u8
    ensures { result ≡ slice_index text.now 0 }
{
    match text {
        [first, ..] => *first,
        [] => 0,
    }
}

/// How many bytes the control character has that a text begins with; none where it begins with another character.
fn size_of_control(text: &[u8]) -> usize
    ensures size { result ≡ control_size text.now }
    ensures fits { result ≤ length text.now }
{
    let [first, rest @ ..] = text else {
        return 0;
    };
    if is_control_byte(*first) {
        return 1;
    }
    if is_late_pair(*first, first_byte(rest)) {
        return 2;
    }
    0
}

/// The place of the first control character.
fn first_control(bytes: &[u8]) -> Option<usize>
    ensures { MatchOption result (plain_of bytes.now ≡ bytes.now) (λ at. IsFirstControl bytes.now at) }
{
    let mut at = 0;
    while at < bytes.len() {
        if size_of_control(&bytes[at..]) > 0 {
            return Some(at);
        }
        at += 1;
    }
    None
}

/// Adds a byte as `\xNN`.
fn push_escape(out: &mut String, byte: u8) -> Result<(), AllocError>
    ensures { OnOk result (string_bytes out.new ≡ string_bytes out.old ++ escaped byte) }
{
    out.push_str("\\x")?;
    out.push(digit(byte / 16) as char)?;
    out.push(digit(byte % 16) as char)
}

/// Adds bytes as `\xNN`.
fn push_escapes(out: &mut String, bytes: &[u8]) -> Result<(), AllocError>
    ensures { OnOk result (string_bytes out.new ≡ string_bytes out.old ++ flat_map escaped bytes.now) }
{
    for byte in bytes {
        push_escape(out, *byte)?;
    }
    Ok(())
}

/// Adds the control character that a text begins with, and gives how many bytes it has.
fn push_control(out: &mut String, text: &[u8]) -> Result<usize, AllocError>
    ensures added { IfOk result (λ n. string_bytes out.new
        ≡ string_bytes out.old ++ flat_map escaped (take n text.now)) }
    ensures size { IfOk result (λ n. n ≡ control_size text.now) }
    ensures fits { IfOk result (λ n. n ≤ length text.now) }
{
    let size = size_of_control(text);
    push_escapes(out, &text[..size])?;
    Ok(size)
}

/// Adds a text without its control characters: each byte of one as `\xNN`.
pub fn push_plain(out: &mut String, text: &str) -> Result<(), AllocError>
    ensures { OnOk result (string_bytes out.new ≡ string_bytes out.old ++ plain_of text.now) }
{
    let mut rest = text;
    while let Some(at) = first_control(rest.as_bytes()) {
        out.push_str(&rest[..at])?;
        let size = push_control(out, &rest.as_bytes()[at..])?;
        rest = &rest[at + size..];
    }
    out.push_str(rest)?;
    Ok(())
}
