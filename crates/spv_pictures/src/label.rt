//! Texts and ids as they stand in a picture.
ghost use Rattle.std.specs.Prelude.{◌≡◌, ◌<◌, ◌++◌, true, OnOk, decimal, encode_utf8, flat_map, string_bytes};
ghost use Rattle.std.specs.List.{list_all};
ghost use Rattle.spv_lines.specs.Digits.{hex_digit};
ghost use Rattle.spv_lines.specs.Plain.{escaped};
ghost use Rattle.spv_pictures.specs.Label as label;
ghost use Rattle.spv_pictures.specs.Label.{drawn, label_text, marked, node_name, shown_id};
ghost use Rattle.spv_pictures.specs.inner.Free.{is_free, is_plain};

use itoa::Buffer;
use std::alloc::AllocError;

/// The hexadecimal digit of a number below 16, in lower case.
fn digit(number: u8) -> char
    requires { number < 16 }
    ensures value { result ≡ hex_digit number }
    ensures ascii { result < 128 }
{
    if number < 10 {
        char::from(b'0' + number)
    } else {
        char::from(b'a' + (number - 10))
    }
}

/// Adds a byte as `\xNN`, as it stands in a label.
fn push_escaped(out: &mut String, byte: u8) -> Result<(), AllocError>
    ensures { OnOk result (string_bytes out.new ≡ string_bytes out.old ++ flat_map marked (escaped byte)) }
{
    out.push_str("\\\\x")?;
    out.push(digit(byte / 16))?;
    out.push(digit(byte % 16))
}

/// Whether a character is not drawn as it is.
fn is_hidden(character: char) -> bool
    ensures { result ≡ label.is_hidden character }
{
    let code = u32::from(character);
    code < 32 || ((127 <= code && code < 160) || (code == 0xfffe || code == 0xffff))
}

/// Adds the bytes of a hidden character, each as `\xNN`, as they stand in a label.
fn push_hidden(out: &mut String, character: char) -> Result<(), AllocError>
    requires { label.is_hidden character ≡ true }
    ensures { OnOk result (string_bytes out.new ≡ string_bytes out.old
        ++ flat_map marked (flat_map escaped (encode_utf8 character))) }
{
    let code = u32::from(character);
    if code < 128 {
        return push_escaped(out, code as u8);
    }
    if code < 160 {
        out.push_str("\\\\xc2")?;
        return push_escaped(out, code as u8);
    }
    if code == 0xfffe {
        return out.push_str("\\\\xef\\\\xbf\\\\xbe");
    }
    out.push_str("\\\\xef\\\\xbf\\\\xbf")
}

/// Adds a character that is none of those that stand otherwise in a label, unless it is hidden.
fn push_other(out: &mut String, character: char) -> Result<(), AllocError>
    requires { is_free character ≡ true }
    ensures { OnOk result (string_bytes out.new ≡ string_bytes out.old ++ flat_map marked (drawn character)) }
{
    if is_hidden(character) {
        return push_hidden(out, character);
    }
    out.push(character)
}

/// Adds a character as it stands in a label.
fn push_marked(out: &mut String, character: char) -> Result<(), AllocError>
    ensures { OnOk result (string_bytes out.new ≡ string_bytes out.old ++ flat_map marked (drawn character)) }
{
    match character {
        '&' => out.push_str("&amp;"),
        '<' => out.push_str("&lt;"),
        '>' => out.push_str("&gt;"),
        '"' => out.push_str("&quot;"),
        '\'' => out.push_str("&#39;"),
        '\\' => out.push_str("\\\\"),
        _ => push_other(out, character),
    }
}

/// Adds a text as it stands in a label, character by character.
fn push_characters(out: &mut String, text: &str) -> Result<(), AllocError>
    ensures { OnOk result (string_bytes out.new ≡ string_bytes out.old ++ label_text text.now) }
{
    for character in text.chars() {
        push_marked(out, character)?;
    }
    Ok(())
}

/// Whether a byte is an ASCII character that a label has as it is.
fn is_plain_byte(byte: u8) -> bool
    ensures { result ≡ is_plain byte }
{
    if byte > b'>' {
        return byte != b'\\' && byte < 127;
    }
    byte >= 32 && !matches!(byte, b'"' | b'&' | b'\'' | b'<' | b'>')
}

/// Whether a text has such bytes alone.
fn is_plain_text(text: &[u8]) -> bool
    ensures { result ≡ list_all is_plain text.now }
{
    text.iter().all(|byte| is_plain_byte(*byte))
}

/// Adds a text as it stands in a label.
pub fn push_label(out: &mut String, text: &str) -> Result<(), AllocError>
    ensures { OnOk result (string_bytes out.new ≡ string_bytes out.old ++ label_text text.now) }
{
    if is_plain_text(text.as_bytes()) {
        return out.push_str(text);
    }
    push_characters(out, text)
}

/// Adds a number in decimal.
pub fn push_number(out: &mut String, number: u64) -> Result<(), AllocError>
    ensures { OnOk result (string_bytes out.new ≡ string_bytes out.old ++ decimal number) }
{
    let mut buffer = Buffer::new();
    out.push_str(buffer.format(number))
}

/// Adds an id, as `%7`; `%` alone where there is none.
pub fn push_id(out: &mut String, id: Option<u32>) -> Result<(), AllocError>
    ensures { OnOk result (string_bytes out.new ≡ string_bytes out.old ++ shown_id id) }
{
    out.push_str("%")?;
    match id {
        Some(id) => push_number(out, u64::from(id)),
        None => Ok(()),
    }
}

/// Adds the name of a node: its id, in quotes; `?` where there is none.
pub fn push_node_name(out: &mut String, id: Option<u32>) -> Result<(), AllocError>
    ensures { OnOk result (string_bytes out.new ≡ string_bytes out.old ++ node_name id) }
{
    match id {
        Some(id) => {
            out.push_str("\"")?;
            push_number(out, u64::from(id))?;
            out.push_str("\"")
        }
        None => out.push_str("\"?\""),
    }
}
