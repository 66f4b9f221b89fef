//! What is told of bytes that are no words of a module.
ghost use Rattle.std.specs.Prelude.{◌≡◌, ◌++◌, ◌<◌, OnOk, IfOk, option_map};
ghost use Rattle.std.specs.Prelude.{slice_index, string_bytes};
ghost use Rattle.spv_facts.specs.Refused as seen;
ghost use Rattle.spv_facts.specs.inner.Parts as parts;

use crate::about::push_number;
use itoa::Buffer;
use spv_lines::push_hex;
use spv_words::{MAGIC_NUMBER, Order, WordError};
use std::alloc::{AllocError, Global};

/// What stands in front of bytes that may be a module's.
#[derive(Clone, Copy)]
pub struct Front {
    /// How many bytes there are.
    pub size: usize,
    /// Word 0, in the order in which it is the magic number.
    pub magic: u32,
    /// Word 1.
    pub version: u32,
    /// Word 3.
    pub bound: u32,
    /// Word 4.
    pub schema: u32,
}

/// The byte at a place, or 0 where there is none.
fn byte_at(bytes: &[u8], at: usize) -> u32
    ensures value { result ≡ slice_index bytes.now at }
    ensures few { result < 256 }
{
    if at < bytes.len() {
        u32::from(bytes[at])
    } else {
        0
    }
}

/// A word of the header in an order.
fn word_at(bytes: &[u8], order: Order, number: usize) -> u32
    requires { number < 5 }
    ensures { result ≡ seen.word_at order bytes.now number }
{
    let at = 4 * number;
    let first = byte_at(bytes, at);
    let second = byte_at(bytes, at + 1);
    let third = byte_at(bytes, at + 2);
    let fourth = byte_at(bytes, at + 3);
    match order {
        Order::Little => first + 256 * second + 65536 * third + 16777216 * fourth,
        Order::Big => fourth + 256 * third + 65536 * second + 16777216 * first,
    }
}

/// The order in which the first word is the magic number.
fn order_of(bytes: &[u8]) -> Order
    ensures { result ≡ seen.order_of bytes.now }
{
    if word_at(bytes, Order::Big, 0) == MAGIC_NUMBER {
        Order::Big
    } else {
        Order::Little
    }
}

/// What stands in front of bytes, in an order.
fn front_in(bytes: &[u8], order: Order) -> Front
    ensures { result ≡ seen.front_in order bytes.now }
{
    Front {
        size: bytes.len(),
        magic: word_at(bytes, order, 0),
        version: word_at(bytes, order, 1),
        bound: word_at(bytes, order, 3),
        schema: word_at(bytes, order, 4),
    }
}

/// What stands in front of bytes.
pub fn front_of(bytes: &[u8]) -> Front
    ensures { result ≡ seen.front_of bytes.now }
{
    front_in(bytes, order_of(bytes))
}

/// Adds how many bytes there are.
fn push_size(out: &mut String, size: usize) -> Result<(), AllocError>
    ensures { OnOk result (string_bytes out.new ≡ string_bytes out.old ++ seen.size_text size) }
{
    let mut buffer = Buffer::new();
    out.push_str(buffer.format(size))?;
    if size == 1 {
        return out.push_str(" byte");
    }
    out.push_str(" bytes")
}

/// Adds a word in hexadecimal.
fn push_hex_text(out: &mut String, word: u32) -> Result<(), AllocError>
    ensures { OnOk result (string_bytes out.new ≡ string_bytes out.old ++ seen.hex_text word) }
{
    out.push_str("0x")?;
    push_hex(out, word)
}

/// Whether a word tells a version.
fn is_version(word: u32) -> bool
    ensures { result ≡ seen.is_version word }
{
    word < 16777216 && word % 256 == 0
}

/// Whether a word tells one of the versions 1.0 to 1.5.
fn is_earlier(word: u32) -> bool
    ensures { result ≡ seen.is_earlier word }
{
    is_version(word) && word / 65536 == 1 && word / 256 % 256 < 6
}

/// Adds a version, or the word where it tells none.
fn push_version(out: &mut String, word: u32) -> Result<(), AllocError>
    ensures { OnOk result (string_bytes out.new ≡ string_bytes out.old ++ seen.version_text word) }
{
    if !is_version(word) {
        return push_hex_text(out, word);
    }
    out.push_str("version ")?;
    push_number(out, word / 65536)?;
    out.push_str(".")?;
    push_number(out, word / 256 % 256)
}

/// Adds what is found in bytes that break a code, in words, by what stands in front of them. Nothing of W1 and W9.
fn push_found_text(out: &mut String, code: WordError, front: Front) -> Result<(), AllocError>
    ensures { OnOk result (string_bytes out.new ≡ string_bytes out.old ++ parts.found_words code front) }
{
    match code {
        WordError::W2 | WordError::W3 => push_size(out, front.size),
        WordError::W4 => push_hex_text(out, front.magic),
        WordError::W5 => push_version(out, front.version),
        WordError::W6 => push_number(out, front.schema),
        WordError::W7 => push_number(out, front.bound),
        WordError::W8 => out.push_str("more than 16777216 bytes"),
        WordError::W1 | WordError::W9 => Ok(()),
    }
}

/// What is found in bytes that break a code, in words, by what stands in front of them. Nothing of W1 and W9.
///
/// An `AllocError` comes only where a growth of memory was refused.
pub fn found_in(alloc: Global, code: WordError, front: Front) -> Result<Option<String>, AllocError>
    ensures { IfOk result (λ o. option_map (λ t. string_bytes t) o ≡ seen.found_text code front) }
{
    if matches!(code, WordError::W1 | WordError::W9) {
        return Ok(None);
    }
    let mut text = String::new(alloc);
    push_found_text(&mut text, code, front)?;
    Ok(Some(text))
}

/// How a module of an earlier version is read. Nothing of others.
fn version_help(version: u32) -> Option<&'static str>
    ensures { option_map (λ t. t.now) result ≡ seen.version_help version }
{
    if is_earlier(version) {
        return Some("--as-1.6 reads it as a module of version 1.6");
    }
    None
}

/// Whether LLVM bitcode, or a wrapper of it, begins with this word.
fn is_bitcode(word: u32) -> bool
    ensures { result ≡ seen.is_bitcode word }
{
    word == 0xdec0_4342 || word == 0x0b17_c0de
}

/// Whether a byte may be one of a text.
fn is_text_byte(byte: u32) -> bool
    ensures { result ≡ seen.is_text_byte byte }
{
    (32 <= byte && byte < 127) || (byte == 9 || (byte == 10 || byte == 13))
}

/// Whether all four bytes of a word may be of a text.
fn is_text(word: u32) -> bool
    ensures { result ≡ seen.is_text word }
{
    is_text_byte(word % 256)
        && (is_text_byte(word / 256 % 256)
            && (is_text_byte(word / 65536 % 256) && is_text_byte(word / 16777216 % 256)))
}

/// What makes a module of bytes that begin with this word. Nothing of what is neither LLVM bitcode nor a text.
fn source_help(word: u32) -> Option<&'static str>
    ensures { option_map (λ t. t.now) result ≡ seen.source_help word }
{
    if is_bitcode(word) {
        return Some("it begins as LLVM bitcode, of which llvm-spirv makes a module");
    }
    if is_text(word) {
        return Some("it begins as a text, of which spv asm makes a module");
    }
    None
}

/// How bytes that break a code are read, or made a module, by what stands in front of them: where they begin as LLVM
/// bitcode or a text (W3, W4), or are a module of an earlier version (W5). Nothing of others.
pub fn help_for(code: WordError, front: Front) -> Option<&'static str>
    ensures { option_map (λ t. t.now) result ≡ seen.help_text code front }
{
    match code {
        WordError::W3 | WordError::W4 => source_help(front.magic),
        WordError::W5 => version_help(front.version),
        _ => None,
    }
}
