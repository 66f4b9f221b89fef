//! The words of an operand.

ghost use Rattle.std.specs.Prelude.{◌≡◌, ◌++◌, ◌+◌, ◌*◌, ◌<◌, OnOk};
ghost use Rattle.std.specs.Prelude.{IsUtf8, slice_index};
ghost use Rattle.std.specs.List.{AllByRecursion};
ghost use Rattle.spv_module.specs.Module.{plain_operand};
ghost use Rattle.spv_inst.specs.inner.Written.{HasText, text_words, operand_words};

use spv_module::Operand;
use std::alloc::AllocError;

/// Tells that a text is UTF-8, in octets. It does nothing: its contract is what is used.
fn text_is_utf8(text: &str)
    ensures utf8 { IsUtf8 text.now }
    ensures octets { AllByRecursion (λ b. b < 256) text.now }
{}

/// Tells that an operand's text is UTF-8, in octets. It does nothing: its contract is what is used.
pub fn read_text(operand: &Operand)
    ensures { HasText (plain_operand operand.now) }
{
    match operand {
        Operand::Text(text) => text_is_utf8(text),
        _ => {}
    }
}

/// An octet of a text, or 0 past its end.
fn octet_at(octets: &[u8], place: usize) -> u8
    ensures { result ≡ slice_index octets.now place }
{
    match octets.get(place) {
        Some(octet) => *octet,
        None => 0,
    }
}

/// Four octets as a word, the first lowest. (2.2.1)
fn word_of(first: u8, second: u8, third: u8, fourth: u8) -> u32
    ensures { result ≡ first + 256 * second + 65536 * third + 16777216 * fourth }
{
    u32::from(first)
        + 256 * u32::from(second)
        + 65536 * u32::from(third)
        + 16777216 * u32::from(fourth)
}

/// Adds the words of a text. Where memory runs out, nothing is said of what is left.
fn push_text(words: &mut Vec<u32>, octets: &[u8]) -> Result<(), AllocError>
    ensures { OnOk result (words.new.items ≡ words.old.items ++ text_words octets.now) }
{
    let mut at = 0;
    while octets.len() - at >= 4 {
        words.push(word_of(octets[at], octets[at + 1], octets[at + 2], octets[at + 3]))?;
        at += 4;
    }
    words.push(word_of(
        octet_at(octets, at),
        octet_at(octets, at + 1),
        octet_at(octets, at + 2),
        0,
    ))?;
    Ok(())
}

/// Adds the words of an operand, wherever it fits: the low word of a number first, and a text with its zero octet,
/// filled up with zeros to whole words (SPIR-V Specification 1.6, section 2.2.1).
///
/// An `AllocError` comes only where a growth of memory was refused, and then nothing is said of what is left.
pub fn push_operand(words: &mut Vec<u32>, operand: &Operand) -> Result<(), AllocError>
    ensures { OnOk result (words.new.items ≡ words.old.items ++ operand_words (plain_operand operand.now)) }
{
    match operand {
        Operand::OfType(word)
        | Operand::Result(word)
        | Operand::Id(word)
        | Operand::Word(word)
        | Operand::Value { value: word, .. }
        | Operand::Mask { value: word, .. }
        | Operand::Argument(word)
        | Operand::Mention(word) => {
            words.push(*word)?;
        }
        Operand::Number {
            low,
            high,
            words: count,
        } => {
            words.push(*low)?;
            if *count == 2 {
                words.push(*high)?;
            }
        }
        Operand::Text(text) => push_text(words, text.as_bytes())?,
    }
    Ok(())
}
