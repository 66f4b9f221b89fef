ghost use Rattle.std.specs.Prelude.{◌≡◌, ◌≤◌, ◌<◌, ◌-◌, ◌/◌, ◌%◌, ◌↔◌, ℕ, []};
ghost use Rattle.std.specs.Prelude.{length, take, drop, IfOk, IfErr, IfSome, IsTrue};
ghost use Rattle.std.specs.List.{AllByRecursion};
ghost use Rattle.spv_words.specs.Words.{words_of};
ghost use Rattle.spv_words.specs.declared.words.Order.TheVariants.{Little};
ghost use Rattle.spv_table.specs.Table.{Table};
ghost use Rattle.spv_module.specs.Module.{plain_operand};
ghost use Rattle.spv_module.specs.Operand.{Text};
ghost use Rattle.spv_module.specs.Shape.{AsText};
ghost use Rattle.spv_module.specs.Spelling.{AreZeros, Takes};
ghost use Rattle.spv_module.specs.Refusal.{ShapeRefuses};
ghost use Rattle.spv_inst.specs.inner.Reading.{between, parameter_kinds};

use crate::reader::{Refusal, Taken};
use memchr::memchr;
use simdutf8::basic::from_utf8;
use spv_module::{Operand, Rule};
use spv_words::Image;
use std::str::from_utf8_unchecked;

/// How many words a text may take to be looked at octet by octet.
const SHORT: u32 = 16;

/// Whether each octet is zero.
fn are_zeros(octets: &[u8]) -> bool
    ensures { IsTrue result ↔ AreZeros octets.now }
{
    octets.iter().all(|octet| *octet == 0)
}

/// Takes the text at the front of octets, four of which are a word. Its rules and words are those of `take_text`.
fn text_in(octets: &[u8]) -> Result<Taken<'_>, Refusal>
    requires whole { length octets.now % 4 ≡ 0 }
    requires most { length octets.now ≤ 16777216 }
    ensures taken { IfOk result (λ t. (k : ℕ)
        → Takes k AsText (plain_operand t.operand) (take t.words (words_of Little octets.now)) []) }
    ensures operand { IfOk result (λ t. (G : Table) → parameter_kinds G (plain_operand t.operand) ≡ []) }
    ensures within { IfOk result (λ t. (0 < t.words) × (t.words ≤ length octets.now / 4)) }
    ensures refused { IfErr result (λ e. ShapeRefuses AsText (words_of Little octets.now) e.rule e.word) }
{
    if octets.is_empty() {
        return Err(Refusal::new(Rule::I4, 0));
    }
    let Some(zero) = memchr(0, octets) else {
        return Err(Refusal::new(Rule::I8, 0));
    };
    let last = zero / 4;
    if !are_zeros(&octets[zero + 1..last * 4 + 4]) {
        return Err(Refusal::new(Rule::I9, last as u32));
    }
    match from_utf8(&octets[..zero]) {
        Ok(text) => Ok(Taken {
            operand: Operand::Text(text),
            words: last as u32 + 1,
        }),
        Err(_) => Err(Refusal::new(Rule::I10, 0)),
    }
}

/// Takes the text, a literal string [2.2.1], at the front of the words of an image from `at` up to `end`: its octets,
/// four to a word, the first in the lowest 8 bits, a zero octet, and zero octets up to the end of that word.
///
/// The text is lent by the image, without its zero octet, and its words are counted with that of the zero octet: 4n
/// octets take n + 1 words. Time is linear in the words taken, and no memory is.
///
/// A refusal counts words from `at`. The first of these rules that is broken is told:
/// - I4 at word 0: no word is left, `at` is `end`.
/// - I8 at word 0: none of the octets up to `end` is zero.
/// - I9 at the text's last word, that of its zero octet: an octet after the zero octet is not zero.
/// - I10 at word 0: the octets before the zero octet are not UTF-8.
pub fn take_text<'a>(image: &'a Image, at: u32, end: u32) -> Result<Taken<'a>, Refusal>
    requires order { at ≤ end }
    requires fits { end ≤ length image.now }
    // The words taken spell the text, by any kind of such a shape.
    ensures taken { IfOk result (λ t. (k : ℕ)
        → Takes k AsText (plain_operand t.operand) (take t.words (between image.now at end)) []) }
    // No parameter is due after it.
    ensures operand { IfOk result (λ t. (G : Table) → parameter_kinds G (plain_operand t.operand) ≡ []) }
    ensures within { IfOk result (λ t. (0 < t.words) × (t.words ≤ end - at)) }
    ensures refused { IfErr result (λ e. ShapeRefuses AsText (between image.now at end) e.rule e.word) }
{
    // The length bounds how many octets there are.
    let _ = image.len();
    text_in(&image.octets()[at as usize * 4..end as usize * 4])
}

/// How many octets of the last four of a text come before its zero octet, where each from that on is zero. None where
/// the last octet is not.
#[inline(always)]
fn count_in_last(last: &[u8]) -> Option<usize>
    requires four { length last.now ≡ 4 }
    ensures { IfSome result (λ n. (n < 4) × AreZeros (drop n last.now)) }
{
    if last[3] != 0 {
        None
    } else if last[2] != 0 {
        Some(3)
    } else if last[1] != 0 {
        Some(2)
    } else if last[0] != 0 {
        Some(1)
    } else {
        Some(0)
    }
}

/// Whether each octet is that of an ASCII character, and none is zero.
#[inline(always)]
fn are_ascii(octets: &[u8]) -> bool
    ensures { IsTrue result ↔ AllByRecursion (λ b. (0 < b) × (b < 128)) octets.now }
{
    octets.iter().all(|octet| *octet > 0 && *octet < 128)
}

/// The text that octets spell to their end, four of which are a word. None where `short_text` has none.
#[inline(always)]
fn short_text_in(octets: &[u8]) -> Option<&str>
    requires whole { length octets.now % 4 ≡ 0 }
    requires some { 0 < length octets.now }
    ensures { IfSome result (λ t. (k : ℕ) → Takes k AsText (Text t.now) (words_of Little octets.now) []) }
{
    let last = octets.len() - 4;
    let Some(count) = count_in_last(&octets[last..]) else {
        return None;
    };
    let text = &octets[..last + count];
    if !are_ascii(text) {
        return None;
    }
    Some(unsafe { from_utf8_unchecked(text) })
}

/// The text that all words from `at` up to `end` spell, where it is short and of ASCII characters alone, as names are.
/// It is lent by the image. Of other texts `take_text` tells.
#[inline(always)]
pub fn short_text<'a>(image: &'a Image, at: u32, end: u32) -> Option<&'a str>
    requires order { at < end }
    requires fits { end ≤ length image.now }
    ensures { IfSome result (λ t. (k : ℕ) → Takes k AsText (Text t.now) (between image.now at end) []) }
{
    if end - at > SHORT {
        return None;
    }
    // The length bounds how many octets there are.
    let _ = image.len();
    short_text_in(&image.octets()[at as usize * 4..end as usize * 4])
}
