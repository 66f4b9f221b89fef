//! The facts of words that spell no instruction.
ghost use Rattle.std.specs.Prelude.{◌≡◌, ◌≤◌, ◌+◌, ◌-◌, ◌/◌, [], IfOk, drop, length, slice_get};
ghost use Rattle.std.specs.Prelude.{slice_index, take};
ghost use Rattle.spv_words.specs.Header.{greatest_length};
ghost use Rattle.spv_module.specs.Module.{plain_insts};
ghost use Rattle.spv_facts.specs.Words as words;
ghost use Rattle.spv_facts.specs.Words.{begin_of, words_fact};
ghost use Rattle.spv_facts.specs.inner.Parts as parts;

use crate::about::About;
use crate::fact::Fact;
use crate::facts::push_one;
use spv_evidence::Evidence;
use spv_table::Listed;
use spv_words::{Image, word};
use std::alloc::{AllocError, Global};

/// How many words the one at a place tells; 0 where the module has no such word.
fn told_at(image: &Image, at: u32) -> u32
    ensures told { result ≡ slice_index image.now at / 65536 }
    ensures within { length image.now ≤ at → result ≡ 0 }
    ensures few { result ≤ 65535 }
{
    if at < image.len() {
        word(image, at) / 65536
    } else {
        0
    }
}

/// The place of an instruction's first word.
fn first_word(image: &Image, inst: u32) -> u32
    ensures place { result ≡ 5 + begin_of (drop 5 image.now) inst }
    ensures few { result ≤ greatest_length + 65535 }
{
    let _words = image.len();
    let mut at = 5u32;
    let mut done = 0u32;
    while done < inst {
        at += told_at(image, at);
        done += 1;
    }
    at
}

/// How many words an instruction has from a place on: as many as the word there tells, one at least, or all that are
/// left of the module.
fn count_at(image: &Image, at: u32) -> u32
    requires { 5 ≤ at }
    ensures count { result ≡ words.count_at (drop 5 image.now) (at - 5) }
    ensures left { result ≤ length image.now - at }
{
    let told = told_at(image, at);
    let count = if told < 1 { 1 } else { told };
    let left = image.len().saturating_sub(at);
    if left < count { left } else { count }
}

/// The first of the words that are told where an instruction has so many: those around one of them.
fn window_from(middle: u32, count: u32) -> u32
    ensures from { result ≡ words.window_from middle count }
    ensures within { result ≤ count - 16 }
{
    if count <= 16 {
        return 0;
    }
    let before = middle.saturating_sub(8);
    let most = count - 16;
    if most < before { most } else { before }
}

/// So many words of a module from a place on.
fn words_at(alloc: Global, image: &Image, from: u32, count: u32) -> Result<Vec<u32>, AllocError>
    requires few { from ≤ greatest_length + greatest_length }
    requires within { count ≤ length image.now - from }
    ensures { IfOk result (λ v. v.items ≡ take count (drop from image.now)) }
{
    let _words = image.len();
    let mut words = Vec::new(alloc);
    let mut done = 0u32;
    while done < count {
        words.push(word(image, from + done))?;
        done += 1;
    }
    Ok(words)
}

/// How many of so many words are told.
fn told_count(count: u32) -> u32
    ensures { result ≡ words.told_count count }
{
    if count < 16 { count } else { 16 }
}

/// What is told of so many words at a place, from one of them on.
fn windowed(
    alloc: Global,
    image: &Image,
    at: u32,
    count: u32,
    from: u32,
) -> Result<Fact, AllocError>
    requires least { 5 ≤ at }
    requires few { at ≤ greatest_length + 65535 }
    requires left { count ≤ length image.now - at }
    requires within { from ≤ count - 16 }
    ensures { IfOk result (λ f. f ≡ words.windowed (drop 5 image.now) (at - 5) count from) }
{
    let _words = image.len();
    let told = told_count(count);
    let words = words_at(alloc, image, at + from, told)?;
    Ok(Fact::Words {
        before: 0 < from,
        words: Listed::from_vec(words),
        after: from + told < count,
    })
}

/// What is told of the words of an instruction at a place, around one of them.
fn words_of(alloc: Global, image: &Image, at: u32, middle: u32) -> Result<Fact, AllocError>
    requires least { 5 ≤ at }
    requires few { at ≤ greatest_length + 65535 }
    ensures { IfOk result (λ f. f ≡ words_fact (drop 5 image.now) (at - 5) middle) }
{
    let count = count_at(image, at);
    windowed(alloc, image, at, count, window_from(middle, count))
}

/// The word at a place, if the module has it.
fn word_at(image: &Image, at: u32) -> Option<u32>
    requires { 5 ≤ at }
    ensures { result ≡ slice_get (drop 5 image.now) (at - 5) }
{
    if at < image.len() {
        Some(word(image, at))
    } else {
        None
    }
}

/// A place of a module that is behind the header.
fn behind_header(place: u32) -> u32
    ensures least { 5 ≤ result }
    ensures same { result - 5 ≡ place - 5 }
{
    if place < 5 { 5 } else { place }
}

/// How far the place of a word is behind an instruction's first word.
fn offset_of(place: u32, first: u32) -> u32
    requires { 5 ≤ first }
    ensures { result ≡ (place - 5) - (first - 5) }
{
    behind_header(place).saturating_sub(first)
}

/// What is told of the words of an instruction that breaks a rule at a word: its words, and the one that fails.
fn word_facts(alloc: Global, image: &Image, inst: u32, place: u32) -> Result<Vec<Fact>, AllocError>
    ensures { IfOk result (λ v. v.items ≡ parts.word_facts (drop 5 image.now) inst (place - 5)) }
{
    let first = first_word(image, inst);
    let offset = offset_of(place, first);
    let mut facts = Vec::new(alloc);
    let told = words_of(alloc, image, first, offset)?;
    push_one(&mut facts, told)?;
    let word = word_at(image, behind_header(place));
    push_one(&mut facts, Fact::Word { offset, word })?;
    Ok(facts)
}

/// What is told of an instruction of an image that breaks a rule at a word: its words, the one that fails, and what the
/// evidence tells. The module of the lines has no instructions.
///
/// An `AllocError` comes only where a growth of memory was refused.
pub fn facts_of_words(
    about: About<'_, '_>,
    image: &Image,
    inst: u32,
    place: u32,
    evidence: Evidence,
) -> Result<Vec<Fact>, AllocError>
    requires none { plain_insts about.«module».now ≡ [] }
    ensures { IfOk result (λ v. v.items ≡ words.malformed_facts (drop 5 image.now) inst (place - 5) evidence) }
{
    let mut facts = word_facts(about.alloc, image, inst, place)?;
    about.push_evidence(&mut facts, inst, evidence)?;
    Ok(facts)
}
