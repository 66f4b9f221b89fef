//! Lines in which ids have links.

ghost use Rattle.std.specs.Prelude.{◌≡◌, ◌++◌, ◌∷◌, ◌≤◌, ◌<◌, ℕ, List, IfSome, OnOk, Some, get_or, length};
ghost use Rattle.std.specs.Prelude.{drop, option_and_then, string_bytes, take, true};
ghost use Rattle.std.specs.List.{list_all, prefix_len};
ghost use Rattle.spv_lines.specs.Digits as digits;
ghost use Rattle.spv_annotate.specs.declared.linked.TheConstants.{LINK};
ghost use Rattle.spv_annotate.specs.inner.Linked as specs;
ghost use Rattle.spv_annotate.specs.inner.Linked.{base, is_steady, part_len, until_id};
ghost use Rattle.spv_annotate.specs.inner.Numbers.{kept};
ghost use Rattle.spv_annotate.specs.Html.{escaped};
ghost use Rattle.spv_annotate.specs.Quoted as quoted;
ghost use Rattle.spv_annotate.specs.Page.{id_html, id_of, link_to, linked, part_html};
ghost use Rattle.spv_annotate.specs.Quoted.{after_byte};

use crate::buffer::{push_between, put_number, put_octets};
use crate::html::{first_mark, is_mark, push_escaped};
use crate::numbers::Numbers;
use spv_lines::read_behind;
use std::alloc::AllocError;
use std::str::from_utf8_unchecked;

/// How many bytes a word may have that is put into a buffer with its link.
const LONGEST: usize = 32;

/// How many bytes may have what stands behind the word, where it is put there too.
const LONGEST_TAIL: usize = 24;

/// The size of that buffer.
const LINK: usize = 96;

/// A number below this one has room for one more digit.
const ROOM: u32 = 429_496_729;

/// The octet of the digit 0.
const ZERO: u32 = 48;

/// The id that stands at the front of a text.
#[derive(Clone, Copy)]
pub struct Lean {
    /// Its number.
    pub id: u32,
    /// How many digits it has.
    pub count: usize,
}

/// Where a reader of a line stands.
#[derive(Clone, Copy)]
pub enum Quoting {
    /// Outside quotes.
    Outside,
    /// In quotes.
    Within,
    /// In quotes, behind a backslash.
    Behind,
    /// In a comment, where a quote is like any other character.
    Commented,
}

impl Quoting {
    /// Where the reader stands after one byte more.
    fn after(self, byte: u8) -> Quoting
        ensures { result ≡ after_byte self byte }
    {
        match self {
            Quoting::Outside => if byte == b'"' {
                Quoting::Within
            } else {
                Quoting::Outside
            },
            Quoting::Within => if byte == b'"' {
                Quoting::Outside
            } else if byte == b'\\' {
                Quoting::Behind
            } else {
                Quoting::Within
            },
            Quoting::Behind => Quoting::Within,
            Quoting::Commented => Quoting::Commented,
        }
    }

    /// Whether an id begins with a byte.
    fn begins_id(self, byte: u8) -> bool
        ensures { result ≡ quoted.begins_id self byte }
    {
        match self {
            Quoting::Outside | Quoting::Commented => byte == b'%',
            Quoting::Within | Quoting::Behind => false,
        }
    }
}

/// How many bytes stand before the first `%` or `"`.
#[inline(always)]
fn steady_size(line: &[u8]) -> usize
    ensures within { result ≤ length line.now }
    ensures steady { (k : ℕ) → k < result → is_steady (get_or line.now k 0) ≡ true }
{
    for (at, byte) in line.iter().enumerate() {
        if *byte == b'%' || *byte == b'"' {
            return at;
        }
    }
    line.len()
}

/// How many bytes stand before the next id, by one byte after the other.
fn size_by_bytes(line: &[u8], quoting: Quoting) -> usize
    ensures size { result ≡ until_id quoting line.now }
    ensures within { result ≤ length line.now }
{
    let mut here = quoting;
    for (at, byte) in line.iter().enumerate() {
        if here.begins_id(*byte) {
            return at;
        }
        here = here.after(*byte);
    }
    line.len()
}

/// How many bytes stand before the next id, where a quote may begin but none is open.
#[inline(always)]
fn size_past_steady(line: &[u8], quoting: Quoting) -> usize
    requires { base quoting ≡ quoting }
    ensures size { result ≡ until_id quoting line.now }
    ensures within { result ≤ length line.now }
{
    let steady = steady_size(line);
    steady + size_by_bytes(&line[steady..], quoting)
}

/// How many bytes stand before the next id.
#[inline(always)]
pub fn size_until_id(line: &[u8], quoting: Quoting) -> usize
    ensures size { result ≡ until_id quoting line.now }
    ensures within { result ≤ length line.now }
{
    match quoting {
        Quoting::Outside => size_past_steady(line, Quoting::Outside),
        Quoting::Commented => size_past_steady(line, Quoting::Commented),
        _ => size_by_bytes(line, quoting),
    }
}

/// How many bytes the first part of a line has, up to the next id behind the first byte.
fn part_size(line: &[u8], quoting: Quoting) -> usize
    ensures size { result ≡ part_len quoting line.now }
    ensures within { result ≤ length line.now }
{
    match line {
        [first, rest @ ..] => 1 + size_until_id(rest, quoting.after(*first)),
        [] => 0,
    }
}

/// Whether an octet is a digit.
#[inline(always)]
fn is_digit(octet: u8) -> bool
    ensures { result ≡ digits.is_digit octet }
{
    octet >= b'0' && octet <= b'9'
}

/// How many digits stand at the front.
fn digit_count(text: &[u8]) -> usize
    ensures count { result ≡ prefix_len digits.is_digit text.now }
    ensures within { result ≤ length text.now }
{
    for (at, byte) in text.iter().enumerate() {
        if !is_digit(*byte) {
            return at;
        }
    }
    text.len()
}

/// Adds a word with a link to the instruction of that number.
pub fn push_link(out: &mut String, inst: u32, word: &str) -> Result<(), AllocError>
    ensures { OnOk result (string_bytes out.new ≡ string_bytes out.old ++ id_html (Some inst) word.now) }
{
    push_between(out, "<a href=#", inst, ">")?;
    push_escaped(out, word)?;
    out.push_str("</a>")
}

/// Puts a short word with a link to the instruction of that number, and a short text behind it, at the end of a buffer,
/// and gives where they begin.
#[inline(always)]
fn put_link(buffer: &mut [u8], inst: u32, word: &str, tail: &str) -> usize
    requires size { length buffer.old ≡ LINK }
    requires word { length word.now ≤ 32 }
    requires tail { length tail.now ≤ 24 }
    ensures within { result ≤ LINK }
    ensures text { drop result buffer.new ≡ link_to inst word.now ++ tail.now }
{
    let last = put_octets(buffer, tail.as_bytes(), LINK);
    let behind = put_octets(buffer, b"</a>", last);
    let begin = put_octets(buffer, word.as_bytes(), behind);
    let tag = put_octets(buffer, b">", begin);
    let digits = put_number(buffer, inst, tag);
    put_octets(buffer, b"<a href=#", digits)
}

/// Adds a short word, of which each byte stands for itself in HTML, with a link to the instruction of that number, and
/// a short text behind it.
#[inline(always)]
fn push_short_link(out: &mut String, inst: u32, word: &str, tail: &str) -> Result<(), AllocError>
    requires word { length word.now ≤ 32 }
    requires tail { length tail.now ≤ 24 }
    ensures { OnOk result (string_bytes out.new
        ≡ string_bytes out.old ++ (link_to inst word.now ++ tail.now)) }
{
    let mut buffer = [0u8; LINK];
    let start = put_link(&mut buffer, inst, word, tail);
    out.push_str(unsafe { from_utf8_unchecked(&buffer[start..]) })
}

/// What stands behind the mark of a word, as behind the `%` of `%7`.
#[inline(always)]
#[tactic(auto, using(crate::proofs::Parts::behind_front))]
fn behind_mark(word: &[u8]) -> &[u8]
    ensures { (ds : List ℕ) → word.now ≡ 37 ∷ ds → result.now ≡ ds }
{
    match word {
        [_, digits @ ..] => digits,
        [] => word,
    }
}

/// The id that the digits at the front are. None where there are none, where a zero stands in front, and for most
/// numbers of ten digits.
#[inline(always)]
pub fn lean_id(text: &[u8]) -> Option<Lean>
    ensures count { IfSome result (λ l. l.count ≡ prefix_len digits.is_digit text.now) }
    ensures id { IfSome result (λ l. Some l.id ≡ id_of (take l.count text.now)) }
    ensures within { IfSome result (λ l. l.count ≤ length text.now) }
{
    let [first, ..] = text else {
        return None;
    };
    if *first < b'1' || *first > b'9' {
        return None;
    }
    let mut id: u32 = 0;
    for (count, digit) in text.iter().enumerate() {
        if !is_digit(*digit) {
            return Some(Lean { id, count });
        }
        if id >= ROOM {
            return None;
        }
        id = id * 10 + (u32::from(*digit) - ZERO);
    }
    Some(Lean {
        id,
        count: text.len(),
    })
}

/// The id that a text of digits is. None where it is none, and where `lean_id` tells none.
#[inline(always)]
fn short_id(text: &[u8]) -> Option<u32>
    ensures { IfSome result (λ id. Some id ≡ id_of text.now) }
{
    let lean = lean_id(text)?;
    if lean.count < text.len() {
        return None;
    }
    Some(lean.id)
}

/// The id that a word is, as `%7`.
fn id_in(word: &[u8]) -> Option<u32>
    ensures { (ds : List ℕ) → word.now ≡ 37 ∷ ds → result ≡ id_of ds }
{
    if let Some(id) = short_id(behind_mark(word)) {
        return Some(id);
    }
    match read_behind(b'%', word) {
        Ok(id) => Some(id),
        Err(_) => None,
    }
}

/// What is kept of the id that a word is, as `%7`.
fn definition_in(definitions: &Numbers, word: &[u8]) -> Option<u32>
    ensures { (ds : List ℕ) → word.now ≡ 37 ∷ ds → result ≡ option_and_then (kept definitions.now) (id_of ds) }
{
    match id_in(word) {
        Some(id) => definitions.get(id),
        None => None,
    }
}

/// Whether a word and what stands behind it are short, and each byte of the latter stands for itself in HTML.
#[inline(always)]
fn are_short(word: &str, tail: &str) -> bool
    ensures word { result ≡ true → length word.now ≤ 32 }
    ensures tail { result ≡ true → length tail.now ≤ 24 }
    ensures plain { result ≡ true → escaped tail.now ≡ tail.now }
{
    if word.len() > LONGEST || tail.len() > LONGEST_TAIL {
        return false;
    }
    match first_mark(tail.as_bytes()) {
        Some(_) => false,
        None => true,
    }
}

/// Adds an id, as `%7`, with a link to the instruction that defines it, if there is one, and what stands behind it.
fn push_id(
    out: &mut String,
    definitions: &Numbers,
    word: &str,
    tail: &str,
) -> Result<(), AllocError>
    ensures { (ds : List ℕ) → word.now ≡ 37 ∷ ds → OnOk result (string_bytes out.new ≡ string_bytes out.old
        ++ (id_html (option_and_then (kept definitions.now) (id_of ds)) word.now ++ escaped tail.now)) }
{
    let Some(inst) = definition_in(definitions, word.as_bytes()) else {
        push_escaped(out, word)?;
        return push_escaped(out, tail);
    };
    if are_short(word, tail) {
        return push_short_link(out, inst, word, tail);
    }
    push_link(out, inst, word)?;
    push_escaped(out, tail)
}

/// Adds a part of a line that is cut before each id.
fn push_part(out: &mut String, definitions: &Numbers, part: &str) -> Result<(), AllocError>
    ensures { OnOk result (string_bytes out.new ≡ string_bytes out.old ++ part_html (kept definitions.now) part.now) }
{
    let [first, rest @ ..] = part.as_bytes() else {
        return Ok(());
    };
    if *first != b'%' {
        return push_escaped(out, part);
    }
    let size = 1 + digit_count(rest);
    push_id(out, definitions, &part[..size], &part[size..])
}

/// Adds a line, or a comment, in which ids that are defined have links.
///
/// An `AllocError` comes only where a growth of memory was refused, and then nothing is said of what is left.
pub fn push_linked(
    out: &mut String,
    definitions: &Numbers,
    quoting: Quoting,
    line: &str,
) -> Result<(), AllocError>
    requires { base quoting ≡ quoting }
    ensures { OnOk result (string_bytes out.new ≡ string_bytes out.old
        ++ linked (kept definitions.now) quoting line.now) }
{
    let mut rest = line;
    while !rest.is_empty() {
        let size = part_size(rest.as_bytes(), quoting);
        push_part(out, definitions, &rest[..size])?;
        rest = &rest[size..];
    }
    Ok(())
}

/// Whether a byte of a comment stands for itself, and begins no id.
#[inline(always)]
fn is_bare_byte(byte: u8) -> bool
    ensures { result ≡ specs.is_bare_byte byte }
{
    !(byte == b'%' || is_mark(byte))
}

/// Whether each byte of a comment stands for itself, and none begins an id. It looks at all of them, so that a compiler
/// can take many at a time.
pub fn is_bare(text: &[u8]) -> bool
    ensures { result ≡ list_all specs.is_bare_byte text.now }
{
    let mut bare = true;
    for byte in text {
        bare &= is_bare_byte(*byte);
    }
    bare
}
