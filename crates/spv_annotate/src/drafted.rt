//! The front of a line in which ids have links, in a buffer.

ghost use Rattle.std.specs.Prelude.{◌≡◌, ◌≤◌, ◌<◌, ◌+◌, ◌++◌, IfOk, IfSome, IsUtf8, None, Some, length};
ghost use Rattle.std.specs.Prelude.{string_bytes, take};
ghost use Rattle.spv_annotate.specs.Page.{link_to, linked};
ghost use Rattle.spv_annotate.specs.inner.Draft.{IsAdded, IsFront, most_begun, most_ended};
ghost use Rattle.spv_annotate.specs.declared.draft.TheConstants.{SIZE};
ghost use Rattle.spv_annotate.specs.inner.Linked.{base};
ghost use Rattle.spv_annotate.specs.inner.Numbers.{kept};
ghost use Rattle.spv_annotate.specs.declared.linked.Quoting.TheVariants.{Commented};

use crate::draft::{add_lead, add_number, add_plain, add_text, push_draft};
use crate::linked::{Quoting, is_bare, lean_id, push_linked};
use crate::numbers::Numbers;
use std::alloc::AllocError;

/// How many octets a comment may have that is put into a buffer at once.
const LONGEST: usize = 512;

/// How many octets a line may have that is put into a buffer part by part.
const LONGEST_LINE: usize = 128;

/// The size of a buffer for such a line, with room for an id behind it.
const PADDED: usize = 144;

/// How many octets an id may have there.
const LONGEST_WORD: usize = 16;

/// Behind this place no part of a line is added.
const LAST: usize = 2048;

/// What was added of a line.
#[derive(Clone, Copy)]
pub struct Drafted {
    /// How many of the line's octets were read.
    pub read: usize,
    /// Where in the buffer ends what was added for them.
    pub at: usize,
}

/// Adds an id, which stands at the front of a text and has so many octets, behind a place, and gives where it ends.
#[inline(always)]
fn add_word(buffer: &mut [u8], text: &[u8], count: usize, at: usize) -> usize
    requires count { count ≤ 16 }
    requires padded { 16 ≤ length text.now }
    requires utf8 { IsUtf8 (take count text.now) }
    requires room { at + 16 ≤ length buffer.old }
    ensures end { result ≡ at + count }
    ensures added { IsAdded (take count text.now) at result buffer.old buffer.new }
{
    buffer[at..at + 16].copy_from_slice(&text[..16]);
    at + count
}

/// Adds a link to the instruction of that number behind a place, and gives where it ends. In it stands the id at the
/// front of a text, which has so many octets.
#[inline(always)]
fn add_link(buffer: &mut [u8], inst: u32, text: &[u8], count: usize, at: usize) -> usize
    requires count { count ≤ 16 }
    requires padded { 16 ≤ length text.now }
    requires utf8 { IsUtf8 (take count text.now) }
    requires room { at + 64 ≤ length buffer.old }
    ensures low { at ≤ result }
    ensures high { result ≤ at + 64 }
    ensures added { IsAdded (link_to inst (take count text.now)) at result buffer.old buffer.new }
{
    let number = add_text(buffer, "<a href=#", at);
    let tag = add_number(buffer, inst, number);
    let begin = add_text(buffer, ">", tag);
    let behind = add_word(buffer, text, count, begin);
    add_text(buffer, "</a>", behind)
}

/// Adds the id at the front of a line with a link to the instruction that defines it. None where no id stands there, as
/// `lean_id` has it, or none that is defined, and then nothing is added. The line is given with more behind it, too.
#[inline(always)]
fn add_id(
    buffer: &mut [u8],
    definitions: &Numbers,
    line: &[u8],
    padded: &[u8],
    at: usize,
) -> Option<Drafted>
    requires room { at + 64 ≤ length buffer.old }
    requires padded { length line.now + 16 ≤ length padded.now }
    requires line { take (length line.now) padded.now ≡ line.now }
    ensures front { IfSome result (λ f. IsFront (kept definitions.now) line.now f.read at f.at buffer.old buffer.new) }
    ensures some { IfSome result (λ f. 0 < f.read) }
    ensures high { IfSome result (λ f. f.at ≤ at + 64) }
    ensures same { result ≡ None → buffer.new ≡ buffer.old }
{
    let [first, digits @ ..] = line else {
        return None;
    };
    if *first != b'%' {
        return None;
    }
    let lean = lean_id(digits)?;
    let inst = definitions.get(lean.id)?;
    let read = 1 + lean.count;
    if read > LONGEST_WORD {
        return None;
    }
    let end = add_link(buffer, inst, padded, read, at);
    Some(Drafted { read, at: end })
}

/// Adds the id at the front of a line with its link, as `add_id`, and the octets behind it that are plain.
#[inline(always)]
fn add_part(
    buffer: &mut [u8],
    definitions: &Numbers,
    line: &[u8],
    padded: &[u8],
    at: usize,
) -> Option<Drafted>
    requires room { at + 64 + length line.now ≤ length buffer.old }
    requires padded { length line.now + 16 ≤ length padded.now }
    requires line { take (length line.now) padded.now ≡ line.now }
    ensures front { IfSome result (λ f. IsFront (kept definitions.now) line.now f.read at f.at buffer.old buffer.new) }
    ensures some { IfSome result (λ f. 0 < f.read) }
    ensures high { IfSome result (λ f. f.at ≤ at + 64 + length line.now) }
    ensures same { result ≡ None → buffer.new ≡ buffer.old }
{
    let id = add_id(buffer, definitions, line, padded, at)?;
    let plain = add_plain(buffer, &line[id.read..], id.at);
    Some(Drafted {
        read: id.read + plain,
        at: id.at + plain,
    })
}

/// Puts a line at the front of a buffer.
#[inline(always)]
fn put_line(padded: &mut [u8], line: &[u8])
    requires { length line.now ≤ length padded.old }
    ensures { take (length line.now) padded.new ≡ line.now }
{
    padded[..line.len()].copy_from_slice(line);
}

/// Adds the front of a line, in which ids have links, behind a place: up to an octet that is not plain and begins no id
/// as `add_id` adds it, or to where there is no room for more.
#[inline(always)]
fn add_front(buffer: &mut [u8], definitions: &Numbers, line: &[u8], at: usize) -> Drafted
    requires size { SIZE ≤ length buffer.old }
    requires begin { at ≤ most_begun }
    ensures front { IsFront (kept definitions.now) line.now result.read at result.at buffer.old buffer.new }
    ensures high { result.at ≤ most_ended }
{
    if line.len() > LONGEST_LINE {
        return Drafted { read: 0, at };
    }
    let mut padded = [0u8; PADDED];
    put_line(&mut padded, line);
    let plain = add_plain(buffer, line, at);
    let mut front = Drafted {
        read: plain,
        at: at + plain,
    };
    while front.at <= LAST {
        let rest = &line[front.read..];
        let behind = &padded[front.read..];
        let Some(part) = add_part(buffer, definitions, rest, behind, front.at) else {
            return front;
        };
        front = Drafted {
            read: front.read + part.read,
            at: part.at,
        };
    }
    front
}

/// Adds a line in which ids have links behind what the buffer has up to a place. What has no room there is added to the
/// page, behind what the buffer has. Gives where in the buffer ends what is still to be added to the page.
///
/// An `AllocError` comes only where a growth of memory was refused, and then nothing is said of what is left.
#[inline(always)]
pub fn push_drafted(
    out: &mut String,
    buffer: &mut [u8],
    definitions: &Numbers,
    quoting: Quoting,
    line: &str,
    at: usize,
) -> Result<usize, AllocError>
    requires size { SIZE ≤ length buffer.old }
    requires begin { at ≤ most_begun }
    requires utf8 { IsUtf8 (take at buffer.old) }
    requires base { base quoting ≡ quoting }
    ensures high { IfOk result (λ end. end ≤ most_ended) }
    ensures utf8 { IfOk result (λ end. IsUtf8 (take end buffer.new)) }
    ensures text { IfOk result (λ end. string_bytes out.new ++ take end buffer.new
        ≡ string_bytes out.old ++ (take at buffer.old ++ linked (kept definitions.now) quoting line.now)) }
{
    let front = add_front(buffer, definitions, line.as_bytes(), at);
    if front.read == line.len() {
        return Ok(front.at);
    }
    push_draft(out, buffer, front.at)?;
    push_linked(out, definitions, quoting, &line[front.read..])?;
    Ok(0)
}

/// Adds a comment, as `push_drafted` a line. What stands before the first id is mostly long, and is copied at once.
#[inline(never)]
fn push_mixed(
    out: &mut String,
    buffer: &mut [u8],
    definitions: &Numbers,
    text: &str,
    at: usize,
) -> Result<usize, AllocError>
    requires size { SIZE ≤ length buffer.old }
    requires begin { at + 128 ≤ most_begun }
    requires utf8 { IsUtf8 (take at buffer.old) }
    ensures high { IfOk result (λ end. end ≤ most_ended) }
    ensures utf8 { IfOk result (λ end. IsUtf8 (take end buffer.new)) }
    ensures text { IfOk result (λ end. string_bytes out.new ++ take end buffer.new
        ≡ string_bytes out.old ++ (take at buffer.old ++ linked (kept definitions.now) Commented text.now)) }
{
    let count = add_lead(buffer, text.as_bytes(), at);
    let rest = &text[count..];
    push_drafted(
        out,
        buffer,
        definitions,
        Quoting::Commented,
        rest,
        at + count,
    )
}

/// Adds a comment in which ids have links, as `push_drafted` a line.
///
/// An `AllocError` comes only where a growth of memory was refused, and then nothing is said of what is left.
pub fn push_remark(
    out: &mut String,
    buffer: &mut [u8],
    definitions: &Numbers,
    text: &str,
    at: usize,
) -> Result<usize, AllocError>
    requires size { SIZE ≤ length buffer.old }
    requires begin { at + 128 ≤ most_begun }
    requires utf8 { IsUtf8 (take at buffer.old) }
    ensures high { IfOk result (λ end. end ≤ most_ended) }
    ensures utf8 { IfOk result (λ end. IsUtf8 (take end buffer.new)) }
    ensures text { IfOk result (λ end. string_bytes out.new ++ take end buffer.new
        ≡ string_bytes out.old ++ (take at buffer.old ++ linked (kept definitions.now) Commented text.now)) }
{
    if !is_bare(text.as_bytes()) {
        return push_mixed(out, buffer, definitions, text, at);
    }
    if text.len() > LONGEST {
        push_draft(out, buffer, at)?;
        out.push_str(text)?;
        return Ok(0);
    }
    let end = add_text(buffer, text, at);
    Ok(end)
}
