//! Texts that are put together in a buffer, from the first octet to the last.

ghost use Rattle.std.specs.Prelude.{◌≡◌, ◌≤◌, ◌+◌, ◌++◌, IfOk, IsUtf8, OnOk, decimal, length};
ghost use Rattle.std.specs.Prelude.{string_bytes, take, true};
ghost use Rattle.std.specs.List.{list_all};
ghost use Rattle.spv_annotate.specs.declared.draft.TheConstants.{FULL, SIZE};
ghost use Rattle.spv_annotate.specs.inner.Draft.{IsAdded, IsCopied, IsDrafted};
ghost use Rattle.spv_annotate.specs.inner.Draft as specs;

use crate::buffer::put_number;
use crate::html::is_mark;
use memchr::memchr;
use std::alloc::AllocError;
use std::str::from_utf8_unchecked;

/// The size of the buffer.
pub const SIZE: usize = 4096;

/// How far the buffer is filled before what it has is added to a page.
pub const FULL: usize = 1024;

/// The size of a buffer for a number, which ends in its middle.
const TOKEN: usize = 32;

/// How many octets may stand before an id that are copied at once.
const LONGEST_LEAD: usize = 128;

/// Adds a text behind a place, and gives where it ends.
#[inline(always)]
pub fn add_text(buffer: &mut [u8], text: &str, at: usize) -> usize
    requires { at + length text.now ≤ length buffer.old }
    ensures end { result ≡ at + length text.now }
    ensures added { IsAdded text.now at result buffer.old buffer.new }
{
    let octets = text.as_bytes();
    let end = at + octets.len();
    buffer[at..end].copy_from_slice(octets);
    end
}

/// Adds a number in decimal behind a place, and gives where it ends.
#[inline(always)]
pub fn add_number(buffer: &mut [u8], number: u32, at: usize) -> usize
    requires { at + 16 ≤ length buffer.old }
    ensures low { at ≤ result }
    ensures high { result ≤ at + 10 }
    ensures added { IsAdded (decimal number) at result buffer.old buffer.new }
{
    let mut token = [0u8; TOKEN];
    let start = put_number(&mut token, number, 16);
    buffer[at..at + 16].copy_from_slice(&token[start..start + 16]);
    at + (16 - start)
}

/// Whether an octet is of ASCII, stands for itself in HTML, and begins no id.
#[inline(always)]
fn is_plain(octet: u8) -> bool
    ensures { result ≡ true → specs.is_plain octet ≡ true }
{
    if octet > b'>' {
        return octet < 128;
    }
    if octet < b'"' {
        return true;
    }
    !(octet == b'%' || is_mark(octet))
}

/// Copies octets up to the first that is not plain (`is_plain`) behind a place, and gives how many they are.
#[inline(always)]
pub fn add_plain(buffer: &mut [u8], octets: &[u8], at: usize) -> usize
    requires { at + length octets.now ≤ length buffer.old }
    ensures { IsCopied octets.now at result buffer.old buffer.new }
{
    let mut count = 0;
    while count < octets.len() {
        let octet = octets[count];
        if !is_plain(octet) {
            return count;
        }
        buffer[at + count] = octet;
        count += 1;
    }
    count
}

/// The same as `is_plain`, told exactly and of any octet alike.
#[inline(always)]
fn is_plain_octet(octet: u8) -> bool
    ensures { result ≡ specs.is_plain octet }
{
    octet < 128 && !(octet == b'%' || is_mark(octet))
}

/// Whether all octets are plain. It looks at all of them, so that a compiler can take many at a time.
fn are_plain(octets: &[u8]) -> bool
    ensures { result ≡ list_all specs.is_plain octets.now }
{
    let mut plain = true;
    for octet in octets {
        plain &= is_plain_octet(*octet);
    }
    plain
}

/// Copies octets behind a place.
#[inline(always)]
fn put_plain(buffer: &mut [u8], octets: &[u8], at: usize)
    requires { at + length octets.now ≤ length buffer.old }
    ensures { take (at + length octets.now) buffer.new ≡ take at buffer.old ++ octets.now }
{
    buffer[at..at + octets.len()].copy_from_slice(octets);
}

/// Copies the octets before the first `%` behind a place, if all of them are plain, and gives how many they are. Where
/// one is not, where there is no `%`, and where they are more than 128, it copies none.
#[inline(always)]
pub fn add_lead(buffer: &mut [u8], octets: &[u8], at: usize) -> usize
    requires { at + 128 ≤ length buffer.old }
    ensures copied { IsCopied octets.now at result buffer.old buffer.new }
    ensures few { result ≤ 128 }
{
    let Some(count) = memchr(b'%', octets) else {
        return 0;
    };
    if count > LONGEST_LEAD {
        return 0;
    }
    let lead = &octets[..count];
    if !are_plain(lead) {
        return 0;
    }
    put_plain(buffer, lead, at);
    count
}

/// Adds what the buffer has up to a place.
///
/// An `AllocError` comes only where a growth of memory was refused, and then nothing is said of what is left.
#[inline(always)]
pub fn push_draft(out: &mut String, buffer: &[u8], end: usize) -> Result<(), AllocError>
    requires within { end ≤ length buffer.now }
    requires utf8 { IsUtf8 (take end buffer.now) }
    ensures { OnOk result (string_bytes out.new ≡ string_bytes out.old ++ take end buffer.now) }
{
    out.push_str(unsafe { from_utf8_unchecked(&buffer[..end]) })
}

/// Adds to a page what the buffer has up to a place, if that is much. Gives where in the buffer ends what is still to
/// be added.
///
/// An `AllocError` comes only where a growth of memory was refused, and then nothing is said of what is left.
#[inline(always)]
pub fn settle(out: &mut String, buffer: &[u8], end: usize) -> Result<usize, AllocError>
    requires within { end ≤ length buffer.now }
    requires utf8 { IsUtf8 (take end buffer.now) }
    ensures high { IfOk result (λ at. at ≤ FULL) }
    ensures utf8 { IfOk result (λ at. IsUtf8 (take at buffer.now)) }
    ensures text { IfOk result (λ at. string_bytes out.new ++ take at buffer.now
        ≡ string_bytes out.old ++ take end buffer.now) }
{
    if end <= FULL {
        return Ok(end);
    }
    push_draft(out, buffer, end)?;
    Ok(0)
}

/// Adds a short text to a page, behind what the buffer has up to a place.
///
/// An `AllocError` comes only where a growth of memory was refused, and then nothing is said of what is left.
#[inline(always)]
pub fn push_fixed(
    out: &mut String,
    buffer: &mut [u8],
    at: usize,
    text: &str,
) -> Result<usize, AllocError>
    requires size { SIZE ≤ length buffer.old }
    requires at { at ≤ FULL }
    requires text { length text.now ≤ 64 }
    requires utf8 { IsUtf8 (take at buffer.old) }
    ensures { IfOk result (λ end. IsDrafted text.now (string_bytes out.old) at buffer.old
        (string_bytes out.new) end buffer.new) }
{
    let added = add_text(buffer, text, at);
    settle(out, buffer, added)
}
