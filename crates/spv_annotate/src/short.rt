//! Names in comments, of which a long one is cut.

ghost use Rattle.std.specs.Prelude.{◌≡◌, ◌≤◌, ◌<◌, ◌++◌, OnOk, length, string_bytes, take, true};
ghost use Rattle.std.specs.List.{list_all};
ghost use Rattle.spv_lines.specs.Plain as plain;
ghost use Rattle.spv_annotate.specs.Notes as specs;
ghost use Rattle.spv_annotate.specs.Notes.{beginning_of, cut_at, short_by, short_name};
ghost use Rattle.spv_annotate.specs.inner.Tame as tame;

use crate::html::is_mark;
use crate::tame::push_tame;
use std::alloc::AllocError;

/// How many octets a name takes in a page at most.
const MOST: usize = 40;

/// The beginning of a name that has more octets than are told: its whole characters in these.
fn cut(name: &str, most: usize) -> &str
    requires { most < length name.now }
    ensures { result.now ≡ take (cut_at name.now most) name.now }
{
    &name[..name.floor_char_boundary(most)]
}

/// The beginning of a name, of so many octets at most: whole characters.
fn beginning(name: &str, most: usize) -> &str
    ensures { result.now ≡ beginning_of most name.now }
{
    if name.len() <= most {
        return name;
    }
    cut(name, most)
}

/// How many octets an octet takes in a page.
#[inline(always)]
fn octet_room(octet: u8) -> usize
    ensures room { result ≡ specs.octet_room octet }
    ensures small { result ≤ 6 }
{
    if octet < 32 || octet == 127 {
        return 4;
    }
    match octet {
        b'<' | b'>' => 4,
        b'&' | b'\'' => 5,
        b'"' => 6,
        _ => 1,
    }
}

/// Whether two octets are a control character from U+0080 to U+009F.
#[inline(always)]
fn is_late_control(first: u8, second: u8) -> bool
    ensures { result ≡ plain.is_late_control first second }
{
    first == 194 && second >= 128 && second < 160
}

/// How many octets a short text takes in a page.
fn room(text: &[u8]) -> usize
    requires { length text.now ≤ 40 }
    ensures { result ≡ specs.room text.now }
{
    let mut rest = text;
    let mut size = 0;
    while let [first, behind @ ..] = rest {
        match behind {
            [second, more @ ..] if is_late_control(*first, *second) => {
                size += 8;
                rest = more;
            }
            _ => {
                size += octet_room(*first);
                rest = behind;
            }
        }
    }
    size
}

/// Whether so many octets of a name, or the whole name, take at most forty in a page.
fn fits(name: &str, most: usize) -> bool
    requires { most ≤ 40 }
    ensures { result ≡ specs.fits name.now most }
{
    room(beginning(name, most).as_bytes()) <= MOST
}

/// How many octets of a name are told at most.
fn told_most(name: &str) -> usize
    ensures { result ≡ specs.told_most name.now }
{
    if fits(name, 40) {
        return 40;
    }
    if fits(name, 20) {
        return 20;
    }
    if fits(name, 10) {
        return 10;
    }
    6
}

/// Adds a name without its control characters, of so many octets at most.
fn push_short_by(out: &mut String, most: usize, name: &str) -> Result<(), AllocError>
    ensures { OnOk result (string_bytes out.new ≡ string_bytes out.old ++ short_by most name.now) }
{
    if name.len() <= most {
        return push_tame(out, name);
    }
    push_tame(out, cut(name, most))?;
    out.push_str("..")
}

/// Whether an octet is of ASCII, is no control character, and stands in HTML for itself.
#[inline(always)]
fn is_single(octet: u8) -> bool
    ensures { result ≡ tame.is_single octet }
{
    octet >= 32 && octet < 127 && !is_mark(octet)
}

/// Whether all octets are such.
#[inline(always)]
fn are_single(octets: &[u8]) -> bool
    ensures { result ≡ list_all tame.is_single octets.now }
{
    for octet in octets {
        if !is_single(*octet) {
            return false;
        }
    }
    true
}

/// Whether it is found at once that a name is told as it is, as most are.
#[inline(always)]
fn is_told_whole(name: &str) -> bool
    ensures { result ≡ true → short_name name.now ≡ name.now }
{
    if name.len() > MOST {
        return false;
    }
    are_single(name.as_bytes())
}

/// Adds a name without its control characters, or the beginning of a long one.
///
/// An `AllocError` comes only where a growth of memory was refused, and then nothing is said of what is left.
pub fn push_short(out: &mut String, name: &str) -> Result<(), AllocError>
    ensures { OnOk result (string_bytes out.new ≡ string_bytes out.old ++ short_name name.now) }
{
    if is_told_whole(name) {
        return out.push_str(name);
    }
    push_short_by(out, told_most(name), name)
}
