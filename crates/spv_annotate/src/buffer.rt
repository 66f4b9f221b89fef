//! Texts that are put together in a buffer, from the last octet to the first.

ghost use Rattle.std.specs.Prelude.{◌≡◌, ◌≤◌, ◌+◌, ◌++◌, OnOk, codes, decimal, drop, length, string_bytes};
ghost use Rattle.spv_annotate.specs.inner.Buffer.{most_beside};

use itoa::write_digits;
use std::alloc::AllocError;
use std::str::from_utf8_unchecked;

/// The size of a buffer for a number and what stands on either side of it.
const SIZE: usize = 64;

/// Puts octets before a place, and gives where they begin.
#[inline(always)]
pub fn put_octets(buffer: &mut [u8], octets: &[u8], end: usize) -> usize
    requires room { length octets.now ≤ end }
    requires within { end ≤ length buffer.old }
    ensures low { result + length octets.now ≡ end }
    ensures text { drop result buffer.new ≡ octets.now ++ drop end buffer.old }
{
    let start = end - octets.len();
    buffer[start..end].copy_from_slice(octets);
    start
}

/// Puts a number in decimal before a place, and gives where it begins.
#[inline(always)]
pub fn put_number(buffer: &mut [u8], number: u32, end: usize) -> usize
    requires room { 10 ≤ end }
    requires within { end ≤ length buffer.old }
    ensures low { end ≤ result + 10 }
    ensures size { result + length (decimal number) ≡ end }
    ensures text { drop result buffer.new ≡ decimal number ++ drop end buffer.old }
{
    write_digits(u64::from(number), buffer, end)
}

/// Adds a number in decimal behind a short text.
///
/// An `AllocError` comes only where a growth of memory was refused, and then nothing is said of what is left.
#[inline(always)]
pub fn push_behind(out: &mut String, begin: &str, number: u32) -> Result<(), AllocError>
    requires { length begin.now ≤ most_beside }
    ensures { OnOk result (string_bytes out.new ≡ string_bytes out.old ++ (begin.now ++ decimal number)) }
{
    push_between(out, begin, number, "")
}

/// Adds a number in decimal between two short texts.
///
/// An `AllocError` comes only where a growth of memory was refused, and then nothing is said of what is left.
#[inline(always)]
pub fn push_between(out: &mut String, begin: &str, number: u32, end: &str) -> Result<(), AllocError>
    requires begin { length begin.now ≤ most_beside }
    requires end { length end.now ≤ most_beside }
    ensures { OnOk result (string_bytes out.new
        ≡ string_bytes out.old ++ (begin.now ++ (decimal number ++ end.now))) }
{
    let mut buffer = [0u8; SIZE];
    let behind = put_octets(&mut buffer, end.as_bytes(), SIZE);
    let digits = put_number(&mut buffer, number, behind);
    let start = put_octets(&mut buffer, begin.as_bytes(), digits);
    out.push_str(unsafe { from_utf8_unchecked(&buffer[start..]) })
}
