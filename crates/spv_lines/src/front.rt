//! A number at the front of a text.

ghost use Rattle.std.specs.Prelude.{◌≡◌, ◌<◌, ◌≤◌, ◌^◌, ℕ, true, IfSome, length, take};
ghost use Rattle.std.specs.Prelude.{slice_index, decimal};
ghost use Rattle.std.specs.List.{list_all};
ghost use Rattle.spv_lines.specs.Digits.{is_digit, value};
ghost use Rattle.spv_lines.specs.Line.{before_space, from_space};

use crate::split::split_before;

/// A number that a token is, and what stands from the end of the token on.
#[derive(Clone, Copy)]
pub struct Cell<'a> {
    pub number: u32,
    pub rest: &'a str,
}

/// A number below this one has room for one more digit in a word.
const ROOM: u32 = 400_000_000;

/// The cell of a number whose digits end there, at a space or at the end of the text. None where there are no digits,
/// or a zero stands in front that is not needed.
#[inline(always)]
fn cell_at(text: &str, at: usize, number: u32) -> Option<Cell<'_>>
    requires within { at ≤ length text.now }
    requires ended { at < length text.now → slice_index text.now at ≡ 32 }
    requires digits { list_all is_digit (take at text.now) ≡ true }
    requires value { value (take at text.now) ≡ number }
    ensures { IfSome result (λ c. (c.number < 2 ^ 32) × (before_space text.now ≡ decimal c.number)
        × (from_space text.now ≡ c.rest.now)) }
{
    let octets = text.as_bytes();
    if at == 0 {
        return None;
    }
    if at > 1 && octets[0] == b'0' {
        return None;
    }
    if at == octets.len() {
        return Some(Cell { number, rest: "" });
    }
    let (_, rest) = split_before(text, at);
    Some(Cell { number, rest })
}

/// The decimal number that the token at the front of a text is, up to the first space or the end, and what stands from
/// there on. None where the token is no well-formed decimal number, and also for a number of 4,000,000,000 or more.
#[inline(always)]
pub fn read_front(text: &str) -> Option<Cell<'_>>
    ensures { IfSome result (λ c. (c.number < 2 ^ 32) × (before_space text.now ≡ decimal c.number)
        × (from_space text.now ≡ c.rest.now)) }
{
    let octets = text.as_bytes();
    let mut number = 0u32;
    let mut at = 0;
    while at < octets.len() {
        let octet = octets[at];
        if octet == b' ' {
            return cell_at(text, at, number);
        }
        if octet < b'0' || octet > b'9' || number >= ROOM {
            return None;
        }
        number = number * 10 + u32::from(octet - b'0');
        at += 1;
    }
    cell_at(text, at, number)
}
