//! Numbers of the command line.
ghost use Rattle.std.specs.Prelude.{◌≡◌, ◌<◌, ◌≤◌, ◌+◌, ◌*◌, ◌-◌, ◌^◌, ◌∷◌, ℕ};
ghost use Rattle.std.specs.Prelude.{List, Some, None, true, length, IfOk, IfSome, MatchOption, option_map};
ghost use Rattle.spv_lines.specs.Digits.{is_digit};
ghost use Rattle.spv_command_line.specs.Number.{AreNumbers, IsNumber, parts_of};
ghost use Rattle.spv_command_line.specs.inner.Reading.{parts_left};

use memchr::memchr;
use std::alloc::{AllocError, Global};

/// The number of 32 bits that a digit after the digits of a number makes of it.
fn with_digit(number: u32, octet: u8) -> Option<u32>
    ensures { MatchOption result (is_digit octet ≡ true → 2 ^ 32 ≤ number * 10 + (octet - 48))
        (λ n. (is_digit octet ≡ true) × (n ≡ number * 10 + (octet - 48)) × (n < 2 ^ 32)) }
{
    if octet < b'0' || octet > b'9' {
        return None;
    }
    let tens = number.checked_mul(10)?;
    tens.checked_add(u32::from(octet - b'0'))
}

/// The number that a text is in decimal: ASCII digits, one at least. None where it is no digits, or a number over 32
/// bits.
pub fn number_in(text: &[u8]) -> Option<u32>
    ensures { MatchOption result ((n : ℕ) → ¬ (IsNumber text.now n)) (λ n. IsNumber text.now n) }
{
    if text.is_empty() {
        return None;
    }
    let mut number = 0u32;
    for octet in text {
        match with_digit(number, *octet) {
            Some(more) => number = more,
            None => return None,
        }
    }
    Some(number)
}

/// What stands before the first comma, and what after it, if there is one.
fn split_part(text: &[u8]) -> (&[u8], Option<&[u8]>)
    ensures parts { parts_of text.now ≡ (result.0).now ∷ parts_left (option_map (λ t. t.now) result.1) }
    ensures shorter { IfSome (result.1) (λ t. length t.now < length text.now) }
{
    match memchr(b',', text) {
        Some(at) => (&text[..at], Some(&text[at + 1..])),
        None => (text, None),
    }
}

/// The numbers that commas join in a text, one at least. None where what stands between two commas is no number of 32
/// bits.
///
/// # Errors
///
/// Where a growth of memory was refused.
pub fn numbers_in(alloc: Global, text: &[u8]) -> Result<Option<Vec<u32>>, AllocError>
    ensures { IfOk result (λ o. MatchOption o ((ns : List ℕ) → ¬ (AreNumbers text.now ns))
        (λ v. AreNumbers text.now v.items)) }
{
    let mut numbers = Vec::new(alloc);
    let mut rest = Some(text);
    while let Some(left) = rest {
        let (part, behind) = split_part(left);
        let Some(number) = number_in(part) else {
            return Ok(None);
        };
        numbers.push(number)?;
        rest = behind;
    }
    Ok(Some(numbers))
}
