//! Numbers as a text has them.

ghost use Rattle.std.specs.Prelude.{◌≡◌, ◌<◌, ◌≤◌, ◌+◌, ◌*◌, ◌^◌, ◌++◌, ◌∷◌, ℕ};
ghost use Rattle.std.specs.Prelude.{List, Bool, true, false, not, Some, None, SomeIff, MatchOption, option_map};
ghost use Rattle.spv_table.specs.Table.{Table};
ghost use Rattle.spv_module.specs.Shape.{AsId, AsNumber, AsResult, AsType, AsWord};
ghost use Rattle.spv_lines.specs.Digits.{hex_digits, is_lean};
ghost use Rattle.spv_lines.specs.inner.Answer.{IsBehind, IsBelow, IsDigit, IsEight, IsToken};

use crate::misread::Misread;
use spv_module::Operand;

/// A number below this one has room for one more digit.
const SHORT: u64 = 1_000_000_000_000_000_000;

/// Ten times the number and one more digit, unless that takes over 64 bits.
fn one_more(number: u64, digit: u8) -> Option<u64>
    ensures { SomeIff result (number * 10 + digit < 2 ^ 64) (number * 10 + digit) }
{
    if number < SHORT {
        return Some(number * 10 + u64::from(digit));
    }
    match number.checked_mul(10) {
        Some(tens) => tens.checked_add(u64::from(digit)),
        None => None,
    }
}

/// Whether digits have a zero in front that is not needed, or there are none.
fn is_not_lean(text: &[u8]) -> bool
    ensures { result ≡ not (is_lean text.now) }
{
    match text {
        [] => true,
        [first, _, ..] => *first == b'0',
        [_] => false,
    }
}

/// A decimal number of 64 bits: digits alone, without a needless zero in front.
///
/// # Errors
///
/// `IllFormed`: the text is no such digits. `TooLarge`: it is, but the number takes over 64 bits.
pub fn read_long(text: &[u8]) -> Result<u64, Misread>
    ensures { IsBelow (2 ^ 64) text.now result }
{
    if is_not_lean(text) {
        return Err(Misread::IllFormed);
    }
    let mut number = Some(0);
    for octet in text {
        if *octet < b'0' || *octet > b'9' {
            return Err(Misread::IllFormed);
        }
        number = match number {
            Some(so_far) => one_more(so_far, *octet - b'0'),
            None => None,
        };
    }
    match number {
        Some(number) => Ok(number),
        None => Err(Misread::TooLarge),
    }
}

/// A decimal number of 32 bits, as `read_long`.
///
/// # Errors
///
/// `IllFormed`: the text is no digits, or has a needless zero in front. `TooLarge`: the number takes over 32 bits.
pub fn read_short(text: &[u8]) -> Result<u32, Misread>
    ensures { IsBelow (2 ^ 32) text.now result }
{
    match read_long(text) {
        Ok(number) => {
            if number < 4_294_967_296 {
                Ok(number as u32)
            } else {
                Err(Misread::TooLarge)
            }
        }
        Err(why) => Err(why),
    }
}

/// A decimal number of 32 bits behind a mark, as in `%7` or `#7`.
///
/// # Errors
///
/// `IllFormed`: the text is no mark with a well-formed number behind it. `TooLarge`: the number takes over 32 bits.
pub fn read_behind(mark: u8, text: &[u8]) -> Result<u32, Misread>
    ensures { IsBehind mark text.now result }
{
    match text {
        [first, rest @ ..] => {
            if *first == mark {
                read_short(rest)
            } else {
                Err(Misread::IllFormed)
            }
        }
        [] => Err(Misread::IllFormed),
    }
}

/// The number that a hexadecimal digit in lower case stands for.
fn digit_of(octet: u8) -> Option<u8>
    ensures { IsDigit octet result }
{
    match octet {
        b'0'..=b'9' => Some(octet - b'0'),
        b'a'..=b'f' => Some(octet - b'a' + 10),
        _ => None,
    }
}

/// The word that eight hexadecimal digits in lower case are, the highest first. None where the text is no such digits.
pub fn read_eight(text: &[u8]) -> Option<u32>
    ensures { IsEight text.now result }
{
    if text.len() != 8 {
        return None;
    }
    let mut word = 0u64;
    for octet in text {
        let Some(digit) = digit_of(*octet) else {
            return None;
        };
        word = 16 * word + u64::from(digit);
    }
    Some(word as u32)
}

/// What stands behind `0x`, if a text begins so.
fn behind_zero_x(text: &[u8]) -> Option<&[u8]>
    ensures { MatchOption result ((ds : List ℕ) → text.now ≡ 48 ∷ 120 ∷ ds → ⊥)
        (λ ds. text.now ≡ 48 ∷ 120 ∷ ds.now) }
{
    match text {
        [b'0', b'x', rest @ ..] => Some(rest),
        _ => None,
    }
}

/// Takes the id of a result's type.
pub fn read_type_id(token: &[u8]) -> Result<Operand<'static>, Misread>
    ensures { (G : Table) (hex : Bool) (k : ℕ) → IsToken G hex k AsType token.now result }
{
    match read_behind(b'%', token) {
        Ok(id) => Ok(Operand::OfType(id)),
        Err(why) => Err(why),
    }
}

/// Takes the id of a result.
pub fn read_result_id(token: &[u8]) -> Result<Operand<'static>, Misread>
    ensures { (G : Table) (hex : Bool) (k : ℕ) → IsToken G hex k AsResult token.now result }
{
    match read_behind(b'%', token) {
        Ok(id) => Ok(Operand::Result(id)),
        Err(why) => Err(why),
    }
}

/// Takes any other id.
pub fn read_id(token: &[u8]) -> Result<Operand<'static>, Misread>
    ensures { (G : Table) (hex : Bool) (k : ℕ) → IsToken G hex k AsId token.now result }
{
    match read_behind(b'%', token) {
        Ok(id) => Ok(Operand::Id(id)),
        Err(why) => Err(why),
    }
}

/// Takes a literal of one word.
pub fn read_word(token: &[u8]) -> Result<Operand<'static>, Misread>
    ensures { (G : Table) (hex : Bool) (k : ℕ) → IsToken G hex k AsWord token.now result }
{
    match read_short(token) {
        Ok(word) => Ok(Operand::Word(word)),
        Err(why) => Err(why),
    }
}

/// Takes a number of up to 32 bits, in decimal.
fn read_narrow(token: &[u8]) -> Result<Operand<'static>, Misread>
    ensures { (G : Table) (k w : ℕ) → w ≤ 32 → IsToken G false k (AsNumber (Some w)) token.now result }
{
    match read_short(token) {
        Ok(low) => Ok(Operand::Number {
            low,
            high: 0,
            words: 1,
        }),
        Err(why) => Err(why),
    }
}

/// Takes a number of over 32 bits, in decimal.
fn read_wide(token: &[u8]) -> Result<Operand<'static>, Misread>
    ensures { (G : Table) (k w : ℕ) → 32 < w → IsToken G false k (AsNumber (Some w)) token.now result }
{
    match read_long(token) {
        Ok(number) => Ok(Operand::Number {
            low: (number % 4_294_967_296) as u32,
            high: (number / 4_294_967_296) as u32,
            words: 2,
        }),
        Err(why) => Err(why),
    }
}

/// Takes a number of up to 32 bits, in hexadecimal.
fn read_narrow_hexadecimal(token: &[u8]) -> Result<Operand<'static>, Misread>
    ensures { (G : Table) (k w : ℕ) → w ≤ 32 → IsToken G true k (AsNumber (Some w)) token.now result }
{
    let Some(digits) = behind_zero_x(token) else {
        return Err(Misread::IllFormed);
    };
    match read_eight(digits) {
        Some(low) => Ok(Operand::Number {
            low,
            high: 0,
            words: 1,
        }),
        None => Err(Misread::IllFormed),
    }
}

/// The two words that sixteen hexadecimal digits in lower case are, the second one first. None where the octets are no
/// such digits.
fn read_sixteen(digits: &[u8]) -> Option<(u32, u32)>
    ensures { MatchOption result ((x y : ℕ) → x < 2 ^ 32 → y < 2 ^ 32
        → digits.now ≡ hex_digits 8 y ++ hex_digits 8 x → ⊥)
        (λ p. (p.0 < 2 ^ 32) × (p.1 < 2 ^ 32) × (digits.now ≡ hex_digits 8 p.1 ++ hex_digits 8 p.0)) }
{
    if digits.len() != 16 {
        return None;
    }
    let (front, back) = digits.split_at(8);
    let Some(high) = read_eight(front) else {
        return None;
    };
    let Some(low) = read_eight(back) else {
        return None;
    };
    Some((low, high))
}

/// Takes a number of over 32 bits, in hexadecimal, the high word first.
fn read_wide_hexadecimal(token: &[u8]) -> Result<Operand<'static>, Misread>
    ensures { (G : Table) (k w : ℕ) → 32 < w → IsToken G true k (AsNumber (Some w)) token.now result }
{
    let Some(digits) = behind_zero_x(token) else {
        return Err(Misread::IllFormed);
    };
    match read_sixteen(digits) {
        Some((low, high)) => Ok(Operand::Number {
            low,
            high,
            words: 2,
        }),
        None => Err(Misread::IllFormed),
    }
}

/// Takes a number of a known width, in bits, in hexadecimal or in decimal.
fn read_sized(width: u32, hexadecimal: bool, token: &[u8]) -> Result<Operand<'static>, Misread>
    ensures { (G : Table) (k : ℕ) → IsToken G hexadecimal k (AsNumber (Some width)) token.now result }
{
    if hexadecimal {
        if width <= 32 {
            return read_narrow_hexadecimal(token);
        }
        return read_wide_hexadecimal(token);
    }
    if width <= 32 {
        return read_narrow(token);
    }
    read_wide(token)
}

/// Takes a number of a width, in bits: of a float type as `0x` with eight hexadecimal digits a word, else in decimal.
///
/// # Errors
///
/// `IllFormed`: the width is not known, or the token is no such number. `TooLarge`: it is a decimal number that takes
/// more words than the width has.
pub fn read_number(
    width: Option<u32>,
    hexadecimal: bool,
    token: &[u8],
) -> Result<Operand<'static>, Misread>
    ensures { (G : Table) (k : ℕ) → IsToken G hexadecimal k (AsNumber width) token.now result }
{
    match width {
        Some(width) => read_sized(width, hexadecimal, token),
        None => Err(Misread::IllFormed),
    }
}
