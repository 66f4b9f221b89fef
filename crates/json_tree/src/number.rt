//! Numbers, as `serde_json` holds them.

ghost use Rattle.std.specs.Prelude.{◌≡◌, ◌<◌, ◌==◌, length, slice_index, option_map, IsTrue, IfSome, true, false};
ghost use Rattle.std.specs.Str.Parse.{IsNumeral, digits_value};
ghost use Rattle.serde_json.specs.Read.{number_of, number_from, float_of};
ghost use Rattle.serde_json.specs.View.{number_view};

use fast_float::Numeral;
use serde_json::Number;

/// The number that a token of JSON writes, where it is in range.
pub(crate) fn parse(text: &str) -> Option<Number>
    ensures { option_map number_view result ≡ number_of text.now }
{
    let bytes = text.as_bytes();
    if let Some(small) = few_digits(bytes) {
        return Some(Number::from(u64::from(small)));
    }
    if has_minus(bytes) {
        negative(&Numeral::scan(&bytes[1..]))
    } else {
        unsigned(&Numeral::scan(bytes))
    }
}

/// The number that one to nine digits write; none where there are more, or other bytes.
#[inline(always)]
fn few_digits(bytes: &[u8]) -> Option<u32>
    ensures { IfSome result (λ n. IsNumeral 10 bytes.now × (n ≡ digits_value 10 bytes.now)) }
{
    if bytes.is_empty() || bytes.len() > 9 {
        return None;
    }
    let mut number: u32 = 0;
    for byte in bytes {
        if !byte.is_ascii_digit() {
            return None;
        }
        number = 10 * number + u32::from(*byte - b'0');
    }
    Some(number)
}

/// Whether a number's text begins with a minus.
fn has_minus(bytes: &[u8]) -> bool
    ensures value { result ≡ (slice_index bytes.now 0 == 45) }
    ensures len { IsTrue result → 0 < length bytes.now }
{
    !bytes.is_empty() && bytes[0] == b'-'
}

/// The number of a numeral that has no minus.
fn unsigned(numeral: &Numeral<'_>) -> Option<Number>
    ensures { option_map number_view result ≡ number_from false numeral.now }
{
    match numeral.to_u64() {
        Some(n) => Some(Number::from(n)),
        None => nearest(false, numeral),
    }
}

/// The number of a numeral after a minus.
fn negative(numeral: &Numeral<'_>) -> Option<Number>
    ensures { option_map number_view result ≡ number_from true numeral.now }
{
    if let Some(n) = numeral.to_i64(true) {
        if n < 0 {
            return Some(Number::from(n));
        }
    }
    nearest(true, numeral)
}

/// The float nearest to a numeral, where that is finite.
fn nearest(negative: bool, numeral: &Numeral<'_>) -> Option<Number>
    ensures { option_map number_view result ≡ float_of negative numeral.now }
{
    Number::from_f64(numeral.to_float::<f64>(negative))
}
