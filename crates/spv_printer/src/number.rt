//! Numbers as a text shows them.

ghost use Rattle.std.specs.Prelude.{◌≡◌, ◌++◌, ◌∷◌, ◌<◌, OnOk, string_bytes, decimal};
ghost use Rattle.spv_lines.specs.Digits.{hex_digit, hex_digits};
ghost use Rattle.spv_lines.specs.Operand.{number_text};

use itoa::Buffer;
use std::alloc::AllocError;

/// Adds a number in decimal. Where memory runs out, nothing is said of what is left.
pub fn push_decimal(out: &mut String, number: u64) -> Result<(), AllocError>
    ensures { OnOk result (string_bytes out.new ≡ string_bytes out.old ++ decimal number) }
{
    let mut buffer = Buffer::new();
    out.push_str(buffer.format(number))
}

/// Adds a mark and a number in decimal, as `%7` or `#7`. Where memory runs out, nothing is said of what is left.
pub fn push_marked(out: &mut String, mark: char, number: u32) -> Result<(), AllocError>
    requires { mark < 128 }
    ensures { OnOk result (string_bytes out.new ≡ string_bytes out.old ++ (mark ∷ decimal number)) }
{
    out.push(mark)?;
    push_decimal(out, u64::from(number))
}

/// The hexadecimal digit of a number below 16, in lower case.
fn hexadecimal_digit(number: u32) -> char
    requires { number < 16 }
    ensures ascii { result < 128 }
    ensures digit { result ≡ hex_digit number }
{
    let number = number as u8;
    if number < 10 {
        char::from(b'0' + number)
    } else {
        char::from(b'a' + (number - 10))
    }
}

/// Adds the eight hexadecimal digits of a word, in lower case. Where memory runs out, nothing is said of what is left.
fn push_hexadecimal(out: &mut String, word: u32) -> Result<(), AllocError>
    ensures { OnOk result (string_bytes out.new ≡ string_bytes out.old ++ hex_digits 8 word) }
{
    for place in 0..8u32 {
        let digit = (word >> (28 - 4 * place)) % 16;
        out.push(hexadecimal_digit(digit))?;
    }
    Ok(())
}

/// Adds a number of one or two words, in decimal or as `0x` with eight hexadecimal digits for each word, the high word
/// first. Where memory runs out, nothing is said of what is left.
pub fn push_number(
    out: &mut String,
    hexadecimal: bool,
    low: u32,
    high: u32,
    words: u8,
) -> Result<(), AllocError>
    ensures { OnOk result (string_bytes out.new ≡ string_bytes out.old ++ number_text hexadecimal low high words) }
{
    if !hexadecimal {
        return push_decimal(out, u64::from(low) + 4_294_967_296 * u64::from(high));
    }
    out.push_str("0x")?;
    if words == 2 {
        push_hexadecimal(out, high)?;
    }
    push_hexadecimal(out, low)
}
