//! How the name of a file stands in a line.
ghost use Rattle.std.specs.Prelude.{◌≡◌, ◌≢◌, ◌++◌, ◌∷◌, ◌≤◌, ◌<◌, [], IsTrue, drop, false, length, take, true};
ghost use Rattle.spv_lines.specs.Digits.{hex_digit};
ghost use Rattle.spv_lines.specs.Plain.{escaped, is_late_control};
ghost use Rattle.spv_commands.specs.Name.{label, shown_byte, shown_name};
ghost use Rattle.spv_commands.specs.inner.Late.{IsLate, IsOther};
ghost use Rattle.spv_commands.specs.inner.Progress.{Adds};

use crate::writing::write_on;
use spv_words::Sink;

/// The digit of a number below 16.
fn digit(number: u8) -> u8
    requires { number < 16 }
    ensures { result ≡ hex_digit number }
{
    if number < 10 {
        b'0' + number
    } else {
        b'a' - 10 + number
    }
}

/// Whether two bytes together are one of the control characters from U+0080 to U+009F.
fn is_late_pair(first: u8, second: u8) -> bool
    ensures { result ≡ is_late_control first second }
{
    first == 194 && (128 <= second && second < 160)
}

/// Whether a byte of a name stands in a line as it is, whatever is behind it.
fn is_plain(byte: u8) -> bool
    ensures { IsTrue result → (shown_byte byte ≡ byte ∷ []) × (byte ≢ 194) }
{
    byte >= 32 && byte != 127 && byte != b'\\' && byte != 194
}

/// How many bytes at the front of a name stand in a line as they are, whatever is behind them.
fn plain_count(bytes: &[u8]) -> usize
    ensures bound { result ≤ length bytes.now }
    ensures plain { shown_name bytes.now ≡ take result bytes.now ++ shown_name (drop result bytes.now) }
{
    let mut count = 0;
    while count < bytes.len() && is_plain(bytes[count]) {
        count += 1;
    }
    count
}

/// Writes one byte of a name on.
fn write_byte<W: Sink>(byte: u8, sound: bool, w: &mut W) -> bool
    ensures { Adds W.contents W.failures w.old w.new sound (shown_byte byte) result }
{
    if byte < 32 || byte == 127 {
        return write_on(&[b'\\', b'x', digit(byte / 16), digit(byte % 16)], sound, w);
    }
    if byte == b'\\' {
        return write_on(b"\\\\", sound, w);
    }
    write_on(&[byte], sound, w)
}

/// Writes two bytes of a name on, each as `\xNN`.
fn write_escapes<W: Sink>(first: u8, second: u8, sound: bool, w: &mut W) -> bool
    ensures { Adds W.contents W.failures w.old w.new sound (escaped first ++ escaped second) result }
{
    let shown = [
        b'\\',
        b'x',
        digit(first / 16),
        digit(first % 16),
        b'\\',
        b'x',
        digit(second / 16),
        digit(second % 16),
    ];
    write_on(&shown, sound, w)
}

/// Whether a control character from U+0080 to U+009F stands at a place of a name.
fn is_late(name: &[u8], at: usize) -> bool
    requires { at < length name.now }
    ensures late { result ≡ true → IsLate name.now at }
    ensures other { result ≡ false → IsOther name.now at }
{
    if name.len() - at < 2 {
        return false;
    }
    is_late_pair(name[at], name[at + 1])
}

/// Writes on what a line on a file begins with: its name, with each byte of a control character as `\xNN` and each
/// backslash as two, and then `: `. It takes no memory. Bytes that stand as they are are written in one piece.
pub fn write_label<W: Sink>(name: &str, sound: bool, w: &mut W) -> bool
    ensures { Adds W.contents W.failures w.old w.new sound (label name.now) result }
{
    let bytes = name.as_bytes();
    let mut heard = sound;
    let mut at = 0;
    while at < bytes.len() {
        let rest = &bytes[at..];
        let count = plain_count(rest);
        if count > 0 {
            heard = write_on(&rest[..count], heard, w);
            at += count;
        } else if is_late(bytes, at) {
            heard = write_escapes(bytes[at], bytes[at + 1], heard, w);
            at += 2;
        } else {
            heard = write_byte(bytes[at], heard, w);
            at += 1;
        }
    }
    write_on(b": ", heard, w)
}
