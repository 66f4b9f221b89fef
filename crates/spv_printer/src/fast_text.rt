//! Short texts, put in quotes straight from their words.

ghost use Rattle.std.specs.Prelude.{◌≡◌, ◌≢◌, ◌≤◌, ◌<◌, ◌+◌, ◌-◌, ◌%◌, ◌↔◌};
ghost use Rattle.std.specs.Prelude.{true, length, IfSome, IsTrue};
ghost use Rattle.spv_words.specs.Words.{words_of};
ghost use Rattle.spv_words.specs.declared.words.Order.TheVariants.{Little};
ghost use Rattle.spv_module.specs.Spelling.{AreZeros};
ghost use Rattle.spv_lines.specs.Operand.{escaped, quoted};
ghost use Rattle.spv_printer.specs.inner.Fast.{IsCopied, IsPlain, IsQuoted, IsTextAdded};

/// How many octets such a text has at most.
const LONGEST: usize = 64;

/// A text that was added.
#[derive(Clone, Copy)]
pub struct Quoted {
    /// Where it ends.
    pub at: usize,
    /// How many words it takes, with that of its zero octet.
    pub words: u32,
}

/// Whether each octet is zero.
fn are_zeros(octets: &[u8]) -> bool
    ensures { IsTrue result ↔ AreZeros octets.now }
{
    octets.iter().all(|octet| *octet == 0)
}

/// Whether an octet is a character of ASCII that stands in quotes as it is, and no control character.
#[inline(always)]
fn is_plain(octet: u8) -> bool
    ensures { result ≡ true → IsPlain octet }
{
    if octet > b'\\' {
        return octet < 128;
    }
    if octet > b'"' {
        return octet < b'\\';
    }
    octet == b' ' || octet == b'!'
}

/// How many of so many octets are looked at.
#[inline(always)]
fn looked_at(count: usize) -> usize
    ensures within { result ≤ count }
    ensures few { result ≤ 65 }
{
    if count <= LONGEST { count } else { LONGEST + 1 }
}

/// Copies octets up to the first that is zero behind a place, and gives how many they are. None where they are more
/// than 64, or one of them is not plain (`is_plain`).
#[inline(always)]
fn copy_plain(buffer: &mut [u8], octets: &[u8], at: usize) -> Option<usize>
    requires { at + 65 ≤ length buffer.old }
    ensures { IfSome result (λ n. IsCopied octets.now at n buffer.old buffer.new) }
{
    let end = looked_at(octets.len());
    let mut count = 0;
    while count < end {
        let octet = octets[count];
        if !is_plain(octet) {
            if octet == 0 {
                return Some(count);
            }
            return None;
        }
        buffer[at + count] = octet;
        count += 1;
    }
    None
}

/// Adds a space and, in quotes, the text at the front of octets, four of which are a word, behind a place. None where
/// it has more than 64 octets, where one of them does not stand in quotes as it is, is a control character or none of
/// ASCII, and where the octets are no text; then nothing is said of the buffer from that place on.
#[inline(always)]
pub fn add_quoted(buffer: &mut [u8], octets: &[u8], at: usize) -> Option<Quoted>
    requires room { at + 96 ≤ length buffer.old }
    requires whole { length octets.now % 4 ≡ 0 }
    requires most { length octets.now ≤ 16777216 }
    ensures { IfSome result (λ q. IsQuoted (words_of Little octets.now) at q.at q.words buffer.old buffer.new) }
{
    buffer[at] = b' ';
    buffer[at + 1] = b'"';
    let count = copy_plain(buffer, octets, at + 2)?;
    let last = count / 4;
    if !are_zeros(&octets[count + 1..last * 4 + 4]) {
        return None;
    }
    buffer[at + 2 + count] = b'"';
    Some(Quoted {
        at: at + 3 + count,
        words: last as u32 + 1,
    })
}

/// Whether each octet is plain (`is_plain`).
fn are_plain(octets: &[u8]) -> bool
    ensures { result ≡ true → escaped octets.now ≡ octets.now }
{
    for octet in octets {
        if !is_plain(*octet) {
            return false;
        }
    }
    true
}

/// Adds a space and, in quotes, a text behind a place, and gives where it ends. None where it has more than 64 octets,
/// and where one of them does not stand in quotes as it is, is a control character or none of ASCII; then nothing is
/// added.
#[inline(always)]
pub fn add_short(buffer: &mut [u8], text: &str, at: usize) -> Option<usize>
    requires { at + 96 ≤ length buffer.old }
    ensures { IfSome result (λ end. IsTextAdded (quoted text.now) at end buffer.old buffer.new) }
{
    let octets = text.as_bytes();
    let count = octets.len();
    if count > LONGEST || !are_plain(octets) {
        return None;
    }
    buffer[at] = b' ';
    buffer[at + 1] = b'"';
    buffer[at + 2..at + 2 + count].copy_from_slice(octets);
    buffer[at + 2 + count] = b'"';
    Some(at + 3 + count)
}
