//! Where a text is divided.

ghost use Rattle.std.specs.Prelude.{◌≡◌, ◌≢◌, ◌<◌, ◌+◌, ◌∷◌, [], ℕ, List, Some, None};
ghost use Rattle.std.specs.Prelude.{MatchOption, length, take, drop, slice_index, option_map};
ghost use Rattle.spv_lines.specs.Line.{before_space, from_space};
ghost use Rattle.spv_lines.specs.Text.{lines_of};
ghost use Rattle.spv_lines.specs.inner.Answer.{cells, cells_left};

use memchr::memchr;

/// A text up to an octet of ASCII, and from it on.
pub fn split_before(text: &str, at: usize) -> (&str, &str)
    requires at { at < length text.now }
    requires ascii { slice_index text.now at < 128 }
    ensures front { (result.0).now ≡ take at text.now }
    ensures back { (result.1).now ≡ drop at text.now }
{
    (&text[..at], &text[at..])
}

/// A text up to an octet of ASCII, and what stands behind it.
pub fn split_around(text: &str, at: usize) -> (&str, &str)
    requires at { at < length text.now }
    requires ascii { slice_index text.now at < 128 }
    ensures front { (result.0).now ≡ take at text.now }
    ensures back { (result.1).now ≡ drop (at + 1) text.now }
{
    (&text[..at], &text[at + 1..])
}

/// What stands behind an octet of ASCII, if a text begins with it.
pub fn behind(text: &str, octet: u8) -> Option<&str>
    requires { octet < 128 }
    ensures { MatchOption result ((u : List ℕ) → text.now ≡ octet ∷ u → ⊥)
        (λ u. text.now ≡ octet ∷ u.now) }
{
    match text.as_bytes() {
        [first, ..] => {
            if *first == octet {
                Some(&text[1..])
            } else {
                None
            }
        }
        [] => None,
    }
}

/// What stands before the first space, and from it on.
pub fn split_token(text: &str) -> (&str, &str)
    ensures token { (result.0).now ≡ before_space text.now }
    ensures rest { (result.1).now ≡ from_space text.now }
{
    match memchr(b' ', text.as_bytes()) {
        Some(at) => split_before(text, at),
        None => (text, ""),
    }
}

/// What stands before the first `|`, and what behind it, if there is one.
pub fn split_cell(text: &str) -> (&str, Option<&str>)
    ensures { cells text.now ≡ (result.0).now ∷ cells_left (option_map (λ t. t.now) result.1) }
{
    match memchr(b'|', text.as_bytes()) {
        Some(at) => {
            let (front, back) = split_around(text, at);
            (front, Some(back))
        }
        None => (text, None),
    }
}

/// The first line of a text that is not empty, and what stands behind its line feed, or behind it where it has none.
pub fn split_line(text: &str) -> (&str, &str)
    requires { 0 < length text.now }
    ensures lines { lines_of text.now ≡ (result.0).now ∷ lines_of (result.1).now }
    ensures shorter { length (result.1).now < length text.now }
{
    match memchr(b'\n', text.as_bytes()) {
        Some(at) => split_around(text, at),
        None => (text, ""),
    }
}
