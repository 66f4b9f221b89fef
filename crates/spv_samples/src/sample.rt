//! A module as people read it, and as its words.

/// A module.
#[derive(Clone, Copy, Debug)]
pub struct Sample<'a> {
    /// Its words in hexadecimal, the header's among them.
    pub words: &'a str,
    /// Its text, as `show` writes it.
    pub text: &'a str,
}
