//! What a node of a tree is.

use serde_json::Number;

/// What a node is. The nodes that lie in an array or an object come right after it, in the order of
/// the text; a member is its key, a text, and its value.
#[derive(Clone, Copy)]
pub(crate) enum Content<'a> {
    Null,
    Bool(bool),
    Number(Number),
    String(&'a str),
    /// How many nodes lie in it.
    Array(usize),
    /// How many nodes lie in it, those of the keys too.
    Object(usize),
}
