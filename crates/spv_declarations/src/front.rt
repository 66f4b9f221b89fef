//! What stands before the functions.

use crate::kinds::Kinds;
use crate::spans::Spans;

/// The instructions before the functions, which are those of sections 1 to 9.
#[derive(Clone, Copy)]
pub struct Front {
    /// How many they are.
    pub count: u32,
    /// Which kinds of instructions there are among them.
    pub kinds: Kinds,
    /// Where those stand that rules look at.
    pub spans: Spans,
}
