use crate::stream::Failed;
use std::alloc::AllocError;
use thiserror::Error;

/// The order of the four bytes of a word. A module's order is the one in which its first word is
/// the magic number. (2.3)
#[derive(Clone, Copy, PartialEq, Eq)]
pub enum Order {
    /// The lowest byte comes first.
    Little,
    /// The highest byte comes first.
    Big,
}

/// What the header of a module says after its magic number. (2.3)
#[derive(Clone, Copy, PartialEq, Eq)]
pub struct Header {
    /// Word 1, the version: 0x00010600 for version 1.6.
    pub version: u32,
    /// Word 2, the number of the tool that made the module: any number.
    pub generator: u32,
    /// Word 3: every id of the module is below it. At least 1 and at most 4,194,303. (The limit: own)
    pub bound: u32,
    /// Word 4, the instruction schema: 0.
    pub schema: u32,
}

/// Why no image was read or written. `W1`, `W8` and `W9` are answered as they happen, and `W2` to
/// `W7` at the end of input, the first in this order.
#[derive(Clone, Copy, Debug, PartialEq, Eq, Error)]
pub enum WordError {
    /// A call of the reader or of the writer failed.
    #[error("a read or a write failed")]
    W1,
    /// The input has fewer than 20 bytes, so no whole header. (2.3)
    #[error("the module has fewer than 20 bytes")]
    W2,
    /// The number of bytes is no multiple of 4, so they are no whole words. (2.3)
    #[error("the number of bytes is no multiple of 4")]
    W3,
    /// The first four bytes are the magic number 0x07230203 in neither order. (2.3)
    #[error("the magic number is missing")]
    W4,
    /// The version is another than 1.6. (2.3; that it is 1.6: own)
    #[error("the version is not 1.6")]
    W5,
    /// Word 4, the schema, is not 0. (2.3)
    #[error("the schema is not 0")]
    W6,
    /// The bound is 0 (2.3) or over 4,194,303 (own).
    #[error("the bound is not from 1 to 4194303")]
    W7,
    /// More than 16,777,216 bytes came. (own)
    #[error("the module has more than 16777216 bytes")]
    W8,
    /// Memory was refused.
    #[error("out of memory")]
    W9,
}

impl From<Failed> for WordError {
    ghost use Rattle.std.specs.Prelude.{◌≡◌};
    ghost use Rattle.spv_words.specs.declared.words.WordError.TheVariants.{W1};

    ghost from_gives = { λ _ e. e ≡ W1 };

    fn from(_failed: Failed) -> WordError {
        WordError::W1
    }
}

impl From<AllocError> for WordError {
    ghost use Rattle.std.specs.Prelude.{◌≡◌};
    ghost use Rattle.spv_words.specs.declared.words.WordError.TheVariants.{W9};

    ghost from_gives = { λ _ e. e ≡ W9 };

    fn from(_refused: AllocError) -> WordError {
        WordError::W9
    }
}
