ghost use Rattle.std.specs.Prelude.{◌≡◌};
ghost use Rattle.spv_grammar.specs.declared.error.GrammarError.TheVariants.{J8};

use std::alloc::{AllocError, AllocFailed};
use thiserror::Error;

/// Why a grammar file gives no table. Where a file breaks several of J2 to J7, the least is told.
#[derive(Clone, Copy, Debug, Drop, Error, PartialEq, Eq)]
pub enum GrammarError {
    /// The text is no JSON, or nests over 127 levels deep.
    #[error("the grammar is not JSON of at most 127 levels")]
    J1,
    /// What should be an object is none, or a key is missing or has another sort of value.
    #[error("a key of the grammar is missing or has another sort of value")]
    J2,
    /// An opcode or a value is out of its range or form.
    #[error("an opcode or a value of the grammar is out of its range or form")]
    J3,
    /// A kind is named that the file does not have.
    #[error("the grammar names a kind that it does not have")]
    J4,
    /// A category or a quantifier is unknown.
    #[error("the grammar has an unknown category or quantifier")]
    J5,
    /// A result kind stands twice in an entry, is quantified, or stands in parameters or bases.
    #[error("a result kind of the grammar stands twice, is quantified, or stands in parameters or bases")]
    J6,
    /// The bases of a composite kind are empty, or one is neither of category Id nor Literal.
    #[error("a composite kind of the grammar has no bases, or one that is neither an id nor a literal")]
    J7,
    /// Memory ran out.
    #[error("out of memory")]
    J8,
}

impl From<AllocError> for GrammarError {
    ghost from_gives = { λ _ e. e ≡ J8 };

    fn from(_e: AllocError) -> GrammarError {
        GrammarError::J8
    }
}

impl<T: Drop> From<AllocFailed<T>> for GrammarError {
    ghost from_gives = { λ _ e. e ≡ J8 };

    fn from(_e: AllocFailed<T>) -> GrammarError {
        GrammarError::J8
    }
}
