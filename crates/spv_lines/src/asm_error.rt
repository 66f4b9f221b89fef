ghost use Rattle.std.specs.Prelude.{◌≡◌};

use std::alloc::{AllocError, AllocFailed};
use thiserror::Error;

/// What is wrong with a text.
#[derive(Clone, Copy, Debug, PartialEq, Eq, Error)]
pub enum AsmCode {
    /// A line of the header is missing or ill-formed, or the bound is not one from 1 to 4,194,303.
    #[error("a line of the header is missing or ill-formed")]
    S1,
    /// Where the name of an instruction is due, no name stands that the grammar has, nor `#N` of an entry.
    #[error("no known instruction")]
    S2,
    /// An operand or a result is missing, one too many, ill-formed or unknown, or the width of a number is unknown.
    #[error("an operand is missing, too many, ill-formed or unknown")]
    S3,
    /// A well-formed number is too large for its place.
    #[error("a number is too large")]
    S4,
    /// An instruction has over 65,535 words, or the module over 4,194,304.
    #[error("the instruction or the module is too long")]
    S5,
    /// A growth of memory was refused.
    #[error("out of memory")]
    S6,
}

/// Why a text has no image, and at which line.
#[derive(Clone, Copy, Debug, PartialEq, Eq, Error)]
#[error("line {line}: {code}")]
pub struct AsmError {
    pub code: AsmCode,
    /// The number of the line, from 1; 0 with S6.
    pub line: u32,
}

impl From<AllocError> for AsmCode {
    ghost use Rattle.spv_lines.specs.declared.asm_error.AsmCode.TheVariants.{S6};

    ghost from_gives = { λ _ e. e ≡ S6 };

    fn from(_e: AllocError) -> AsmCode {
        AsmCode::S6
    }
}

impl<T: Drop> From<AllocFailed<T>> for AsmCode {
    ghost use Rattle.spv_lines.specs.declared.asm_error.AsmCode.TheVariants.{S6};

    ghost from_gives = { λ _ e. e ≡ S6 };

    fn from(_e: AllocFailed<T>) -> AsmCode {
        AsmCode::S6
    }
}

impl From<AllocError> for AsmError {
    ghost use Rattle.spv_lines.specs.declared.asm_error.AsmCode.TheVariants.{S6};

    ghost from_gives = { λ _ e. e ≡ record { code = S6; line = 0 } };

    fn from(_e: AllocError) -> AsmError {
        AsmError {
            code: AsmCode::S6,
            line: 0,
        }
    }
}
