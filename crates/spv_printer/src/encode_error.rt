ghost use Rattle.std.specs.Prelude.{◌≡◌};

use std::alloc::{AllocError, AllocFailed};
use thiserror::Error;

/// Why a module has no image.
#[derive(Clone, Copy, Debug, PartialEq, Eq, Error)]
pub enum EncodeCode {
    /// The header is not one of version 1.6 with schema 0 and a bound from 1 to 4,194,303. (2.3)
    #[error("the header does not fit")]
    N1,
    /// The opcode has no entry in the grammar, or no words spell the operands by its pattern. (2.3)
    #[error("no words spell the instruction")]
    N2,
    /// The instruction has over 65,535 words, or the module over 4,194,304. (2.3)
    #[error("the instruction or the module is too long")]
    N3,
    /// A growth of memory was refused.
    #[error("out of memory")]
    Memory,
}

/// Why a module has no image, and at which instruction.
#[derive(Clone, Copy, Debug, PartialEq, Eq, Error)]
#[error("instruction {inst}: {code}")]
pub struct EncodeError {
    pub code: EncodeCode,
    /// The number of the instruction, from 0; 0 with N1 and Memory.
    pub inst: u32,
}

impl From<AllocError> for EncodeCode {
    ghost use Rattle.spv_printer.specs.declared.encode_error.EncodeCode.TheVariants.{Memory};

    ghost from_gives = { λ _ e. e ≡ Memory };

    fn from(_e: AllocError) -> EncodeCode {
        EncodeCode::Memory
    }
}

impl<T: Drop> From<AllocFailed<T>> for EncodeCode {
    ghost use Rattle.spv_printer.specs.declared.encode_error.EncodeCode.TheVariants.{Memory};

    ghost from_gives = { λ _ e. e ≡ Memory };

    fn from(_e: AllocFailed<T>) -> EncodeCode {
        EncodeCode::Memory
    }
}

impl From<AllocError> for EncodeError {
    ghost use Rattle.spv_printer.specs.declared.encode_error.EncodeCode.TheVariants.{Memory};

    ghost from_gives = { λ _ e. e ≡ record { code = Memory; inst = 0 } };

    fn from(_e: AllocError) -> EncodeError {
        EncodeError {
            code: EncodeCode::Memory,
            inst: 0,
        }
    }
}
