//! What a call comes to, in numbers, as `include/spvk.h` lists them.
ghost use Rattle.std.specs.Prelude.{◌≡◌};
ghost use Rattle.spvk.specs.Status.{status_of};

use spv_grammar::GrammarError;

/// The call did what it is for.
pub const OK: u32 = 0;

/// A growth of memory was refused.
pub const MEMORY: u32 = 1;

/// The handle is without a grammar.
pub const NO_GRAMMAR: u32 = 2;

/// What is to be assembled is no UTF-8.
pub const NOT_TEXT: u32 = 4;

/// The flags have a bit that is no flag.
pub const NO_FLAG: u32 = 5;

/// The status of a refused grammar file.
pub fn status(error: GrammarError) -> u32
    ensures { result ≡ status_of error }
{
    match error {
        GrammarError::J1 => 101,
        GrammarError::J2 => 102,
        GrammarError::J3 => 103,
        GrammarError::J4 => 104,
        GrammarError::J5 => 105,
        GrammarError::J6 => 106,
        GrammarError::J7 => 107,
        GrammarError::J8 => 1,
    }
}
