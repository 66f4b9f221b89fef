//! A verdict as C sees it: numbers, as `include/spvk.h` lists them.
ghost use Rattle.std.specs.Prelude.{◌≡◌};
ghost use Rattle.spvk.specs.Numbers.{numbers_of};

use spv_check::Judgment;
use spv_rules::Code;

/// What stands for no instruction and for no word.
pub const NOWHERE: u32 = 0xffff_ffff;

/// A verdict in numbers: `spvk_verdict` of C.
#[repr(C)]
#[derive(Clone, Copy)]
pub struct Verdict {
    /// 0 for a valid module, else the number of the broken rule.
    pub code: u32,
    /// The number of the instruction, from 0, or `NOWHERE`.
    pub inst: u32,
    /// The number of the word in the module, from 0, or `NOWHERE`.
    pub word: u32,
}

/// What a check answers: `spvk_answer` of C.
#[repr(C)]
#[derive(Clone, Copy)]
pub struct Answer {
    /// 0 for a verdict, 1 for lack of memory, 2 for a handle without a grammar.
    pub status: u32,
    /// As in a verdict, or `NOWHERE` with another status than 0.
    pub code: u32,
    /// As in a verdict.
    pub inst: u32,
    /// As in a verdict.
    pub word: u32,
}

/// A verdict in numbers.
pub fn numbers(judgment: Judgment) -> Verdict
    ensures { result ≡ numbers_of judgment }
{
    match judgment {
        Judgment::Valid => Verdict {
            code: 0,
            inst: NOWHERE,
            word: NOWHERE,
        },
        Judgment::Refused(code) => Verdict {
            code: Code::Word(code).number(),
            inst: NOWHERE,
            word: NOWHERE,
        },
        Judgment::Broken(fault) => Verdict {
            code: Code::Rule(fault.rule).number(),
            inst: fault.inst,
            word: fault.word,
        },
    }
}
