//! A verdict with a text, as C sees them.
ghost use Rattle.std.specs.Prelude.{◌≡◌, None, Some, IfOk, string_bytes};
ghost use Rattle.spv_scope.specs.Scope.{told_text};
ghost use Rattle.spvk.specs.Numbers.{numbers_of};
ghost use Rattle.spv_check.specs.declared.verdict_line.Judgment.TheVariants.{Valid};

use crate::buffer::Buffer;
use crate::numbers::{Verdict, numbers};
use spv_check::Judgment;
use spv_extended::Reach;
use spv_scope::tell;
use spv_table::Memory;
use std::alloc::Global;

/// A verdict and a text: `spvk_text` of C.
#[repr(C)]
pub struct Text {
    /// The verdict.
    pub verdict: Verdict,
    /// The text, if there is one.
    pub buffer: Buffer,
}

impl Text {
    /// A verdict without a text.
    pub fn none(judgment: Judgment) -> Text
        ensures verdict { result.verdict ≡ numbers_of judgment }
        ensures buffer { result.buffer.bytes ≡ None }
    {
        Text {
            verdict: numbers(judgment),
            buffer: Buffer::none(),
        }
    }

    /// A verdict with the text of what was read, which tells the version that is looked at. The error is that memory
    /// ran out.
    pub fn of(alloc: Global, judgment: Judgment, reach: Reach, text: String) -> Result<Text, Memory>
        ensures verdict { IfOk result (λ t. t.verdict ≡ numbers_of judgment) }
        ensures buffer { IfOk result (λ t. t.buffer.bytes ≡ Some (told_text reach (string_bytes text))) }
    {
        let mut bytes = text.into_bytes();
        tell(reach, &mut bytes);
        match Buffer::of(alloc, bytes) {
            Ok(buffer) => Ok(Text {
                verdict: numbers(judgment),
                buffer,
            }),
            Err(_) => Err(Memory),
        }
    }

    /// Lets the text go.
    pub fn let_go(self, alloc: Global) {
        let Text { verdict: _, buffer } = self;
        buffer.let_go(alloc);
    }
}
