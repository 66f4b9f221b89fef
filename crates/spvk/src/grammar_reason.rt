//! What grammar files are refused for, for C.
ghost use Rattle.std.specs.Prelude.{IfOk};
ghost use Rattle.spvk.specs.GrammarReason.{ExplainsGrammar, IsExplained};

use crate::buffer::Buffer;
use crate::status::{MEMORY, OK};
use spv_builtin::grammar_reason;
use spv_table::Memory;
use std::alloc::Global;
use std::mem;

/// What a grammar file's text is refused for, in lines. The error is that memory ran out.
fn explained(alloc: Global, text: &[u8]) -> Result<Buffer, Memory>
    ensures { IfOk result (λ b. IsExplained text.now b) }
{
    match Buffer::of(alloc, grammar_reason(alloc, text)?) {
        Ok(buffer) => Ok(buffer),
        Err(_) => Err(Memory),
    }
}

/// Puts the lines of what a grammar file's text is refused for; none where it breaks no code. The bytes that were there
/// are let go.
#[unsafe(no_mangle)]
pub extern "C" fn spvk_raw_grammar_explain(alloc: Global, text: &[u8], buffer: &mut Buffer) -> u32
    ensures { ExplainsGrammar text.now buffer.old buffer.new result }
{
    match explained(alloc, text) {
        Ok(made) => {
            mem::replace(buffer, made).let_go(alloc);
            OK
        }
        Err(_) => MEMORY,
    }
}
