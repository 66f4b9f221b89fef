//! The line that tells where a text fails.
ghost use Rattle.std.specs.Prelude.{◌≡◌, ◌≤◌, length};
ghost use Rattle.spv_commands.specs.Assemble.{asm_code_text, text_fault_line};
ghost use Rattle.spv_check.specs.Text.{text_of};

use spv_parser::{AsmCode, AsmError};
use spv_verdict::Line;

/// The text of a code S1 to S6.
fn asm_code_name(code: AsmCode) -> &'static [u8]
    ensures text { result.now ≡ asm_code_text code }
    ensures short { length result.now ≤ 2 }
{
    match code {
        AsmCode::S1 => b"S1",
        AsmCode::S2 => b"S2",
        AsmCode::S3 => b"S3",
        AsmCode::S4 => b"S4",
        AsmCode::S5 => b"S5",
        AsmCode::S6 => b"S6",
    }
}

/// `fault S3 line 7`, as an example, with its line feed.
pub fn text_fault(error: AsmError) -> Line
    ensures { text_of result ≡ text_fault_line error.code error.line }
{
    let mut line = Line::of(b"fault ");
    line.push(asm_code_name(error.code));
    line.push(b" line ");
    line.push_number(error.line);
    line.push(b"\n");
    line
}
