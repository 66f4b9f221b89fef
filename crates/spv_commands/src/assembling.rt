//! What `asm` makes of a text.
ghost use Rattle.std.specs.Prelude.{◌≡◌, ◌⊎◌, ◌↔◌, IfOk, IfErr, IfSome, IsErrOf};
ghost use Rattle.std.specs.Prelude.{IsUtf8, true};
ghost use Rattle.spv_check.specs.Outcome.{HasFailed};
ghost use Rattle.spv_lines.specs.Fault.{IsFailure};
ghost use Rattle.spv_commands.specs.Assemble.{TellsFault};
ghost use Rattle.spv_commands.specs.inner.Assembly.{ComesTo};
ghost use Rattle.spv_commands.specs.declared.trouble.Trouble.TheVariants as trouble;

use crate::text_fault::text_fault;
use crate::trouble::Trouble;
use simdutf8::basic::from_utf8;
use spv_command_line::ErrorCode;
use spv_parser::{AsmCode, AsmError, assemble};
use spv_table::Table;
use spv_views::text_fault::reason_lines;
use spv_words::{Image, Source};
use std::alloc::{AllocError, Global};

/// How many bytes are read at a time.
const BLOCK_SIZE: usize = 65_536;

/// What a text comes to.
#[derive(Drop)]
pub enum Assembly {
    /// The image of its words.
    Made(Image),
    /// Its first fault, of S1 to S5, of which the line is told.
    Fault(AsmError),
    /// What is told of its first fault: the line, and lines that say why.
    Told(Vec<u8>),
}

/// All the bytes of a reader, up to the end of input.
///
/// # Errors
///
/// `File` where a read failed, `Memory` where a growth of memory was refused. There is no other.
#[tactic(auto, using(crate::proofs::Assemblings::all_read))]
pub fn read_all<R: Source>(alloc: Global, r: &mut R) -> Result<Vec<u8>, Trouble>
    ensures known { IfSome (R.remaining r.old) (λ xs. IfOk result (λ v. v.items ≡ xs)) }
    ensures count { HasFailed R.failures r.old r.new ↔ IsErrOf result trouble.File }
    ensures only { IfErr result (λ t. (t ≡ trouble.File) ⊎ (t ≡ trouble.Memory)) }
{
    let mut bytes = Vec::with_capacity(alloc, BLOCK_SIZE)?;
    let mut block = [0u8; BLOCK_SIZE];
    // Memory is refused long before.
    while bytes.len() < usize::MAX {
        let n = r.read(&mut block)?;
        if n == 0 {
            return Ok(bytes);
        }
        bytes.extend_from_slice(&block[..n])?;
    }
    Err(Trouble::Memory)
}

/// What the code of a text's fault says.
fn sentence(code: AsmCode) -> &'static str {
    match code {
        AsmCode::S1 => ErrorCode::S1.sentence(),
        AsmCode::S2 => ErrorCode::S2.sentence(),
        AsmCode::S3 => ErrorCode::S3.sentence(),
        AsmCode::S4 => ErrorCode::S4.sentence(),
        AsmCode::S5 => ErrorCode::S5.sentence(),
        AsmCode::S6 => ErrorCode::S6.sentence(),
    }
}

/// What is told of the fault of a text, where it is to be said why.
fn told_fault(
    alloc: Global,
    table: &Table,
    text: &str,
    error: AsmError,
) -> Result<Vec<u8>, AllocError>
    ensures { IsFailure table.now text.now error.code error.line
        → IfOk result (λ v. TellsFault table.now text.now error.code error.line true v.items) }
{
    let lines = reason_lines(alloc, table, sentence(error.code), text, error)?;
    let line = text_fault(error);
    let mut told = Vec::from_slice(alloc, line.as_slice())?;
    told.extend_from_slice(lines.as_bytes())?;
    Ok(told)
}

/// What a text comes to that fails.
fn faulty(
    alloc: Global,
    table: &Table,
    explain: bool,
    text: &str,
    error: AsmError,
) -> Result<Assembly, Trouble>
    ensures comes { IsFailure table.now text.now error.code error.line
        → IfOk result (λ a. ComesTo table.now explain text.now a) }
    ensures only { IfErr result (λ e. e ≡ trouble.Memory) }
{
    if !explain {
        return Ok(Assembly::Fault(error));
    }
    let told = told_fault(alloc, table, text, error)?;
    Ok(Assembly::Told(told))
}

/// What bytes come to as a text. S6 is out of memory, and any other fault is told.
pub fn assembly_of(
    alloc: Global,
    table: &Table,
    explain: bool,
    bytes: &[u8],
) -> Result<Assembly, Trouble>
    ensures comes { IfOk result (λ a. ComesTo table.now explain bytes.now a) }
    ensures only { IfErr result (λ t. ((t ≡ trouble.NotText) × (¬ IsUtf8 bytes.now)) ⊎ (t ≡ trouble.Memory)) }
{
    let text = match from_utf8(bytes) {
        Ok(text) => text,
        Err(_) => return Err(Trouble::NotText),
    };
    match assemble(alloc, table, text) {
        Ok(image) => Ok(Assembly::Made(image)),
        Err(error) => match error.code {
            AsmCode::S6 => Err(Trouble::Memory),
            _ => faulty(alloc, table, explain, text, error),
        },
    }
}
