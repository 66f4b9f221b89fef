//! What the file of a command gives.
ghost use Rattle.std.specs.Prelude.{◌≡◌, ◌⊎◌, ◌↔◌, IfErr, IfOk, IfSome, IsErrOf};
ghost use Rattle.spv_check.specs.Outcome.{HasFailed};
ghost use Rattle.spv_commands.specs.Task.{ReadsNoFile};
ghost use Rattle.spv_commands.specs.inner.Asked as asked;
ghost use Rattle.spv_commands.specs.declared.asked.Reads.TheVariants.{Module};
ghost use Rattle.spv_commands.specs.declared.trouble.Trouble.TheVariants.{File, Memory};
ghost use Rattle.spv_streams.specs.inner.Content.{IsContent, stopped_by};

use spv_command_line::Command;
use spv_commands::asked::{Reads, reads_of};
use spv_commands::{Trouble, read_all};
use spv_words::{Source, WordError, read_octets};
use std::alloc::Global;

/// What a module is that was not read to its end: one that is too long is none, and W1 and W9 are errors.
fn stopped(code: WordError) -> Result<Option<Vec<u8>>, Trouble>
    ensures { result ≡ stopped_by code }
{
    match code {
        WordError::W8 => Ok(None),
        WordError::W1 => Err(Trouble::File),
        _ => Err(Trouble::Memory),
    }
}

/// All the bytes of a module, or None where they are more than a module has. At most 16,777,217 are read.
pub fn module_on<S: Source>(alloc: Global, file: &mut S) -> Result<Option<Vec<u8>>, Trouble>
    ensures known { IfSome (S.remaining file.old) (λ bytes. IfOk result (IsContent Module bytes)) }
    ensures count { HasFailed S.failures file.old file.new ↔ IsErrOf result File }
    ensures only { IfErr result (λ t. (t ≡ File) ⊎ (t ≡ Memory)) }
{
    match read_octets(alloc, file) {
        Ok(bytes) => Ok(Some(bytes)),
        Err(code) => stopped(code),
    }
}

/// What a command reads of its file: no bytes where it reads none, and None of a module that is too long.
pub fn content_on<S: Source>(
    alloc: Global,
    command: &Command,
    file: &mut S,
) -> Result<Option<Vec<u8>>, Trouble>
    ensures known { IfSome (S.remaining file.old)
        (λ bytes. IfOk result (IsContent (asked.reads_of command.now) bytes)) }
    ensures count { HasFailed S.failures file.old file.new ↔ IsErrOf result File }
    ensures only { IfErr result (λ t. (t ≡ File) ⊎ (t ≡ Memory)) }
    ensures unread { ReadsNoFile command.now → file.new ≡ file.old }
{
    match reads_of(command) {
        Reads::Nothing => Ok(Some(Vec::new(alloc))),
        Reads::Module => module_on(alloc, file),
        Reads::Text => Ok(Some(read_all(alloc, file)?)),
    }
}
