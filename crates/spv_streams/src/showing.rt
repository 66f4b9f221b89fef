//! What `show` writes of the bytes of a stream.
ghost use Rattle.std.specs.Prelude.{◌≡◌, ◌⊎◌, ◌↔◌, IfErr, IfOk, IfSome, IsErrOf};
ghost use Rattle.spv_words.specs.declared.words.WordError.TheVariants.{W1, W9};
ghost use Rattle.spv_check.specs.Outcome.{HasFailed};
ghost use Rattle.spv_commands.specs.Show.{BeginsShowing, Shows};
ghost use Rattle.spv_commands.specs.Streams.{IsAnswered, reading, writing};
ghost use Rattle.spv_commands.specs.inner.Answered.{Gives};
ghost use Rattle.spv_commands.specs.declared.trouble.Trouble.TheVariants.{File, Memory};
ghost use Rattle.spv_streams.specs.inner.Content.{code_of};

use crate::reading::module_on;
use crate::writing::write_out;
use spv_commands::{Reply, Trouble, fault, shown};
use spv_extended::Reach;
use spv_table::Table;
use spv_verdict::Judgment;
use spv_words::{Sink, Source, WordError};
use std::alloc::Global;

/// What `show` answers of all the bytes of a reader.
fn shown_on<R: Source>(
    alloc: Global,
    table: &Table,
    reach: Reach,
    r: &mut R,
) -> Result<Reply, Trouble>
    ensures known { IfSome (R.remaining r.old) (λ bytes. IfOk result (Gives (Shows table.now reach) bytes)) }
    ensures count { HasFailed R.failures r.old r.new ↔ IsErrOf result File }
    ensures only { IfErr result (λ t. (t ≡ File) ⊎ (t ≡ Memory)) }
{
    let content = module_on(alloc, r)?;
    match content {
        Some(bytes) => shown(alloc, table, reach, bytes),
        None => Ok(fault(Judgment::Refused(WordError::W8))),
    }
}

/// The code of a trouble of a stream: W9 for out of memory, and W1 for a failed read or write.
fn stream_code(trouble: Trouble) -> WordError
    ensures { result ≡ code_of trouble }
{
    match trouble {
        Trouble::Memory => WordError::W9,
        _ => WordError::W1,
    }
}

/// Writes the text of the module that a reader's bytes up to the end of input are, and answers true; or, where they are
/// no words of a module or no list of instructions, their verdict line, and answers false. Where `reach` is that of a
/// module of OpenCL, the text tells its version.
///
/// # Errors
///
/// `W1`: a read or a write failed. After a failed read nothing was written, after a failed write a beginning of the
/// output. `W9`: a growth of memory was refused, and nothing was written. There is no other error.
pub fn show_stream<R: Source, W: Sink>(
    alloc: Global,
    table: &Table,
    reach: Reach,
    r: &mut R,
    w: &mut W,
) -> Result<bool, WordError>
    // The writer has got what is shown of all the bytes that the reader still gave.
    ensures ends { IsAnswered (Shows table.now reach) (BeginsShowing table.now reach) W1
        (reading R.remaining R.failures r.old r.new) (writing W.contents W.failures w.old w.new) result }
    ensures only { IfErr result (λ e. (e ≡ W1) ⊎ (e ≡ W9)) }
    // After a failed read, or for lack of memory, the writer is as it was.
    ensures read { HasFailed R.failures r.old r.new → w.new ≡ w.old }
    ensures memory { IsErrOf result W9 → w.new ≡ w.old }
{
    let reply = match shown_on(alloc, table, reach, r) {
        Ok(reply) => reply,
        Err(trouble) => return Err(stream_code(trouble)),
    };
    match write_out(&reply, w) {
        Ok(answer) => Ok(answer),
        Err(_) => Err(WordError::W1),
    }
}
