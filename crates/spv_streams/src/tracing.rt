//! What `trace` writes of the bytes of a stream.
ghost use Rattle.std.specs.Prelude.{◌≡◌, ◌⊎◌, ◌↔◌, IfErr, IfOk, IfSome, IsErrOf};
ghost use Rattle.spv_check.specs.Outcome.{HasFailed};
ghost use Rattle.spv_commands.specs.Streams.{IsAnswered, reading, writing};
ghost use Rattle.spv_commands.specs.Trace.{BeginsTracing, HasNoEntry, HasSeveral, Traces};
ghost use Rattle.spv_commands.specs.inner.Answered.{Gives};
ghost use Rattle.spv_commands.specs.declared.trouble.Trouble.TheVariants.{File, Memory, NoEntry, SeveralFunctions};

use crate::reading::module_on;
use crate::writing::write_out;
use spv_commands::{Reply, Trouble, fault, traced};
use spv_extended::Reach;
use spv_names::Chosen;
use spv_table::Table;
use spv_verdict::Judgment;
use spv_words::{Sink, Source, WordError};
use std::alloc::Global;

/// What `trace` answers of all the bytes of a reader.
fn traced_on<R: Source>(
    alloc: Global,
    table: &Table,
    reach: Reach,
    function: Chosen<'_>,
    choices: &[u32],
    limit: u32,
    r: &mut R,
) -> Result<Reply, Trouble>
    ensures known { IfSome (R.remaining r.old)
        (λ bytes. IfOk result (Gives (Traces table.now reach function.entry choices.now limit) bytes)) }
    ensures only { IfErr result (λ t. (t ≡ File)
        ⊎ ((t ≡ NoEntry) × IfSome (R.remaining r.old) (λ bytes. HasNoEntry table.now reach bytes function.entry))
        ⊎ ((t ≡ SeveralFunctions)
        × IfSome (R.remaining r.old) (λ bytes. HasSeveral table.now reach bytes function.entry))
        ⊎ (t ≡ Memory)) }
    ensures count { HasFailed R.failures r.old r.new ↔ IsErrOf result File }
{
    let content = module_on(alloc, r)?;
    match content {
        Some(bytes) => traced(alloc, table, reach, function, choices, limit, bytes),
        None => Ok(fault(Judgment::Refused(WordError::W8))),
    }
}

/// Writes the run of a function of the module that a reader's bytes up to the end of input are, and answers true; or,
/// where they are no valid module, their verdict line, and answers false. `reach` says whether the operands of extended
/// instructions are looked at too.
///
/// `function` is an entry point's function; `choices` are the places of the targets that are taken, from 0,
/// one for each OpBranchConditional and OpSwitch that is executed; `limit` is the greatest number of steps. The run has
/// a line for each instruction that is executed, and one for its end. Nothing is written before it is whole: it is
/// kept, eight bytes a step, and no limit is too great for the call, but only for the memory.
///
/// # Errors
///
/// `File`: a read or a write failed. After a failed read nothing was written, after a failed write a beginning of the
/// output. The bytes are a valid module with the next two. `NoEntry`: the id is the function of no OpEntryPoint, or the
/// name that of no function. `SeveralFunctions`: the name is that of several. `Memory`: a growth of memory was refused.
/// Nothing was written with these three.
pub fn trace_stream<R: Source, W: Sink>(
    alloc: Global,
    table: &Table,
    reach: Reach,
    function: Chosen<'_>,
    choices: &[u32],
    limit: u32,
    r: &mut R,
    w: &mut W,
) -> Result<bool, Trouble>
    // The writer has got what is written of all the bytes that the reader still gave.
    ensures ends { IsAnswered (Traces table.now reach function.entry choices.now limit)
        (BeginsTracing table.now reach function.entry choices.now limit) File
        (reading R.remaining R.failures r.old r.new) (writing W.contents W.failures w.old w.new) result }
    ensures only { IfErr result (λ t. (t ≡ File)
        ⊎ ((t ≡ NoEntry) × IfSome (R.remaining r.old) (λ bytes. HasNoEntry table.now reach bytes function.entry))
        ⊎ ((t ≡ SeveralFunctions)
        × IfSome (R.remaining r.old) (λ bytes. HasSeveral table.now reach bytes function.entry))
        ⊎ (t ≡ Memory)) }
{
    let reply = traced_on(alloc, table, reach, function, choices, limit, r)?;
    write_out(&reply, w)
}
