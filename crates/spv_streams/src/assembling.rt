//! What `asm` makes of the text of a stream.
ghost use Rattle.std.specs.Prelude.{◌≡◌, ◌⊎◌, ◌↔◌, IfErr, IfOk, IfSome, IsErrOf, IsUtf8, Some};
ghost use Rattle.spv_check.specs.Outcome.{HasFailed};
ghost use Rattle.spv_commands.specs.Assemble.{Assembles, BeginsAssembling, text_read};
ghost use Rattle.spv_commands.specs.Streams.{IsDone, reading, writing};
ghost use Rattle.spv_commands.specs.declared.trouble.Trouble.TheVariants.{File, Memory, NotText};
ghost use Rattle.spv_streams.specs.inner.Put.{GivesBoth};

use crate::writing::write_reply;
use spv_commands::{Reply, Trouble, assembled, read_all};
use spv_table::Table;
use spv_words::{Order, Sink, Source};
use std::alloc::Global;

/// What `asm` answers of all the bytes of a reader.
fn assembled_on<R: Source>(
    alloc: Global,
    table: &Table,
    order: Order,
    explain: bool,
    opencl: bool,
    r: &mut R,
) -> Result<Reply, Trouble>
    ensures known { IfSome (R.remaining r.old)
        (λ bytes. IfOk result (GivesBoth (Assembles table.now order explain opencl) bytes)) }
    ensures count { HasFailed R.failures r.old r.new ↔ IsErrOf result File }
    ensures only { IfErr result (λ t. (t ≡ File)
        ⊎ ((t ≡ NotText) × IfSome (R.remaining r.old) (λ bytes. ¬ IsUtf8 (text_read opencl bytes))) ⊎ (t ≡ Memory)) }
{
    let bytes = read_all(alloc, r)?;
    assembled(alloc, table, order, explain, opencl, bytes)
}

/// Makes the module of the text that a reader's bytes up to the end of input are: writes its bytes in an order to
/// `made`, and answers true; or, where the text fails, writes the line of its fault to `out`, and answers false. Where
/// it is to `explain`, lines behind that one say what is wanted at that place and what is found. Where `opencl` is
/// asked for, a text that tells version 1.0 to 1.5 is read too, and the module has that version.
///
/// # Errors
///
/// `File`: a read or a write failed. After a failed read nothing was written, after a failed write a beginning of the
/// bytes or of the lines. `NotText`: the bytes are not UTF-8, and `Memory`: a growth of memory was refused; nothing was
/// written then.
pub fn assemble_stream<R: Source, W: Sink, O: Sink>(
    alloc: Global,
    table: &Table,
    order: Order,
    explain: bool,
    opencl: bool,
    r: &mut R,
    out: &mut W,
    made: &mut O,
) -> Result<bool, Trouble>
    // The bytes or the line of all the bytes that the reader still gave were written, and nothing else.
    ensures ends { IsDone (Assembles table.now order explain opencl) (BeginsAssembling table.now order explain opencl)
        File
        (reading R.remaining R.failures r.old r.new) (writing W.contents W.failures out.old out.new)
        (writing O.contents O.failures made.old made.new) result }
    ensures only { IfErr result (λ t. (t ≡ File)
        ⊎ ((t ≡ NotText) × IfSome (R.remaining r.old) (λ bytes. ¬ IsUtf8 (text_read opencl bytes))) ⊎ (t ≡ Memory)) }
{
    let reply = assembled_on(alloc, table, order, explain, opencl, r)?;
    write_reply(&reply, out, made)
}
