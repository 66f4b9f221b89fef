//! What a command comes to is written here.
ghost use Rattle.std.specs.Prelude.{◌≡◌, [], true};
ghost use Rattle.spv_commands.specs.Output.{is_done, made_of, out_of, output_of};
ghost use Rattle.spv_commands.specs.Streams.{writing};
ghost use Rattle.spv_streams.specs.inner.Put.{IsPut, IsWritten};

use spv_commands::{Output, Reply, Trouble};
use spv_words::{Sink, write_all};

/// Writes bytes, if there are any: true. `File`: a write failed, after a beginning of them.
fn put_bytes<W: Sink>(bytes: &[u8], w: &mut W) -> Result<bool, Trouble>
    ensures put { IsPut bytes.now true (writing W.contents W.failures w.old w.new) result }
    ensures nothing { bytes.now ≡ [] → w.new ≡ w.old }
{
    if bytes.is_empty() {
        return Ok(true);
    }
    match write_all(bytes, w) {
        Ok(()) => Ok(true),
        Err(_) => Err(Trouble::File),
    }
}

/// Writes an output, and answers `done`. `File`: a write failed, after a beginning of it.
fn put_output<W: Sink>(output: &Output, done: bool, w: &mut W) -> Result<bool, Trouble>
    ensures { IsPut (output_of output.now) done (writing W.contents W.failures w.old w.new) result }
{
    match output.write(w) {
        Ok(()) => Ok(done),
        Err(_) => Err(Trouble::File),
    }
}

/// Writes what a reply has for the standard output, and answers whether it is done and no fault is told.
///
/// `File`: a write failed, after a beginning of it. There is no other error.
pub fn write_out<W: Sink>(reply: &Reply, out: &mut W) -> Result<bool, Trouble>
    ensures { IsPut (out_of reply.now) (is_done reply.now) (writing W.contents W.failures out.old out.new) result }
{
    match reply {
        Reply::Done(output) => put_output(output, true, out),
        Reply::Fault(output) => put_output(output, false, out),
        Reply::Made(_) => Ok(true),
    }
}

/// Writes a reply, the bytes of a module to `made` and all else to the standard output, and answers whether it is done
/// and no fault is told.
///
/// `File`: a write failed, after a beginning of it. There is no other error.
pub fn write_reply<W: Sink, O: Sink>(
    reply: &Reply,
    out: &mut W,
    made: &mut O,
) -> Result<bool, Trouble>
    ensures written { IsWritten reply.now (writing W.contents W.failures out.old out.new)
        (writing O.contents O.failures made.old made.new) result }
    ensures nothing { made_of reply.now ≡ [] → made.new ≡ made.old }
{
    match reply {
        Reply::Done(output) => put_output(output, true, out),
        Reply::Fault(output) => put_output(output, false, out),
        Reply::Made(bytes) => put_bytes(bytes.as_slice(), made),
    }
}
