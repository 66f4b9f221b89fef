//! Deletes buffers, for C.
ghost use Rattle.std.specs.Prelude.{◌≡◌, None};

use crate::buffer::Buffer;
use std::alloc::Global;
use std::mem;

/// Lets the bytes of a buffer go. It has none then, as it may have had before.
#[unsafe(no_mangle)]
pub extern "C" fn spvk_raw_buffer_delete(alloc: Global, buffer: &mut Buffer)
    ensures { buffer.new.bytes ≡ None }
{
    mem::replace(buffer, Buffer::none()).let_go(alloc);
}
