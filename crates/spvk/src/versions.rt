//! Modules of another version as modules of version 1.6.
ghost use Rattle.std.specs.Prelude.{◌≡◌, IfOk};
ghost use Rattle.spv_words.specs.Version.{as_1_6};

use spv_words::replace_version;
use std::alloc::{AllocError, Global};

/// The bytes with version 1.6 in place of a version 1.0 to 1.6. The error is that memory ran out.
pub fn copy_as_1_6(alloc: Global, bytes: &[u8]) -> Result<Vec<u8>, AllocError>
    ensures { IfOk result (λ copy. copy.items ≡ as_1_6 bytes.now) }
{
    let mut copy = Vec::from_slice(alloc, bytes)?;
    replace_version(&mut copy);
    Ok(copy)
}
