//! Bytes in memory as a sink.
ghost use Rattle.std.specs.Prelude.{◌≡◌, [], Some};

use spv_words::{Failed, Sink};
use std::alloc::Global;

/// Takes bytes to the end of a vector. A write fails where a growth of memory is refused.
#[derive(Drop)]
pub struct Collected {
    /// The bytes that were written.
    pub bytes: Vec<u8>,
    failures: u64,
}

impl Collected {
    /// A sink that holds nothing, and has not failed.
    pub fn new(alloc: Global) -> Collected
        ensures bytes { result.bytes.items ≡ [] }
        ensures failures { result.failures ≡ 0 }
    {
        Collected {
            bytes: Vec::new(alloc),
            failures: 0,
        }
    }
}

impl Sink for Collected {
    ghost failures = { λ s. s.failures };

    ghost contents = { λ s. Some s.bytes.items };

    fn write(&mut self, buf: &[u8]) -> Result<usize, Failed> {
        match self.bytes.extend_from_slice(buf) {
            Ok(()) => Ok(buf.len()),
            Err(_) => {
                self.failures = self.failures.wrapping_add(1);
                Err(Failed)
            }
        }
    }
}
