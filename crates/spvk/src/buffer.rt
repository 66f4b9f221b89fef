//! Bytes that a call made, as C keeps them.
ghost use Rattle.std.specs.Prelude.{◌≡◌, ◌≤◌, ℕ, List, None, Option, Some, IfOk, length, option_map};
ghost use Rattle.spvk.specs.Buffer.{LieAt};

use crate::loose::Loose;
use std::alloc::{AllocError, Global};
use std::marker::Model;
use std::ptr;

/// The owner of bytes: `spvk_buffer` of C. A null pointer `held` stands for none.
#[repr(C)]
pub struct Buffer {
    start: *const u8,
    size: usize,
    held: *mut u8,
    /// The bytes.
    ghost bytes: { Option (List ℕ) },
}

impl Model for Buffer {
    ghost use Rattle.std.specs.Prelude.{Option, List, ℕ};
    ghost use Rattle.spvk.specs.Buffer.{kept};

    ghost also_owns = { λ b. kept b.start b.size b.held b.bytes };
}

impl Buffer {
    /// Without bytes.
    pub fn none() -> Buffer
        ensures { result.bytes ≡ None }
    {
        Buffer {
            start: ptr::null(),
            size: 0,
            held: ptr::null_mut(),
        }
    }

    /// The owner of a vector whose bytes lie there.
    fn keep(start: *const u8, size: usize, vector: Loose<Vec<u8>, Global>) -> Buffer
        requires { LieAt start size vector.value.items vector.value }
        ensures { result.bytes ≡ Some vector.value.items }
    {
        let Loose { at, alloc } = vector;
        let _ = alloc;
        Buffer {
            start,
            size,
            held: at as *mut u8,
        }
    }

    /// The vector, if there is one.
    fn into_loose(self, alloc: Global) -> Option<Loose<Vec<u8>, Global>>
        ensures { option_map (λ l. l.value.items) result ≡ self.bytes }
    {
        let Buffer { start, size, held } = self;
        let _ = start;
        let _ = size;
        if held == ptr::null_mut() {
            None
        } else {
            Some(Loose {
                at: held as *mut Vec<u8>,
                alloc,
            })
        }
    }

    /// The owner of a vector's bytes. The error is that memory ran out.
    pub fn of(alloc: Global, bytes: Vec<u8>) -> Result<Buffer, AllocError>
        ensures { IfOk result (λ b. b.bytes ≡ Some bytes.items) }
    {
        let start = bytes.as_ptr();
        let size = bytes.len();
        match Box::new(alloc, bytes) {
            Ok(kept) => Ok(Buffer::keep(start, size, Loose::of(kept))),
            Err(_) => Err(AllocError),
        }
    }

    /// Lets the bytes go, if there are any.
    pub fn let_go(self, alloc: Global) {
        if let Some(vector) = self.into_loose(alloc) {
            drop(vector.into_box());
        }
    }
}
