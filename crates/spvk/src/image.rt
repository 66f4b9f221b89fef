//! The bytes of a module with the fault of a text, as C sees them.
ghost use Rattle.std.specs.Prelude.{◌≡◌, ◌*◌, [], None, Some, IfOk, length};
ghost use Rattle.spv_words.specs.Streams.{HoldsBytes};
ghost use Rattle.spvk.specs.Faults.{text_code_number};

use crate::buffer::Buffer;
use crate::collected::Collected;
use spv_parser::{AsmCode, AsmError};
use spv_table::Memory;
use spv_words::{Image, Order, write_image};
use std::alloc::Global;

/// Where a text fails: `spvk_fault` of C.
#[repr(C)]
#[derive(Clone, Copy)]
pub struct TextFault {
    /// 0, or the number of the code.
    pub code: u32,
    /// The number of the line, from 1, or 0.
    pub line: u32,
}

/// The fault of a text, or the bytes of a module: `spvk_image` of C.
#[repr(C)]
pub struct Assembled {
    /// The fault.
    pub fault: TextFault,
    /// The bytes, if there are any.
    pub buffer: Buffer,
}

/// The number of a code S1 to S6.
fn number_of_text_code(code: AsmCode) -> u32
    ensures { result ≡ text_code_number code }
{
    match code {
        AsmCode::S1 => 1201,
        AsmCode::S2 => 1202,
        AsmCode::S3 => 1203,
        AsmCode::S4 => 1204,
        AsmCode::S5 => 1205,
        AsmCode::S6 => 1206,
    }
}

/// The bytes of an image in an order. The error is that memory ran out.
fn bytes_of(alloc: Global, order: Order, image: &Image) -> Result<Vec<u8>, Memory>
    ensures { IfOk result (λ v. HoldsBytes order image.now [] (Some v.items) (4 * length image.now)) }
{
    let mut made = Collected::new(alloc);
    match write_image(image, order, &mut made) {
        Ok(()) => Ok(made.bytes),
        Err(_) => Err(Memory),
    }
}

impl Assembled {
    /// A fault, and no bytes.
    pub fn none(error: AsmError) -> Assembled
        ensures code { result.fault.code ≡ text_code_number error.code }
        ensures line { result.fault.line ≡ error.line }
        ensures buffer { result.buffer.bytes ≡ None }
    {
        Assembled {
            fault: TextFault {
                code: number_of_text_code(error.code),
                line: error.line,
            },
            buffer: Buffer::none(),
        }
    }

    /// The bytes of an image in an order, and no fault. The error is that memory ran out.
    pub fn of(alloc: Global, order: Order, image: &Image) -> Result<Assembled, Memory>
        ensures code { IfOk result (λ a. a.fault.code ≡ 0) }
        ensures line { IfOk result (λ a. a.fault.line ≡ 0) }
        ensures bytes { IfOk result (λ a. HoldsBytes order image.now [] a.buffer.bytes (4 * length image.now)) }
    {
        let bytes = match bytes_of(alloc, order, image) {
            Ok(bytes) => bytes,
            Err(memory) => return Err(memory),
        };
        match Buffer::of(alloc, bytes) {
            Ok(buffer) => Ok(Assembled {
                fault: TextFault { code: 0, line: 0 },
                buffer,
            }),
            Err(_) => Err(Memory),
        }
    }

    /// Lets the bytes go.
    pub fn let_go(self, alloc: Global) {
        let Assembled { fault: _, buffer } = self;
        buffer.let_go(alloc);
    }
}
