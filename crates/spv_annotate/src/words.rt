//! Numbers and ids in a text.

ghost use Rattle.std.specs.Prelude.{◌≡◌, ◌++◌, ◌∷◌, OnOk, decimal, string_bytes};
ghost use Rattle.spv_lines.specs.Operand.{id_text};

use crate::buffer::push_behind;
use itoa::Buffer;
use std::alloc::AllocError;

/// Adds a number in decimal.
pub fn push_number(out: &mut String, number: u64) -> Result<(), AllocError>
    ensures { OnOk result (string_bytes out.new ≡ string_bytes out.old ++ decimal number) }
{
    let mut buffer = Buffer::new();
    out.push_str(buffer.format(number))
}

/// Adds an id, as `%7`.
pub fn push_id(out: &mut String, id: u32) -> Result<(), AllocError>
    ensures { OnOk result (string_bytes out.new ≡ string_bytes out.old ++ id_text id) }
{
    push_behind(out, "%", id)
}
