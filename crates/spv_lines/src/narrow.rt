//! Whether numbers of a type are one word, and stand in decimal.

ghost use Rattle.std.specs.Prelude.{◌≡◌, List, true};
ghost use Rattle.spv_inst.specs.inner.Known.{Knows};
ghost use Rattle.spv_module.specs.Operand.{PlainInst};
ghost use Rattle.spv_lines.specs.inner.Narrow.{IsNarrow};

use spv_inst::due::Definitions;

/// Whether an id, if there is one, is that of a type of at most 32 bits that is no float.
#[inline(never)]
pub fn is_narrow(definitions: &Definitions, type_id: Option<u32>) -> bool
    ensures { (before : List PlainInst) → Knows definitions.now before
        → result ≡ true → IsNarrow before type_id }
{
    let Some(id) = type_id else {
        return false;
    };
    let Some(width) = definitions.width(id) else {
        return false;
    };
    width <= 32 && !definitions.is_float(type_id)
}
