//! An operand's token, by what is due.

ghost use Rattle.std.specs.Prelude.{◌≡◌, ◌≢◌, ℕ, List, option_and_then};
ghost use Rattle.spv_table.specs.Table as grammar;
ghost use Rattle.spv_table.specs.Table.{kind_of};
ghost use Rattle.spv_table.specs.declared.form.Form.TheVariants.{Leaf as LeafForm};
ghost use Rattle.spv_table.specs.declared.form.Leaf.TheVariants as leaf;
ghost use Rattle.spv_table.specs.inner.Form.{form_at};
ghost use Rattle.spv_inst.specs.inner.Known.{Knows};
ghost use Rattle.spv_inst.specs.inner.Pending.{plain_slot};
ghost use Rattle.spv_module.specs.Operand.{Context, PlainInst};
ghost use Rattle.spv_module.specs.Shape.{AsNumber, shape_of};
ghost use Rattle.spv_module.specs.Width as widths;
ghost use Rattle.spv_lines.specs.Operand.{is_float, is_float_type};
ghost use Rattle.spv_lines.specs.inner.Answer.{IsToken};
ghost use Rattle.spv_parser.specs.inner.Reading.{IsAt, switch_type};

use crate::operands::{Known, Setting};
use spv_inst::due::{Asked, Definitions, Leaf};
use spv_lines::{
    Misread, read_id, read_mask, read_number, read_result_id, read_type_id, read_value, read_word,
};
use spv_module::{Operand, opcode};

/// The type of the first operand, if that is an id.
pub fn type_of_first(definitions: &Definitions, known: Known) -> Option<u32>
    ensures { (c : Context) → IsAt definitions.now known c → result ≡ switch_type c }
{
    match known.first {
        Some(id) => definitions.type_id(id),
        None => None,
    }
}

/// The width of the type of that id, if there is one, in bits.
pub fn width_of(definitions: &Definitions, type_id: Option<u32>) -> Option<u32>
    ensures { (before : List PlainInst) → Knows definitions.now before
        → result ≡ option_and_then (widths.width_of before) type_id }
{
    match type_id {
        Some(id) => definitions.width(id),
        None => None,
    }
}

/// Takes a number whose type is that id, if there is one.
fn read_typed(
    definitions: &Definitions,
    type_id: Option<u32>,
    token: &[u8],
) -> Result<Operand<'static>, Misread>
    ensures { (before : List PlainInst) (G : grammar.Table) (k : ℕ) → Knows definitions.now before
        → IsToken G (is_float_type before type_id) k
        (AsNumber (option_and_then (widths.width_of before) type_id)) token.now result }
{
    read_number(
        width_of(definitions, type_id),
        definitions.is_float(type_id),
        token,
    )
}

/// Takes the token of an operand for the leaf that is due, which is no text.
///
/// # Errors
///
/// `IllFormed`: the token is nothing that the leaf takes. `TooLarge`: it is a decimal number that is too large for it.
pub fn read_token(
    setting: &Setting<'_, '_>,
    known: Known,
    asked: Asked,
    token: &str,
) -> Result<Operand<'static>, Misread>
    ensures { (c : Context) → IsAt setting.now.definitions.now known c
        → form_at (kind_of setting.now.table.now asked.slot.kind) ≡ LeafForm asked.leaf → asked.leaf ≢ leaf.Text
        → IsToken setting.now.table.now (is_float setting.now.table.now c (plain_slot asked.slot)) asked.slot.kind
        (shape_of setting.now.table.now c (plain_slot asked.slot)) token.now result }
{
    let octets = token.as_bytes();
    match asked.leaf {
        Leaf::ResultType => read_type_id(octets),
        Leaf::Result => read_result_id(octets),
        Leaf::Id => read_id(octets),
        Leaf::Word => read_word(octets),
        Leaf::Integer => {
            if asked.slot.paired && known.opcode == opcode::SWITCH {
                let type_id = type_of_first(setting.definitions, known);
                return read_typed(setting.definitions, type_id, octets);
            }
            read_word(octets)
        }
        Leaf::ContextNumber => read_typed(setting.definitions, known.type_id, octets),
        Leaf::Value => read_value(setting.table, asked.slot.kind, token),
        Leaf::Mask => read_mask(setting.table, asked.slot.kind, token),
        Leaf::Text => Err(Misread::IllFormed),
        Leaf::Nothing => Err(Misread::IllFormed),
    }
}
