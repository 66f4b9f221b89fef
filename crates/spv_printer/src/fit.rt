//! Whether an operand fits the kind that is due.

ghost use Rattle.std.specs.Prelude.{◌≡◌, ℕ};
ghost use Rattle.spv_table.specs.Table.{kind_of};
ghost use Rattle.spv_table.specs.declared.form.Form.TheVariants.{Leaf as LeafForm};
ghost use Rattle.spv_table.specs.inner.Form.{form_at};
ghost use Rattle.spv_module.specs.Operand.{Context};
ghost use Rattle.spv_module.specs.Module.{plain_operand};
ghost use Rattle.spv_module.specs.Shape.{shape_of, AsType, AsResult, AsId, AsWord, AsNumber, AsText, AsValue, AsMask};
ghost use Rattle.spv_inst.specs.Reading.{enumerants_at};
ghost use Rattle.spv_inst.specs.inner.Pending.{plain_slot};
ghost use Rattle.spv_inst.specs.inner.Written as written;
ghost use Rattle.spv_inst.specs.inner.Known.{IsNear};
ghost use Rattle.spv_inst.specs.inner.Written.{is_fit, is_without_zero};

use spv_inst::due::{
    Asked, Definitions, Known, Leaf, context_width, knows, knows_bits, switch_width,
};
use spv_module::{Operand, opcode};
use spv_table::Table;

/// Whether a number of a high word, with so many words, has the width, in bits.
fn fits_width(width: Option<u32>, high: u32, words: u8) -> bool
    ensures { result ≡ written.fits_width width high words }
{
    match width {
        None => false,
        Some(bits) => {
            if bits <= 32 {
                high == 0 && words == 1
            } else {
                words == 2
            }
        }
    }
}

/// Whether a text has no zero octet.
fn is_text(text: &str) -> bool
    ensures { result ≡ is_without_zero text.now }
{
    let octets = text.as_bytes();
    !octets.contains(&0)
}

/// Whether an operand is the id of a result's type.
fn is_result_type(operand: &Operand) -> bool
    ensures { (k : ℕ) → result ≡ is_fit k AsType (plain_operand operand.now) }
{
    match operand {
        Operand::OfType(_) => true,
        _ => false,
    }
}

/// Whether an operand is the id of a result.
fn is_result(operand: &Operand) -> bool
    ensures { (k : ℕ) → result ≡ is_fit k AsResult (plain_operand operand.now) }
{
    match operand {
        Operand::Result(_) => true,
        _ => false,
    }
}

/// Whether an operand is another id.
fn is_id(operand: &Operand) -> bool
    ensures { (k : ℕ) → result ≡ is_fit k AsId (plain_operand operand.now) }
{
    match operand {
        Operand::Id(_) => true,
        _ => false,
    }
}

/// Whether an operand is a literal of one word.
fn is_word(operand: &Operand) -> bool
    ensures { (k : ℕ) → result ≡ is_fit k AsWord (plain_operand operand.now) }
{
    match operand {
        Operand::Word(_) => true,
        _ => false,
    }
}

/// Whether an operand is a number of a width, in bits.
fn is_number(width: Option<u32>, operand: &Operand) -> bool
    ensures { (k : ℕ) → result ≡ is_fit k (AsNumber width) (plain_operand operand.now) }
{
    match operand {
        Operand::Number { high, words, .. } => fits_width(width, *high, *words),
        _ => false,
    }
}

/// Whether an operand is a text without a zero octet.
fn is_string(operand: &Operand) -> bool
    ensures { (k : ℕ) → result ≡ is_fit k AsText (plain_operand operand.now) }
{
    match operand {
        Operand::Text(text) => is_text(text),
        _ => false,
    }
}

/// Whether an operand is a value of the kind that an enumerant has.
fn is_value(table: &Table, kind: u32, operand: &Operand) -> bool
    ensures { result ≡ is_fit kind (AsValue (enumerants_at (kind_of table.now kind))) (plain_operand operand.now) }
{
    match operand {
        Operand::Value { kind: of, value } => *of == kind && knows(table, kind, *value),
        _ => false,
    }
}

/// Whether an operand is a mask of the kind whose bits enumerants have.
fn is_mask(table: &Table, kind: u32, operand: &Operand) -> bool
    ensures { result ≡ is_fit kind (AsMask (enumerants_at (kind_of table.now kind))) (plain_operand operand.now) }
{
    match operand {
        Operand::Mask { kind: of, value } => *of == kind && knows_bits(table, kind, *value),
        _ => false,
    }
}

/// Whether an operand fits the leaf that is due: whether it is one that words spell there (SPIR-V Specification 1.6,
/// section 2.2.1). A number fits by its width, a text if it has no zero octet, a value or a mask if it is of the kind
/// and its enumerant, or each set bit's, is known.
pub fn fits(
    table: &Table,
    definitions: &Definitions,
    known: Known,
    asked: Asked,
    operand: &Operand,
) -> bool
    ensures { (c : Context) → IsNear definitions.now known c
        → form_at (kind_of table.now asked.slot.kind) ≡ LeafForm asked.leaf
        → result ≡ is_fit asked.slot.kind (shape_of table.now c (plain_slot asked.slot))
        (plain_operand operand.now) }
{
    let slot = asked.slot;
    match asked.leaf {
        Leaf::ResultType => is_result_type(operand),
        Leaf::Result => is_result(operand),
        Leaf::Id => is_id(operand),
        Leaf::Word => is_word(operand),
        Leaf::Integer => {
            if slot.paired && known.opcode == opcode::SWITCH {
                return is_number(switch_width(definitions, known), operand);
            }
            is_word(operand)
        }
        Leaf::ContextNumber => is_number(context_width(definitions, known), operand),
        Leaf::Text => is_string(operand),
        Leaf::Value => is_value(table, slot.kind, operand),
        Leaf::Mask => is_mask(table, slot.kind, operand),
        Leaf::Nothing => false,
    }
}
