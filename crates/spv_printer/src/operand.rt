//! Operands as a text shows them.

ghost use Rattle.std.specs.Prelude.{◌≡◌, ◌++◌, ◌∷◌, ◌&&◌, ◌||◌, [], ℕ, List, Option, OnOk};
ghost use Rattle.std.specs.Prelude.{IfOk, string_bytes, is_some, not, true};
ghost use Rattle.spv_table.specs.Table.{Table, kind_of};
ghost use Rattle.spv_table.specs.declared.form.Form.TheVariants.{Leaf as LeafForm};
ghost use Rattle.spv_table.specs.inner.Form.{form_at};
ghost use Rattle.spv_inst.specs.inner.Known.{IsNear};
ghost use Rattle.spv_module.specs.Operand.{Context, result_in};
ghost use Rattle.spv_module.specs.Module.{plain_operand};
ghost use Rattle.spv_module.specs.Shape as shape;
ghost use Rattle.spv_module.specs.Shape.{shape_of};
ghost use Rattle.spv_module.specs.Spelling.{Takes};
ghost use Rattle.spv_inst.specs.inner.Pending.{plain_slot};
ghost use Rattle.spv_lines.specs.Operand.{Shown, shown_operand, is_float};
ghost use Rattle.spv_lines.specs.Written.{Piece};
ghost use Rattle.spv_printer.specs.inner.Names.{AreNames};
ghost use Rattle.spv_printer.specs.inner.Printer.{is_number};

use crate::name::{push_mask, push_value};
use crate::names::Names;
use crate::number::{push_decimal, push_marked, push_number};
use crate::quoted::push_quoted;
use spv_inst::due::{Asked, Definitions, Known, Leaf};
use spv_module::Operand;
use spv_table::Table;
use std::alloc::AllocError;

/// Whether an operand is a number of a float type: a LiteralContextDependentNumber has the result type of its
/// instruction, a literal of OpSwitch the type of the first operand.
fn is_hexadecimal(definitions: &Definitions, known: Known, leaf: Leaf, operand: &Operand) -> bool
    ensures { (G : Table) (c : Context) (s : shape.Slot) (ws : List ℕ) (ss : List shape.Slot)
        → (is_number operand.now ≡ true → IsNear definitions.now known c)
        → form_at (kind_of G s.kind) ≡ LeafForm leaf
        → Takes s.kind (shape_of G c s) (plain_operand operand.now) ws ss
        → shown_operand G result (plain_operand operand.now) ≡ shown_operand G (is_float G c s)
        (plain_operand operand.now) }
{
    match operand {
        Operand::Number { .. } => match leaf {
            Leaf::ContextNumber => definitions.is_float(known.type_id),
            _ => match known.first {
                Some(id) => definitions.is_float(definitions.type_id(id)),
                None => false,
            },
        },
        _ => false,
    }
}

/// Adds a space and an operand, a number in hexadecimal or in decimal. Where memory runs out, nothing is said of what
/// is left.
fn push_operand(
    out: &mut String,
    table: &Table,
    names: &mut Names,
    hexadecimal: bool,
    operand: &Operand,
) -> Result<(), AllocError>
    requires { AreNames table.now names.old }
    ensures text { OnOk result (string_bytes out.new ≡ string_bytes out.old
        ++ (32 ∷ shown_operand table.now hexadecimal (plain_operand operand.now))) }
    ensures names { AreNames table.now names.new }
{
    out.push(' ')?;
    match operand {
        Operand::OfType(id)
        | Operand::Result(id)
        | Operand::Id(id)
        | Operand::Argument(id)
        | Operand::Mention(id) => push_marked(out, '%', *id),
        Operand::Word(word) => push_decimal(out, u64::from(*word)),
        Operand::Number { low, high, words } => push_number(out, hexadecimal, *low, *high, *words),
        Operand::Text(text) => push_quoted(out, text),
        Operand::Value { kind, value } => push_value(out, table, names, *kind, *value),
        Operand::Mask { kind, value } => push_mask(out, table, names, *kind, *value),
    }
}

/// Whether an operand is the result of its instruction, which stands in front: the first result. `has_result` tells
/// whether one was among the operands before.
fn is_in_front(has_result: bool, operand: &Operand) -> bool
    ensures { result ≡ (is_some (result_in (plain_operand operand.now ∷ [])) && not has_result) }
{
    match operand {
        Operand::Result(_) => !has_result,
        _ => false,
    }
}

/// Adds what an operand has in its line behind the name: nothing for the instruction's result, which stands in front,
/// and a space and its text for all others. `has_result` tells whether a result was among the operands before; it gives
/// whether one is among these and the operand.
///
/// An `AllocError` comes only where a growth of memory was refused, and then nothing is said of what is left.
pub fn push_piece(
    out: &mut String,
    table: &Table,
    definitions: &Definitions,
    names: &mut Names,
    known: Known,
    has_result: bool,
    asked: Asked,
    operand: &Operand,
) -> Result<bool, AllocError>
    requires { AreNames table.now names.old }
    ensures text { (c : Context) (r : Option ℕ) (ws p : List ℕ) (ss : List shape.Slot)
        → (is_number operand.now ≡ true → IsNear definitions.now known c) → has_result ≡ is_some (result_in c.operands)
        → form_at (kind_of table.now asked.slot.kind) ≡ LeafForm asked.leaf
        → Takes asked.slot.kind (shape_of table.now c (plain_slot asked.slot)) (plain_operand operand.now) ws ss
        → Piece (Shown table.now) table.now r c (plain_slot asked.slot) (plain_operand operand.now) p
        → OnOk result (string_bytes out.new ≡ string_bytes out.old ++ p) }
    ensures result { IfOk result (λ b. b ≡ (has_result || is_some (result_in (plain_operand operand.now ∷ [])))) }
    ensures names { AreNames table.now names.new }
{
    if is_in_front(has_result, operand) {
        return Ok(true);
    }
    let hexadecimal = is_hexadecimal(definitions, known, asked.leaf, operand);
    push_operand(out, table, names, hexadecimal, operand)?;
    Ok(has_result)
}
