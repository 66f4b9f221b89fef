//! Forms of instructions that came with later versions, and instructions that went.

ghost use Rattle.std.specs.Prelude.{◌≡◌, ◌≤◌, ◌↔◌, IsTrue, List, codes, count_by, nat_eq};
ghost use Rattle.std.specs.List.{starts_with};
ghost use Rattle.spv_module.specs.Module.{plain_inst, plain_operand, plain_operands};
ghost use Rattle.spv_module.specs.Operand.{PlainInst};
ghost use Rattle.spv_versions.specs.Missing as spec;
ghost use Rattle.spv_versions.specs.inner.Shapes.{AreOfNoMeaning, AreWhole, HasLateForm, IsOneBool};

use crate::missing::Missing;
use spv_module::{Inst, Operand, opcode};
use spv_type_forms::{Definitions, Form, is_bool};

/// From this minor version on copies have two masks, and arrays, structs and whole vectors are selected.
const WIDER_FORMS: u8 = 4;

/// The last minor versions that have OpLessOrGreater and OpAtomicCompareExchangeWeak.
const LAST_OF_EITHER: u8 = 5;

const LAST_OF_WEAK: u8 = 3;

/// Whether an operand is a mask.
fn is_mask(operand: Operand<'_>) -> bool
    ensures { result ≡ spec.is_mask (plain_operand operand.entry) }
{
    match operand {
        Operand::Mask { .. } => true,
        _ => false,
    }
}

/// How many masks there are among operands.
#[inline(never)]
fn count_masks(operands: &[Operand<'_>]) -> usize
    ensures { result ≡ count_by spec.is_mask (plain_operands operands.now) }
{
    let mut count = 0;
    for operand in operands {
        if is_mask(*operand) {
            count += 1;
        }
    }
    count
}

/// Whether the type of an id is bool.
fn is_one_bool(definitions: &Definitions, x: u32) -> bool
    ensures { IsTrue result ↔ IsOneBool definitions.now x }
{
    match definitions.type_of(x) {
        Some(t) => is_bool(definitions, t),
        None => false,
    }
}

/// Whether an OpSelect of a result type and a condition selects an array, a struct, or a vector by one bool.
fn selects(definitions: &Definitions, t: u32, condition: u32) -> bool
    ensures { IsTrue result ↔ spec.SelectsWhole definitions.now t condition }
{
    match definitions.form(t) {
        Some(Form::Array { .. }) => true,
        Some(Form::Struct) => true,
        Some(Form::Vector { .. }) => is_one_bool(definitions, condition),
        _ => false,
    }
}

/// Whether operands of an OpSelect are so.
#[inline(never)]
fn are_whole(definitions: &Definitions, operands: &[Operand<'_>]) -> bool
    ensures { IsTrue result ↔ AreWhole definitions.now (plain_operands operands.now) }
{
    match operands {
        [
            Operand::OfType(t),
            Operand::Result(_),
            Operand::Id(condition),
            ..
        ] => selects(definitions, *t, *condition),
        _ => false,
    }
}

/// Whether a name is that of a set of no meaning.
fn is_of_no_meaning(name: &str) -> bool
    ensures { result ≡ starts_with nat_eq name.now (codes "NonSemantic.") }
{
    name.as_bytes().starts_with(b"NonSemantic.")
}

/// Whether operands of an OpExtInstImport name a set of no meaning.
#[inline(never)]
fn are_of_no_meaning(operands: &[Operand<'_>]) -> bool
    ensures { IsTrue result ↔ AreOfNoMeaning (plain_operands operands.now) }
{
    match operands {
        [Operand::Result(_), Operand::Text(name), ..] => is_of_no_meaning(name),
        _ => false,
    }
}

/// Whether an instruction has a form that came with a later version, or is one that went with an earlier one.
#[inline(always)]
pub fn has_late_form(
    definitions: &Definitions,
    missing: &Missing,
    minor: u8,
    inst: &Inst<'_>,
) -> bool
    ensures { IsTrue result
        ↔ HasLateForm definitions.now minor missing.now.is_without_meaning (plain_inst inst.now) }
{
    let operands = inst.operands.as_slice();
    match inst.opcode {
        opcode::COPY_MEMORY | opcode::COPY_MEMORY_SIZED => {
            minor < WIDER_FORMS && 2 <= count_masks(operands)
        }
        opcode::SELECT => minor < WIDER_FORMS && are_whole(definitions, operands),
        opcode::LESS_OR_GREATER => minor > LAST_OF_EITHER,
        opcode::ATOMIC_COMPARE_EXCHANGE_WEAK => minor > LAST_OF_WEAK,
        opcode::EXT_INST_IMPORT => missing.is_without_meaning && are_of_no_meaning(operands),
        _ => false,
    }
}

/// Whether an instruction of an opcode may have such a form, or be one that went.
pub fn may_have_late_form(missing: &Missing, minor: u8, number: u16) -> bool
    ensures { (is : List PlainInst) (i : PlainInst) → i.opcode ≡ number
        → HasLateForm is minor missing.now.is_without_meaning i → IsTrue result }
{
    match number {
        opcode::COPY_MEMORY | opcode::COPY_MEMORY_SIZED | opcode::SELECT => minor < WIDER_FORMS,
        opcode::LESS_OR_GREATER => minor > LAST_OF_EITHER,
        opcode::ATOMIC_COMPARE_EXCHANGE_WEAK => minor > LAST_OF_WEAK,
        opcode::EXT_INST_IMPORT => missing.is_without_meaning,
        _ => false,
    }
}
