//! Which capabilities are asked for: the rules C1 and C2, without what was asked before.

ghost use Rattle.std.specs.Prelude.{◌≡◌, ◌↔◌, [], IsTrue, Some, IfSome, IsSomeAnd, codes, option_and_then};
ghost use Rattle.std.specs.Prelude.{slice_get};
ghost use Rattle.spv_table.specs.Table.{enumerant_of, kind_of};
ghost use Rattle.spv_table.specs.Lookups.{value_named, number_named};
ghost use Rattle.spv_table.specs.Implied.{capabilities_in};
ghost use Rattle.spv_module.specs.Module.{plain_inst, plain_operands};
ghost use Rattle.spv_capabilities.specs.Capable.{Has, HasNamed, IsCovered, IsCoveredValue, int_needs, float_needs};
ghost use Rattle.spv_capabilities.specs.Capable.{vector_needs, image_needs, needs_of};
ghost use Rattle.spv_capabilities.specs.Capable as spec;
ghost use Rattle.spv_capabilities.specs.Asked.{HasNeeded, IsCoveredEntry};
ghost use Rattle.spv_capabilities.specs.inner.Capable.{IsKernel};

use crate::surveyed::Survey;
use spv_module::{Inst, Operand, opcode};
use spv_table::NameListRef;

/// How many capabilities are many: so many are looked up once, and what was found is kept.
const MANY: usize = 2;

/// Whether the module has Kernel and has not Shader.
pub fn is_kernel(survey: &Survey<'_, '_>) -> bool
    ensures { IsTrue result ↔ IsKernel survey.now.table survey.now.insts }
{
    survey.has(6) && !survey.has(1)
}

/// The capability of a name.
fn capability(survey: &Survey<'_, '_>, name: &str) -> Option<u32>
    ensures { result ≡ value_named (capabilities_in survey.now.table) name.now }
{
    let kind = survey.capability_kind()?;
    survey.table().enumerant_named(kind, name)
}

/// Whether the module has the capability of a name.
fn has_name(survey: &Survey<'_, '_>, name: &str) -> bool
    ensures { IsTrue result ↔ IsSomeAnd (value_named (capabilities_in survey.now.table) name.now)
        (Has survey.now.table survey.now.insts) }
{
    match capability(survey, name) {
        Some(capability) => survey.has(capability),
        None => false,
    }
}

/// Whether the module has one of the named capabilities.
#[inline(never)]
fn has_named(survey: &Survey<'_, '_>, names: &NameListRef<'_>) -> bool
    ensures { IsTrue result ↔ HasNamed survey.now.table survey.now.insts names.now }
{
    for place in 0..names.len() {
        if has_name(survey, names.name(place)) {
            return true;
        }
    }
    false
}

/// Whether listed capabilities are none, or the module has one of them.
#[inline(always)]
fn is_covered(survey: &Survey<'_, '_>, names: &NameListRef<'_>) -> bool
    ensures { IsTrue result ↔ IsCovered survey.now.table survey.now.insts names.now }
{
    names.is_empty() || has_named(survey, names)
}

/// Whether the entry of an opcode lists no capabilities, or one that the module has.
pub fn is_covered_entry(survey: &Survey<'_, '_>, opcode: u16) -> bool
    ensures { IsTrue result ↔ IsCoveredEntry survey.now.table survey.now.insts opcode }
{
    match survey.table().entry(opcode) {
        Some(entry) => is_covered(survey, &entry.capabilities()),
        None => true,
    }
}

/// Whether a kind is the one named Capability.
#[inline(always)]
pub fn is_capability_kind(survey: &Survey<'_, '_>, kind: u32) -> bool
    ensures { IsTrue result ↔ (number_named survey.now.table (codes "Capability") ≡ Some kind) }
{
    match survey.capability_kind() {
        Some(number) => number == kind,
        None => false,
    }
}

/// Whether the enumerant of a value of a kind, if there is one, lists no capabilities, or one that the module has.
pub fn is_covered_value(survey: &Survey<'_, '_>, kind: u32, value: u32) -> bool
    ensures { IsTrue result ↔ IsCoveredValue survey.now.table survey.now.insts kind value }
{
    match survey.table().enumerant(kind, value) {
        Some(enumerant) => is_covered(survey, &enumerant.capabilities()),
        None => true,
    }
}

/// Whether listed capabilities are none, or the module has one of them; unknown where they are many.
#[inline(always)]
fn covered_if_few(survey: &Survey<'_, '_>, names: &NameListRef<'_>) -> Option<bool>
    ensures { IfSome result (λ b. IsTrue b ↔ IsCovered survey.now.table survey.now.insts names.now) }
{
    if names.len() < MANY {
        Some(is_covered(survey, names))
    } else {
        None
    }
}

/// Whether the enumerant of a value of a kind, if there is one, lists no capabilities, or one that the module has;
/// unknown where it lists many.
#[inline(always)]
pub fn known_at_once(survey: &Survey<'_, '_>, kind: u32, value: u32) -> Option<bool>
    ensures { IfSome result (λ b. IsTrue b ↔ IsCoveredValue survey.now.table survey.now.insts kind value) }
{
    match survey.table().enumerant(kind, value) {
        Some(enumerant) => covered_if_few(survey, &enumerant.capabilities()),
        None => Some(true),
    }
}

/// Whether the module has the capability of an int's width.
fn has_int_needs(survey: &Survey<'_, '_>, operands: &[Operand<'_>]) -> bool
    ensures { IsTrue result ↔ HasNeeded survey.now.table survey.now.insts (int_needs (plain_operands operands.now)) }
{
    match operands {
        [Operand::Result(_), Operand::Word(16), ..] => survey.has(22),
        [Operand::Result(_), Operand::Word(64), ..] => survey.has(11),
        _ => true,
    }
}

/// Whether the module has a capability of a float's width.
fn has_float_needs(survey: &Survey<'_, '_>, operands: &[Operand<'_>]) -> bool
    ensures { IsTrue result ↔ HasNeeded survey.now.table survey.now.insts
        (float_needs (plain_operands operands.now)) }
{
    match operands {
        [Operand::Result(_), Operand::Word(16), ..] => survey.has(8) || survey.has(9),
        [Operand::Result(_), Operand::Word(64), ..] => survey.has(10),
        _ => true,
    }
}

/// Whether the module has the capability of a vector's count.
fn has_vector_needs(survey: &Survey<'_, '_>, operands: &[Operand<'_>]) -> bool
    ensures { IsTrue result ↔ HasNeeded survey.now.table survey.now.insts
        (vector_needs (plain_operands operands.now)) }
{
    match operands {
        [
            Operand::Result(_),
            Operand::Id(_),
            Operand::Word(8 | 16),
            ..
        ] => survey.has(7),
        _ => true,
    }
}

/// Whether the access qualifier of an image type is ReadWrite.
fn is_read_write(operands: &[Operand<'_>]) -> bool
    ensures { result ≡ spec.is_read_write (slice_get (plain_operands operands.now) 8) }
{
    match operands.get(8) {
        Some(Operand::Value { value, .. }) => *value == 2,
        _ => false,
    }
}

/// Whether the module has the capabilities of an image type.
fn has_image_needs(survey: &Survey<'_, '_>, operands: &[Operand<'_>]) -> bool
    ensures { IsTrue result ↔ HasNeeded survey.now.table survey.now.insts
        (image_needs (plain_operands operands.now)) }
{
    if !survey.has(13) {
        return false;
    }
    if is_read_write(operands) {
        survey.has(14)
    } else {
        true
    }
}

/// Whether the module has the capabilities that a type declaration needs.
pub fn has_needed(survey: &Survey<'_, '_>, inst: &Inst<'_>) -> bool
    ensures { IsTrue result ↔ HasNeeded survey.now.table survey.now.insts (needs_of (plain_inst inst.now)) }
{
    let operands = inst.operands.as_slice();
    match inst.opcode {
        opcode::TYPE_INT => has_int_needs(survey, operands),
        opcode::TYPE_FLOAT => has_float_needs(survey, operands),
        opcode::TYPE_VECTOR => has_vector_needs(survey, operands),
        opcode::TYPE_IMAGE => has_image_needs(survey, operands),
        opcode::TYPE_SAMPLER => survey.has(13),
        _ => true,
    }
}
