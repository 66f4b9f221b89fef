ghost use Rattle.std.specs.Prelude.{◌≡◌, ◌↔◌, Some, IsTrue, IfOk, OnOk, true, length, nat_eq};
ghost use Rattle.spv_module.specs.Module.{plain_inst, plain_operands};
ghost use Rattle.spv_module.specs.Operand as operand;
ghost use Rattle.spv_module.specs.Width.{definition_of};
ghost use Rattle.spv_type_kinds.specs.Operands.{ids_in};
ghost use Rattle.spv_type_forms.specs.Parts.{count_of};
ghost use Rattle.spv_type_forms.specs.inner.Tests.{passes};
ghost use Rattle.spv_type_forms.specs.inner.Null.{AreNulls};
ghost use Rattle.spv_layout.specs.Place.{AreFew};
ghost use Rattle.spv_type_rules.specs.Constant as rules;
ghost use Rattle.spv_type_rules.specs.declared.constant.Constant.TheVariants as constant_form;
ghost use Rattle.spv_type_rules.specs.Constant.{FitsWidth, AreConstantParts, Constitutes};
ghost use Rattle.spv_type_rules.specs.inner.Constant.{IsSoundConstant};
ghost use Rattle.spv_type_rules.specs.inner.Found as found;

use spv_module::{Inst, Operand, opcode};
use spv_type_forms::{
    Definitions, Form, Nulls, Object, Scalar, after_head, count, id_count, is_bool, is_noted_wide,
    is_object, parts_of, type_in,
};
use std::alloc::AllocError;

/// The constants by what they are made of (SPIR-V Specification 1.6, section 3.49.7), the spec forms too.
#[derive(Clone, Copy)]
pub enum Constant {
    Bool,
    Number,
    Composite,
    SpecComposite,
    Null,
    Sampler,
    PipeStorage,
}

/// What an opcode makes.
pub fn constant_of(number: u16) -> Option<Constant>
    ensures { result ≡ rules.constant_of number }
{
    match number {
        opcode::CONSTANT_TRUE
        | opcode::CONSTANT_FALSE
        | opcode::SPEC_CONSTANT_TRUE
        | opcode::SPEC_CONSTANT_FALSE => Some(Constant::Bool),
        opcode::CONSTANT | opcode::SPEC_CONSTANT => Some(Constant::Number),
        opcode::CONSTANT_COMPOSITE => Some(Constant::Composite),
        opcode::SPEC_CONSTANT_COMPOSITE => Some(Constant::SpecComposite),
        opcode::CONSTANT_NULL => Some(Constant::Null),
        opcode::CONSTANT_SAMPLER => Some(Constant::Sampler),
        opcode::CONSTANT_PIPE_STORAGE => Some(Constant::PipeStorage),
        _ => None,
    }
}

/// Whether the bits of a number's low word from the width of its type up are 0. Most types are as wide as a word.
#[inline(always)]
pub fn fits_width(definitions: &Definitions, r: u32, low: u32) -> bool
    ensures { IsTrue result ↔ FitsWidth definitions.now r low }
{
    is_noted_wide(definitions, r) || fits_defined_width(definitions, r, low)
}

/// The same, by the definition of the type.
#[inline(never)]
fn fits_defined_width(definitions: &Definitions, r: u32, low: u32) -> bool
    ensures { IsTrue result ↔ FitsWidth definitions.now r low }
{
    match definitions.form(r) {
        Some(Form::Scalar(Scalar::Int(width) | Scalar::Float(width))) => 32 <= width
            || u64::from(low) < 1u64 << width,
        _ => false,
    }
}

/// Whether a composite constant may be made of what an opcode makes.
fn is_part_opcode(spec: bool, number: u16) -> bool
    ensures { result ≡ rules.is_part_opcode spec number }
{
    match number {
        opcode::UNDEF
        | opcode::CONSTANT_TRUE..=opcode::CONSTANT_NULL
        | opcode::CONSTANT_PIPE_STORAGE => true,
        opcode::SPEC_CONSTANT_TRUE..=opcode::SPEC_CONSTANT_COMPOSITE => spec,
        _ => false,
    }
}

/// Whether the result of an instruction is of a type.
#[inline(always)]
fn is_of_type(inst: &Inst, t: u32) -> bool
    ensures { result ≡ passes (λ u. nat_eq u t) (operand.type_in (plain_inst inst.now).operands) }
{
    match type_in(inst.operands.as_slice()) {
        Some(u) => u == t,
        None => false,
    }
}

/// Whether an id stands for a value of a part's type, of which a composite constant may be made.
#[inline(always)]
pub fn is_typed_part(definitions: &Definitions, spec: bool, part: Option<u32>, x: u32) -> bool
    ensures { result ≡ found.is_typed_part spec part (definition_of definitions.now x) }
{
    match (definitions.definition(x), part) {
        (Some(inst), Some(t)) => is_of_type(inst, t) && is_part_opcode(spec, inst.opcode),
        _ => false,
    }
}

/// Whether the ids at the front of the operands stand for such values, for the parts of a type in order.
fn are_typed_parts(definitions: &Definitions, spec: bool, r: u32, operands: &[Operand]) -> bool
    ensures { result ≡ found.are_typed_parts definitions.now spec r 0 (ids_in (plain_operands operands.now)) }
{
    let parts = parts_of(definitions, r);
    let mut k = 0;
    for operand in operands {
        let Operand::Id(x) = operand else {
            return true;
        };
        if !is_typed_part(definitions, spec, parts.at(k), *x) {
            return false;
        }
        k += 1;
    }
    true
}

/// Whether they do, and there are as many as parts.
fn are_all_parts(definitions: &Definitions, spec: bool, r: u32, operands: &[Operand]) -> bool
    ensures { IsTrue result ↔ ((found.are_typed_parts definitions.now spec r 0 (ids_in (plain_operands operands.now))
        ≡ true) × (count_of definitions.now r ≡ Some (length (ids_in (plain_operands operands.now))))) }
{
    match count(definitions, r) {
        Some(count) => count == id_count(operands) as u64
            && are_typed_parts(definitions, spec, r, operands),
        None => false,
    }
}

/// Whether a composite constant of a type may be made of the ids at the front of the operands.
fn are_constant_parts(definitions: &Definitions, spec: bool, r: u32, operands: &[Operand]) -> bool
    ensures { IsTrue result ↔ AreConstantParts definitions.now spec r (ids_in (plain_operands operands.now)) }
{
    are_all_parts(definitions, spec, r, operands)
}

fn number_fits(definitions: &Definitions, r: u32, operands: &[Operand]) -> bool
    ensures { IsTrue result ↔ Constitutes definitions.now constant_form.Number r (plain_operands operands.now) }
{
    match operands {
        [Operand::Number { low, .. }] => fits_width(definitions, r, *low),
        _ => false,
    }
}

/// Whether a sampler of a type is sound, by what follows its head.
fn samples(definitions: &Definitions, r: u32, operands: &[Operand]) -> bool
    ensures { IsTrue result ↔ Constitutes definitions.now constant_form.Sampler r (plain_operands operands.now) }
{
    match operands {
        [
            Operand::Value { .. },
            Operand::Word(normalized),
            Operand::Value { .. },
        ] => *normalized <= 1 && is_object(definitions, Object::Sampler, r),
        _ => false,
    }
}

/// Whether a constant of a type is sound, by what follows its head.
///
/// An `AllocError` comes only where a growth of memory was refused.
fn constitutes(
    definitions: &Definitions,
    nulls: &mut Nulls,
    constant: Constant,
    r: u32,
    operands: &[Operand],
) -> Result<bool, AllocError>
    requires few { AreFew definitions.now }
    requires nulls { AreNulls definitions.now nulls.old }
    ensures answer { IfOk result (λ b. IsTrue b
        ↔ Constitutes definitions.now constant r (plain_operands operands.now)) }
    ensures nulls { OnOk result (AreNulls definitions.now nulls.new) }
{
    match constant {
        Constant::Bool => Ok(is_bool(definitions, r)),
        Constant::Number => Ok(number_fits(definitions, r, operands)),
        Constant::Composite => Ok(are_constant_parts(definitions, false, r, operands)),
        Constant::SpecComposite => Ok(are_constant_parts(definitions, true, r, operands)),
        Constant::Null => nulls.is_nullable(definitions, r),
        Constant::Sampler => Ok(samples(definitions, r, operands)),
        Constant::PipeStorage => Ok(is_object(definitions, Object::PipeStorage, r)),
    }
}

/// Whether Y4 is unbroken at an instruction.
///
/// An `AllocError` comes only where a growth of memory was refused.
pub fn is_sound_constant(
    definitions: &Definitions,
    nulls: &mut Nulls,
    inst: &Inst,
) -> Result<bool, AllocError>
    requires few { AreFew definitions.now }
    requires nulls { AreNulls definitions.now nulls.old }
    ensures answer { IfOk result (λ b. IsTrue b ↔ IsSoundConstant definitions.now (plain_inst inst.now)) }
    ensures nulls { OnOk result (AreNulls definitions.now nulls.new) }
{
    let operands = inst.operands.as_slice();
    let Some(constant) = constant_of(inst.opcode) else {
        return Ok(true);
    };
    match type_in(operands) {
        Some(r) => constitutes(definitions, nulls, constant, r, after_head(operands)),
        None => Ok(false),
    }
}
