//! Evidence for Y4.

ghost use Rattle.std.specs.Prelude.{◌≡◌, ◌≤◌, ◌+◌, ◌↔◌, ℕ, IfOk, Some, IsTrue, length, slice_get};
ghost use Rattle.spv_table.specs.Table.{Table};
ghost use Rattle.spv_module.specs.declared.fault.Rule.TheVariants.{Y4};
ghost use Rattle.spv_module.specs.Module.{plain_inst, plain_operands};
ghost use Rattle.spv_layout.specs.Place.{AreFew};
ghost use Rattle.spv_type_kinds.specs.Operands as of_operands;
ghost use Rattle.spv_type_kinds.specs.Operands.{ids_in};
ghost use Rattle.spv_type_forms.specs.Form.{form_of};
ghost use Rattle.spv_type_forms.specs.Null.{IsNullable};
ghost use Rattle.spv_type_forms.specs.Parts.{count_of};
ghost use Rattle.spv_type_rules.specs.inner.Constant.{IsSoundConstant};
ghost use Rattle.spv_type_rules.specs.declared.constant.Constant.TheVariants as kind;
ghost use Rattle.spv_ids.specs.Outcome.{IsDefinitionOf, definition_in};
ghost use Rattle.spv_type_evidence.specs.types.Constant as spec;
ghost use Rattle.spv_type_evidence.specs.types.Constant.{Asks, AsksOf, AsksParts, IsPartOf};
ghost use Rattle.spv_type_evidence.specs.types.Evidence.{Shows};
ghost use Rattle.spv_type_evidence.specs.types.inner.First.{IsFirstOf};

use crate::types::operands::{low_in, normalized_in};
use spv_evidence::{Condition, Evidence, Kind, Listed};
use spv_ids::Ids;
use spv_module::{Inst, Operand};
use spv_readings::{defined_by, named_at, reads_within};
use spv_type_forms::{
    Definitions, Form, Nulls, Object, after_head, count, id_count, is_bool, is_number, is_object,
    parts_of, type_in,
};
use spv_type_rules::{Constant, constant_of, fits_width, is_typed_part};
use std::alloc::{AllocError, Global};

/// Whether a type has as many parts as ids stand at the front of the operands.
fn has_count(definitions: &Definitions, r: u32, operands: &[Operand]) -> bool
    ensures { IsTrue result ↔ (count_of definitions.now r ≡ Some (length (ids_in (plain_operands operands.now)))) }
{
    match count(definitions, r) {
        Some(count) => count == id_count(operands) as u64,
        None => false,
    }
}

/// The operand of the first of the ids at the front that is no constant of the type at its place in the type `r`, if
/// one is such. The first id is operand 2.
fn first_no_part(definitions: &Definitions, spec: bool, r: u32, operands: &[Operand]) -> Option<u32>
    requires { AreFew (ids_in (plain_operands operands.now)) }
    ensures { let xs = ids_in (plain_operands operands.now) in
        IsFirstOf (λ k. (j x : ℕ) → k ≡ 2 + j → slice_get xs j ≡ Some x
        → IsPartOf definitions.now spec r j x) result }
{
    let parts = parts_of(definitions, r);
    for k in 0..operands.len() {
        let Operand::Id(x) = operands[k] else {
            return None;
        };
        if !is_typed_part(definitions, spec, parts.at(k), x) {
            return Some(2 + k as u32);
        }
    }
    None
}

/// Where a composite constant of the type `r` first fails, if it does.
fn first_of_parts(
    definitions: &Definitions,
    spec: bool,
    r: u32,
    operands: &[Operand],
) -> Option<u32>
    requires { AreFew (ids_in (plain_operands operands.now)) }
    ensures { IsFirstOf (AsksParts definitions.now spec r (ids_in (plain_operands operands.now))) result }
{
    if has_count(definitions, r, operands) {
        first_no_part(definitions, spec, r, operands)
    } else {
        Some(0)
    }
}

/// Where an OpConstant of the type `r` first fails, if it does.
fn first_of_number(definitions: &Definitions, r: u32, operands: &[Operand]) -> Option<u32>
    ensures { IsFirstOf (AsksOf definitions.now kind.Number r (plain_operands operands.now)) result }
{
    let Some(low) = low_in(operands) else {
        return Some(0);
    };
    if !is_number(definitions, r) {
        Some(0)
    } else if !fits_width(definitions, r, low) {
        Some(2)
    } else {
        None
    }
}

/// Where an OpConstantSampler of the type `r` first fails, if it does.
fn first_of_sampler(definitions: &Definitions, r: u32, operands: &[Operand]) -> Option<u32>
    ensures { IsFirstOf (AsksOf definitions.now kind.Sampler r (plain_operands operands.now)) result }
{
    let Some(normalized) = normalized_in(operands) else {
        return Some(0);
    };
    if !is_object(definitions, Object::Sampler, r) {
        Some(0)
    } else if normalized > 1 {
        Some(3)
    } else {
        None
    }
}

/// Operand 0, unless what is asked of it holds.
fn first_unless(holds: bool) -> Option<u32>
    ensures { IsFirstOf (λ k. k ≡ 0 → IsTrue holds) result }
{
    if holds { None } else { Some(0) }
}

/// Where an OpConstantNull of the type `r` fails, if it does.
///
/// The error comes when out of memory.
fn first_of_null(
    alloc: Global,
    definitions: &Definitions,
    r: u32,
) -> Result<Option<u32>, AllocError>
    requires { AreFew definitions.now }
    ensures { IfOk result (λ o. IsFirstOf (λ k. k ≡ 0 → IsNullable definitions.now r) o) }
{
    let mut nulls = Nulls::new(alloc);
    let nullable = nulls.is_nullable(definitions, r)?;
    Ok(first_unless(nullable))
}

/// Where a constant of the type `r` first fails, if it does, by what follows the type and the result.
///
/// The error comes when out of memory.
fn first_failing(
    alloc: Global,
    definitions: &Definitions,
    constant: Constant,
    r: u32,
    operands: &[Operand],
) -> Result<Option<u32>, AllocError>
    requires insts { AreFew definitions.now }
    requires few { AreFew (ids_in (plain_operands operands.now)) }
    ensures { IfOk result (λ o. IsFirstOf (AsksOf definitions.now constant r (plain_operands operands.now)) o) }
{
    match constant {
        Constant::Bool => Ok(first_unless(is_bool(definitions, r))),
        Constant::Number => Ok(first_of_number(definitions, r, operands)),
        Constant::Composite => Ok(first_of_parts(definitions, false, r, operands)),
        Constant::SpecComposite => Ok(first_of_parts(definitions, true, r, operands)),
        Constant::Null => first_of_null(alloc, definitions, r),
        Constant::Sampler => Ok(first_of_sampler(definitions, r, operands)),
        Constant::PipeStorage => Ok(first_unless(is_object(definitions, Object::PipeStorage, r))),
    }
}

/// The operand at which a constant first fails, if it does.
///
/// The error comes when out of memory.
fn first_of_constant(
    alloc: Global,
    definitions: &Definitions,
    constant: Constant,
    operands: &[Operand],
) -> Result<Option<u32>, AllocError>
    requires insts { AreFew definitions.now }
    requires few { AreFew (ids_in (of_operands.after_head (plain_operands operands.now))) }
    ensures { IfOk result (λ o. IsFirstOf (Asks definitions.now constant (plain_operands operands.now)) o) }
{
    match type_in(operands) {
        Some(r) => first_failing(alloc, definitions, constant, r, after_head(operands)),
        None => Ok(Some(0)),
    }
}

/// What is asked of an operand, by its name.
fn condition_at(constant: Constant, operand: u32) -> Condition
    ensures { result ≡ spec.condition_at constant operand }
{
    let head = operand == 0;
    match constant {
        Constant::Bool => Condition::Kind(Kind::Bool),
        Constant::Number => if head {
            Condition::Kind(Kind::Number)
        } else {
            Condition::FitsWidth
        },
        Constant::Composite | Constant::SpecComposite => {
            if head {
                Condition::Count
            } else {
                Condition::Constituent
            }
        }
        Constant::Null => Condition::Kind(Kind::Data),
        Constant::Sampler => if head {
            Condition::Kind(Kind::Object(Object::Sampler))
        } else {
            Condition::Normalized
        },
        Constant::PipeStorage => Condition::Kind(Kind::Object(Object::PipeStorage)),
    }
}

/// What is asked of the type of a null value: it is a data type, or where it is the type of objects, an array or a
/// struct, one that has a null value.
fn null_condition(definitions: &Definitions, r: u32) -> Condition
    ensures { result ≡ spec.null_condition (form_of definitions.now r) }
{
    match definitions.form(r) {
        Some(Form::Object(_) | Form::Array { .. } | Form::Struct) => Condition::Nullable,
        _ => Condition::Kind(Kind::Data),
    }
}

/// What is asked of an operand of an instruction, by its name.
fn condition_in(
    definitions: &Definitions,
    constant: Constant,
    inst: &Inst,
    operand: u32,
) -> Condition
    ensures { result ≡ spec.condition_in definitions.now constant (plain_inst inst.now) operand }
{
    match constant {
        Constant::Null => match type_in(inst.operands.as_slice()) {
            Some(r) => null_condition(definitions, r),
            None => Condition::Kind(Kind::Data),
        },
        _ => condition_at(constant, operand),
    }
}

/// Whether an operand is a constituent of a composite constant.
fn is_constituent(constant: Constant, operand: u32) -> bool
    ensures { result ≡ spec.is_constituent constant operand }
{
    match constant {
        Constant::Composite | Constant::SpecComposite => 2 <= operand,
        _ => false,
    }
}

/// The type that is found: a constituent's, else the result type.
fn found_at(definitions: &Definitions, constant: Constant, inst: &Inst, operand: u32) -> Option<u32>
    ensures { result ≡ spec.found_at definitions.now constant (plain_inst inst.now) operand }
{
    if is_constituent(constant, operand) {
        definitions.type_of(named_at(inst, Some(operand))?)
    } else {
        type_in(inst.operands.as_slice())
    }
}

/// The type that is wanted of a constituent: that of the part at its place.
fn wanted_at(
    definitions: &Definitions,
    constant: Constant,
    inst: &Inst,
    operand: u32,
) -> Option<u32>
    ensures { result ≡ spec.wanted_at definitions.now constant (plain_inst inst.now) operand }
{
    if is_constituent(constant, operand) {
        let r = type_in(inst.operands.as_slice())?;
        parts_of(definitions, r).at((operand - 2) as usize)
    } else {
        None
    }
}

/// The composite whose part a constituent is to be: the result type.
fn composite_at(constant: Constant, inst: &Inst, operand: u32) -> Option<u32>
    ensures { result ≡ spec.composite_at constant (plain_inst inst.now) operand }
{
    if is_constituent(constant, operand) {
        type_in(inst.operands.as_slice())
    } else {
        None
    }
}

/// What shows that Y4 is broken at an instruction: the operand at which the constant first fails, what is asked of it,
/// the types that are wanted and found, and those that are read.
///
/// The error comes when out of memory.
pub fn constant_evidence(
    alloc: Global,
    definitions: &Definitions,
    ids: &Ids,
    inst: &Inst,
) -> Result<Evidence, AllocError>
    requires ids { (x : ℕ) → IsDefinitionOf definitions.now x (definition_in ids.now x) }
    requires insts { AreFew definitions.now }
    requires few { AreFew (ids_in (of_operands.after_head (plain_inst inst.now).operands)) }
    requires broken { ¬ (IsSoundConstant definitions.now (plain_inst inst.now)) }
    ensures { IfOk result (λ e. (G : Table) (n : ℕ) → Shows G definitions.now n (plain_inst inst.now) Y4 e) }
{
    let Some(constant) = constant_of(inst.opcode) else {
        unreachable!();
    };
    let operands = inst.operands.as_slice();
    let Some(operand) = first_of_constant(alloc, definitions, constant, operands)? else {
        unreachable!();
    };
    let wanted = wanted_at(definitions, constant, inst, operand);
    let found = found_at(definitions, constant, inst, operand);
    let composite = composite_at(constant, inst, operand);
    let types = reads_within(alloc, definitions, composite, wanted, found)?;
    Ok(Evidence::Condition {
        condition: condition_in(definitions, constant, inst, operand),
        operand: Some(operand),
        defined: defined_by(ids, inst, Some(operand)),
        wanted,
        found,
        types: Listed::from_vec(types),
    })
}
