//! What stands beside a condition of Y5 that fails: operands and types.

ghost use Rattle.std.specs.Prelude.{◌≡◌, ◌++◌, IfOk, option_to_list, slice_get};
ghost use Rattle.spv_module.specs.Module.{plain_inst};
ghost use Rattle.spv_operation_evidence.specs.Beside as spec;

use crate::rest::{condition_of, found_of, operand_of, wanted_of};
use spv_conditions::{Asked, Rest, Seat, after_block, front_id, function_type, part_of, type_at};
use spv_evidence::Condition;
use spv_module::Inst;
use spv_readings::{
    Value, inner_of, path_by, read_chosen, read_led, reads, reads_within, with_type,
};
use spv_type_forms::{Definitions, after_head};
use std::alloc::{AllocError, Global};

/// The result type, if there is one, and the types of all values.
fn all_types(alloc: Global, r: Option<u32>, types: &[u32]) -> Result<Vec<u32>, AllocError>
    ensures { IfOk result (λ v. v.items ≡ option_to_list r ++ types.now) }
{
    let mut read = with_type(Vec::new(alloc), r)?;
    for t in types {
        read.push(*t)?;
    }
    Ok(read)
}

/// A condition of Y5 by its name.
pub fn condition_in(asked: Asked) -> Condition
    ensures { result ≡ spec.condition_in asked }
{
    match asked {
        Asked::Operands { .. } => Condition::Operands,
        Asked::Kind { kind, .. } => Condition::Kind(kind),
        Asked::Relation { relation, .. } => Condition::Relation(relation),
        Asked::Rest(rest) => condition_of(rest),
    }
}

/// The number of the operand whose type is looked at.
pub fn number_at(values: &[Value], seat: Seat) -> Option<u32>
    ensures { result ≡ spec.number_at values.now seat }
{
    match seat {
        Seat::Result => Some(0),
        Seat::Value(k) => match values.get(k as usize) {
            Some(value) => Some(value.operand),
            None => None,
        },
    }
}

/// The number of the operand at which a condition fails.
pub fn operand_in(
    definitions: &Definitions,
    inst: &Inst,
    values: &[Value],
    asked: Asked,
) -> Option<u32>
    ensures { result ≡ spec.operand_in definitions.now (plain_inst inst.now) values.now asked }
{
    match asked {
        Asked::Kind { of, .. } | Asked::Relation { of, .. } => number_at(values, of),
        Asked::Operands { .. } => None,
        Asked::Rest(rest) => operand_of(definitions, inst, values, rest),
    }
}

/// The type that is found.
pub fn found_in(
    definitions: &Definitions,
    inst: &Inst,
    r: Option<u32>,
    types: &[u32],
    asked: Asked,
) -> Option<u32>
    ensures { result ≡ spec.found_in definitions.now (plain_inst inst.now) r types.now asked }
{
    match asked {
        Asked::Kind { of, .. } | Asked::Relation { of, .. } => type_at(r, types, of),
        Asked::Operands { .. } => None,
        Asked::Rest(rest) => found_of(definitions, inst, r, types, rest),
    }
}

/// The type that is wanted, where the condition compares two.
pub fn wanted_in(
    definitions: &Definitions,
    inst: &Inst,
    r: Option<u32>,
    types: &[u32],
    asked: Asked,
) -> Option<u32>
    ensures { result ≡ spec.wanted_in definitions.now (plain_inst inst.now) r types.now asked }
{
    match asked {
        Asked::Relation { to, .. } => type_at(r, types, to),
        Asked::Kind { .. } | Asked::Operands { .. } => None,
        Asked::Rest(rest) => wanted_of(definitions, inst, r, types, rest),
    }
}

/// The types along the path of the indexes from the type of a value.
fn path_from(
    alloc: Global,
    definitions: &Definitions,
    inst: &Inst,
    types: &[u32],
    from: u32,
) -> Result<Vec<u32>, AllocError>
    ensures { IfOk result (λ v. v.items
        ≡ spec.path_from definitions.now (plain_inst inst.now) types.now from) }
{
    match type_at(None, types, Seat::Value(from)) {
        Some(t) => path_by(alloc, definitions, t, inst.operands.as_slice()),
        None => Ok(Vec::new(alloc)),
    }
}

/// The result type, if there is one, the type of the value of a number, and one more if there is one.
fn with_part(
    alloc: Global,
    r: Option<u32>,
    types: &[u32],
    k: u32,
    part: Option<u32>,
) -> Result<Vec<u32>, AllocError>
    ensures { IfOk result (λ v. v.items
        ≡ option_to_list r ++ option_to_list (slice_get types.now k) ++ option_to_list part) }
{
    let read = with_type(Vec::new(alloc), r)?;
    let read = with_type(read, type_at(r, types, Seat::Value(k)))?;
    with_type(read, part)
}

/// The function type of the block whose first value has a number.
fn function_type_at(definitions: &Definitions, inst: &Inst, k: u32) -> Option<u32>
    ensures { result ≡ spec.function_type_at definitions.now (plain_inst inst.now) k }
{
    function_type(
        definitions,
        front_id(after_head(inst.operands.as_slice()), k)?,
    )
}

/// That, and the type of the first value of the block.
fn block_types(
    alloc: Global,
    definitions: &Definitions,
    inst: &Inst,
    types: &[u32],
    k: u32,
) -> Result<Vec<u32>, AllocError>
    ensures { IfOk result (λ v. v.items
        ≡ option_to_list (spec.function_type_at definitions.now (plain_inst inst.now) k)
        ++ option_to_list (slice_get types.now k)) }
{
    let read = with_type(Vec::new(alloc), function_type_at(definitions, inst, k))?;
    with_type(read, type_at(None, types, Seat::Value(k)))
}

/// The types that something else reads.
fn read_of(
    alloc: Global,
    definitions: &Definitions,
    inst: &Inst,
    r: Option<u32>,
    types: &[u32],
    rest: Rest,
) -> Result<Vec<u32>, AllocError>
    ensures { IfOk result (λ v. v.items
        ≡ spec.read_of definitions.now (plain_inst inst.now) r types.now rest) }
{
    match rest {
        Rest::InitializerType => reads_within(
            alloc,
            definitions,
            r,
            inner_of(definitions, r),
            type_at(r, types, Seat::Value(0)),
        ),
        Rest::Chosen { element, index } => {
            read_chosen(alloc, definitions, inst, types, element, index as usize)
        }
        Rest::Leads { element } => read_led(alloc, definitions, inst, r, types, element),
        Rest::Component | Rest::Filled | Rest::ImageOperands(_) => all_types(alloc, r, types),
        Rest::Packed => {
            let found = type_at(r, types, Seat::Value(0));
            reads_within(alloc, definitions, r, None, found)
        }
        Rest::Share(k) => with_part(alloc, r, types, k, inner_of(definitions, r)),
        Rest::Part(k) => with_part(alloc, r, types, k, part_of(definitions, r, k)),
        Rest::Within { from } => path_from(alloc, definitions, inst, types, from),
        Rest::Reached { of, from } => {
            let read = path_from(alloc, definitions, inst, types, from)?;
            with_type(read, type_at(r, types, of))
        }
        Rest::Block(k) => block_types(alloc, definitions, inst, types, k),
        Rest::LocalSizes(k) => all_types(alloc, None, after_block(types, k)),
        Rest::Locals(k) => with_type(Vec::new(alloc), function_type_at(definitions, inst, k)),
        _ => {
            let wanted = wanted_of(definitions, inst, r, types, rest);
            let found = found_of(definitions, inst, r, types, rest);
            reads(alloc, definitions, wanted, found)
        }
    }
}

/// The types that a condition reads.
///
/// The error comes when out of memory.
pub fn read_in(
    alloc: Global,
    definitions: &Definitions,
    inst: &Inst,
    r: Option<u32>,
    types: &[u32],
    asked: Asked,
) -> Result<Vec<u32>, AllocError>
    ensures { IfOk result (λ v. v.items
        ≡ spec.read_in definitions.now (plain_inst inst.now) r types.now asked) }
{
    match asked {
        Asked::Rest(rest) => read_of(alloc, definitions, inst, r, types, rest),
        _ => {
            let wanted = wanted_in(definitions, inst, r, types, asked);
            let found = found_in(definitions, inst, r, types, asked);
            reads(alloc, definitions, wanted, found)
        }
    }
}
