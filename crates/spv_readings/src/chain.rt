//! The types that are read where the indexes of an access chain are followed.

ghost use Rattle.std.specs.Prelude.{◌≡◌, ◌++◌, IfOk, option_and_then, option_map, take};
ghost use Rattle.spv_module.specs.Module.{plain_inst, plain_operands};
ghost use Rattle.spv_type_forms.specs.Form.{form_of};
ghost use Rattle.spv_type_forms.specs.Types.{pointee_in};
ghost use Rattle.spv_type_kinds.specs.Operands.{ids_in};
ghost use Rattle.spv_type_kinds.specs.Operands as of_operands;
ghost use Rattle.spv_conditions.specs.Chain as chain;
ghost use Rattle.spv_readings.specs.Chain as spec;

use crate::reading::with_type;
use spv_conditions::{Seat, base_in, chosen, front, indexes_of, type_at};
use spv_module::{Inst, Operand};
use spv_type_forms::Definitions;
use std::alloc::{AllocError, Global};

/// Types, and those of the parts that indexes choose, up to the first that chooses none.
fn with_steps(
    definitions: &Definitions,
    begun: Vec<u32>,
    indexes: &[Operand],
    t: u32,
) -> Result<Vec<u32>, AllocError>
    ensures { IfOk result (λ v. v.items
        ≡ begun.items ++ spec.steps_from definitions.now (ids_in (plain_operands indexes.now)) t) }
{
    let mut types = begun;
    let mut at = t;
    for operand in indexes {
        let Operand::Id(x) = operand else {
            return Ok(types);
        };
        let Some(next) = chosen(definitions, at, *x) else {
            return Ok(types);
        };
        types.push(next)?;
        at = next;
    }
    Ok(types)
}

/// Types, and those on the way of indexes from what a base points to.
fn with_path(
    definitions: &Definitions,
    types: Vec<u32>,
    base: Option<u32>,
    indexes: Option<&[Operand]>,
) -> Result<Vec<u32>, AllocError>
    ensures { IfOk result (λ v. v.items ≡ types.items ++ spec.path_of definitions.now base
        (option_map (λ os. ids_in (plain_operands os.now)) indexes.entry)) }
{
    let Some(t) = base else {
        return Ok(types);
    };
    let Some(indexes) = indexes else {
        return Ok(types);
    };
    let types = with_type(types, Some(t))?;
    with_steps(definitions, types, indexes, t)
}

/// The first indexes, as many as asked for.
fn indexes_by<'i, 'a>(inst: &'i Inst<'a>, element: bool, count: usize) -> Option<&'i [Operand<'a>]>
    ensures { option_map (λ os. ids_in (plain_operands os.now)) result ≡ option_map (take count)
        (chain.indexes_in element (ids_in (of_operands.after_head (plain_inst inst.now).operands))) }
{
    Some(front(indexes_of(inst, element)?, count))
}

/// The types that are read where the first indexes are followed.
///
/// The error comes when out of memory.
pub fn read_chosen(
    alloc: Global,
    definitions: &Definitions,
    inst: &Inst,
    types: &[u32],
    element: bool,
    count: usize,
) -> Result<Vec<u32>, AllocError>
    ensures { IfOk result (λ v. v.items ≡ spec.read_chosen definitions.now element
        (ids_in (of_operands.after_head (plain_inst inst.now).operands)) types.now count) }
{
    let read = with_type(Vec::new(alloc), type_at(None, types, Seat::Value(0)))?;
    let base = base_in(definitions, types);
    with_path(definitions, read, base, indexes_by(inst, element, count))
}

/// What a type points to, if there is one.
fn pointee_of(definitions: &Definitions, t: Option<u32>) -> Option<u32>
    ensures { result ≡ option_and_then (λ u. pointee_in (form_of definitions.now u)) t }
{
    definitions.pointee(t?)
}

/// The types that are read where all indexes are followed, and the result type is looked at.
///
/// The error comes when out of memory.
pub fn read_led(
    alloc: Global,
    definitions: &Definitions,
    inst: &Inst,
    r: Option<u32>,
    types: &[u32],
    element: bool,
) -> Result<Vec<u32>, AllocError>
    ensures { IfOk result (λ v. v.items ≡ spec.read_led definitions.now element
        (ids_in (of_operands.after_head (plain_inst inst.now).operands)) r types.now) }
{
    let read = with_type(Vec::new(alloc), r)?;
    let read = with_type(read, type_at(r, types, Seat::Value(0)))?;
    let base = base_in(definitions, types);
    let read = with_path(definitions, read, base, indexes_of(inst, element))?;
    with_type(read, pointee_of(definitions, r))
}
