//! The blocks of device enqueue: a function, a pointer to its captured data, and the size and the alignment of that.

ghost use Rattle.std.specs.Prelude.{◌≡◌, ◌↔◌, Some, IsTrue, IsSomeAnd, option_map, slice_get};
ghost use Rattle.std.specs.List.{AllByRecursion};
ghost use Rattle.spv_module.specs.Module.{plain_inst, plain_operand, plain_operands};
ghost use Rattle.spv_type_kinds.specs.Operands as of_operands;
ghost use Rattle.spv_type_kinds.specs.Operands.{ids_in};
ghost use Rattle.spv_type_forms.specs.Types.{IsSomeInt, pointee_in};
ghost use Rattle.spv_type_forms.specs.declared.form.Form.TheVariants as form;
ghost use Rattle.spv_type_forms.specs.Form.{form_of};
ghost use Rattle.spv_conditions.specs.Block as spec;

use crate::seat::{Seat, type_at};
use spv_module::{Inst, Operand, opcode};
use spv_type_forms::{Definitions, Form, after_head, after_result, is_int};
use spv_type_kinds::function_type_in;

/// The function type of an id, if it is that of an OpFunction.
pub fn function_type(definitions: &Definitions, f: u32) -> Option<u32>
    ensures { result ≡ spec.function_type_of definitions.now f }
{
    function_type_in(definitions.definition(f)?)
}

/// What the function type of an id names, if it is that of an OpFunction: the type that it returns, and those of its
/// parameters.
pub fn invoked_of<'m, 'a>(definitions: &Definitions<'m, 'a>, f: u32) -> Option<&'m [Operand<'a>]>
    ensures { option_map (λ os. plain_operands os.now) result ≡ spec.invoked_of definitions.now f }
{
    let t = function_type(definitions, f)?;
    let inst = definitions.definition(t)?;
    match inst.opcode {
        opcode::TYPE_FUNCTION => Some(after_result(inst.operands.as_slice())),
        _ => None,
    }
}

/// The id of a number at the front of the operands, from 0.
pub fn front_id(operands: &[Operand], k: u32) -> Option<u32>
    ensures { result ≡ slice_get (ids_in (plain_operands operands.now)) k }
{
    let mut left = k;
    for operand in operands {
        let Operand::Id(x) = operand else {
            return None;
        };
        if left == 0 {
            return Some(*x);
        }
        left -= 1;
    }
    None
}

/// What the function of the block names whose first value has a number.
fn invoked_at<'m, 'a>(
    definitions: &Definitions<'m, 'a>,
    inst: &Inst,
    k: u32,
) -> Option<&'m [Operand<'a>]>
    ensures { option_map (λ os. plain_operands os.now) result ≡ spec.invoked_at definitions.now
        (ids_in (of_operands.after_head (plain_inst inst.now).operands)) k }
{
    invoked_of(
        definitions,
        front_id(after_head(inst.operands.as_slice()), k)?,
    )
}

/// Whether a type is void.
fn is_void(definitions: &Definitions, t: u32) -> bool
    ensures { IsTrue result ↔ (form_of definitions.now t ≡ Some form.Void) }
{
    match definitions.form(t) {
        Some(Form::Void) => true,
        _ => false,
    }
}

/// Whether a function returns void, and its first parameter is of a type.
pub fn takes(definitions: &Definitions, t: u32, signature: &[Operand]) -> bool
    ensures { IsTrue result ↔ spec.Takes definitions.now t (plain_operands signature.now) }
{
    match signature {
        [Operand::Id(r), Operand::Id(p), ..] => is_void(definitions, *r) && *p == t,
        _ => false,
    }
}

/// Whether the id before the value of a number, the first one of a block, is its function.
pub fn is_block(definitions: &Definitions, inst: &Inst, types: &[u32], k: u32) -> bool
    ensures { IsTrue result ↔ spec.IsBlock definitions.now
        (ids_in (of_operands.after_head (plain_inst inst.now).operands)) k types.now }
{
    match (
        type_at(None, types, Seat::Value(k)),
        invoked_at(definitions, inst, k),
    ) {
        (Some(t), Some(signature)) => takes(definitions, t, signature),
        _ => false,
    }
}

/// Whether a type is a pointer to an int.
fn is_int_pointer(definitions: &Definitions, t: u32) -> bool
    ensures { IsTrue result ↔ IsSomeAnd (pointee_in (form_of definitions.now t)) (IsSomeInt definitions.now) }
{
    match definitions.pointee(t) {
        Some(pointee) => is_int(definitions, pointee),
        None => false,
    }
}

/// Whether a type is that of a size of local memory: an int, or a pointer to one.
pub fn is_local_size(definitions: &Definitions, t: u32) -> bool
    ensures { IsTrue result ↔ spec.IsLocalSize definitions.now t }
{
    is_int(definitions, t) || is_int_pointer(definitions, t)
}

/// Whether types are all those of sizes of local memory.
pub fn are_local_sizes(definitions: &Definitions, types: &[u32]) -> bool
    ensures { IsTrue result ↔ AllByRecursion (spec.IsLocalSize definitions.now) types.now }
{
    for value in types {
        if !is_local_size(definitions, *value) {
            return false;
        }
    }
    true
}

/// The types of the values after the block whose first value has a number.
pub fn after_block(types: &[u32], k: u32) -> &[u32]
    ensures { result.now ≡ spec.after_block k types.now }
{
    let start = k as usize + 3;
    if start < types.len() {
        &types[start..]
    } else {
        &[]
    }
}

/// Whether an operand is a pointer type of the storage class Workgroup.
fn is_local(definitions: &Definitions, operand: Operand<'_>) -> bool
    ensures { IsTrue result ↔ spec.IsLocal definitions.now (plain_operand operand.entry) }
{
    match operand {
        Operand::Id(t) => match definitions.form(t) {
            Some(Form::Pointer { class: 4, .. }) => true,
            _ => false,
        },
        _ => false,
    }
}

/// Whether operands are all such types.
fn are_all_local(definitions: &Definitions, operands: &[Operand]) -> bool
    ensures { IsTrue result ↔ AllByRecursion (spec.IsLocal definitions.now) (plain_operands operands.now) }
{
    for operand in operands {
        if !is_local(definitions, *operand) {
            return false;
        }
    }
    true
}

/// Whether so many parameters of a function follow its first, all pointers of the storage class Workgroup.
pub fn are_taken(definitions: &Definitions, count: usize, signature: &[Operand]) -> bool
    ensures { IsTrue result ↔ spec.TakesLocals definitions.now count (plain_operands signature.now) }
{
    match signature {
        [_, _, parameters @ ..] => {
            parameters.len() == count && are_all_local(definitions, parameters)
        }
        _ => false,
    }
}

/// Whether the function of a block has as many of them as there are values after the block.
pub fn are_locals(definitions: &Definitions, inst: &Inst, types: &[u32], k: u32) -> bool
    ensures { IsTrue result ↔ spec.AreLocals definitions.now
        (ids_in (of_operands.after_head (plain_inst inst.now).operands)) k types.now }
{
    match invoked_at(definitions, inst, k) {
        Some(signature) => are_taken(definitions, after_block(types, k).len(), signature),
        None => false,
    }
}
