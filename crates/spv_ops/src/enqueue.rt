//! What OpEnqueueKernel asks.

ghost use Rattle.std.specs.Prelude.{◌≡◌, ◌-◌, ◌↔◌, IsTrue, IsSomeAnd, drop, length};
ghost use Rattle.std.specs.List.{AllByRecursion};
ghost use Rattle.spv_module.specs.Module.{plain_operands};
ghost use Rattle.spv_module.specs.Width.{type_of};
ghost use Rattle.spv_type_kinds.specs.Operands.{ids_in};
ghost use Rattle.spv_conditions.specs.Condition.{IsOf};
ghost use Rattle.spv_ops.specs.inner.Enqueue as spec;

use spv_conditions::{Kind, are_taken, front_id, invoked_of, is_local_size, is_of, takes};
use spv_module::Operand;
use spv_type_forms::{Definitions, Object, id_count};

/// Whether an id is declared with a type of a kind.
fn is_typed_of(definitions: &Definitions, kind: Kind, x: u32) -> bool
    ensures { IsTrue result ↔ IsSomeAnd (type_of definitions.now x) (IsOf definitions.now kind) }
{
    match definitions.type_of(x) {
        Some(t) => is_of(definitions, kind, t),
        None => false,
    }
}

/// Whether the id of a number at the front of the operands is declared with a type of a kind.
fn is_of_kind(definitions: &Definitions, operands: &[Operand], kind: Kind, k: u32) -> bool
    ensures { IsTrue result ↔ spec.IsOfKind definitions.now (ids_in (plain_operands operands.now)) kind k }
{
    match front_id(operands, k) {
        Some(x) => is_typed_of(definitions, kind, x),
        None => false,
    }
}

/// Whether an id is declared with the type of a size of local memory.
fn is_of_local_size(definitions: &Definitions, x: u32) -> bool
    ensures { IsTrue result ↔ spec.IsOfLocalSize definitions.now x }
{
    match definitions.type_of(x) {
        Some(t) => is_local_size(definitions, t),
        None => false,
    }
}

/// Whether the ids at the front of the operands, past so many, are all declared with such types.
fn are_local_sizes(definitions: &Definitions, operands: &[Operand], before: u32) -> bool
    ensures { IsTrue result
        ↔ AllByRecursion (spec.IsOfLocalSize definitions.now) (drop before (ids_in (plain_operands operands.now))) }
{
    let mut left = before;
    for operand in operands {
        let Operand::Id(x) = operand else {
            return true;
        };
        if left > 0 {
            left -= 1;
        } else if !is_of_local_size(definitions, *x) {
            return false;
        }
    }
    true
}

/// How many ids stand at the front of the operands past the block.
fn count_locals(operands: &[Operand]) -> usize
    ensures { result ≡ length (ids_in (plain_operands operands.now)) - 10 }
{
    let count = id_count(operands);
    if count < 10 { 0 } else { count - 10 }
}

/// Whether a function is that of a block whose first value is x, and takes so many sizes of local memory.
fn is_block_of(definitions: &Definitions, f: u32, x: u32, count: usize) -> bool
    ensures { IsTrue result ↔ spec.IsBlockOf definitions.now f x count }
{
    match (definitions.type_of(x), invoked_of(definitions, f)) {
        (Some(t), Some(signature)) => {
            takes(definitions, t, signature) && are_taken(definitions, count, signature)
        }
        _ => false,
    }
}

/// Whether the seventh id at the front of the operands is the function of a block that follows it.
fn is_block_at(definitions: &Definitions, operands: &[Operand], count: usize) -> bool
    ensures { IsTrue result ↔ spec.IsBlockAt definitions.now (ids_in (plain_operands operands.now)) count }
{
    match (front_id(operands, 6), front_id(operands, 7)) {
        (Some(f), Some(x)) => is_block_of(definitions, f, x, count),
        _ => false,
    }
}

/// Whether a queue, flags, a range and events come before the function.
fn awaits(definitions: &Definitions, operands: &[Operand]) -> bool
    ensures { IsTrue result ↔ spec.Awaits definitions.now (ids_in (plain_operands operands.now)) }
{
    is_of_kind(definitions, operands, Kind::Object(Object::Queue), 0)
        && is_of_kind(definitions, operands, Kind::Int32, 1)
        && is_of_kind(definitions, operands, Kind::Range, 2)
        && is_of_kind(definitions, operands, Kind::Int32, 3)
        && is_of_kind(
            definitions,
            operands,
            Kind::ObjectPointer(Object::DeviceEvent),
            4,
        )
        && is_of_kind(
            definitions,
            operands,
            Kind::ObjectPointer(Object::DeviceEvent),
            5,
        )
}

/// Whether its block follows the function, and then sizes of local memory, as many as it takes.
fn invokes(definitions: &Definitions, operands: &[Operand]) -> bool
    ensures { IsTrue result ↔ spec.Invokes definitions.now (ids_in (plain_operands operands.now)) }
{
    is_of_kind(definitions, operands, Kind::Int8Pointer, 7)
        && is_of_kind(definitions, operands, Kind::Int32, 8)
        && is_of_kind(definitions, operands, Kind::Int32, 9)
        && is_block_at(definitions, operands, count_locals(operands))
        && are_local_sizes(definitions, operands, 10)
}

/// Whether what OpEnqueueKernel asks holds of the result type and the declared types of the ids at the front of the
/// operands, of which the seventh is the function.
pub fn enqueues(definitions: &Definitions, r: u32, operands: &[Operand]) -> bool
    ensures { IsTrue result ↔ spec.Enqueues definitions.now r (ids_in (plain_operands operands.now)) }
{
    is_of(definitions, Kind::Int32, r)
        && awaits(definitions, operands)
        && invokes(definitions, operands)
}
