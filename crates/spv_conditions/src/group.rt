//! What stands among the operands of an instruction in any place: enumerants, and constants.

ghost use Rattle.std.specs.Prelude.{◌≡◌, ◌≤◌, ◌⊎◌, ◌↔◌, Option, Some, IsTrue, IsSomeAnd, length, slice_get};
ghost use Rattle.spv_module.specs.Module.{plain_inst, plain_operands};
ghost use Rattle.spv_type_forms.specs.Definitions.{IsConstant};
ghost use Rattle.spv_conditions.specs.Group as spec;

use crate::kind::is_int_of_32;
use crate::seat::{Seat, type_at};
use spv_module::{Inst, Operand};
use spv_type_forms::{Definitions, Form, Scalar, is_constant, is_int};

/// The first enumerant among operands.
pub fn enumerant(operands: &[Operand]) -> Option<u32>
    ensures { result ≡ spec.enumerant_in (plain_operands operands.now) }
{
    for operand in operands {
        if let Operand::Value { value, .. } = operand {
            return Some(*value);
        }
    }
    None
}

/// The id of a number among operands, from 0.
pub fn id_at(operands: &[Operand], k: u32) -> Option<u32>
    ensures { result ≡ slice_get (spec.all_ids_in (plain_operands operands.now)) k }
{
    let mut left = k;
    for operand in operands {
        if let Operand::Id(x) = operand {
            if left == 0 {
                return Some(*x);
            }
            left -= 1;
        }
    }
    None
}

/// Whether the group operation is a reduction or a scan of the whole group.
pub fn is_scan(inst: &Inst) -> bool
    ensures { IsTrue result ↔ spec.IsScan (plain_inst inst.now) }
{
    match enumerant(inst.operands.as_slice()) {
        Some(operation) => operation <= 2,
        None => false,
    }
}

/// Whether there are so many values as a group operation takes.
fn takes(operation: u32, types: &[u32]) -> bool
    ensures { IsTrue result ↔ (((operation ≤ 2) × (length types.now ≡ 2))
        ⊎ ((operation ≡ 3) × (length types.now ≡ 3))) }
{
    match operation {
        0 | 1 | 2 => types.len() == 2,
        3 => types.len() == 3,
        _ => false,
    }
}

/// Whether there are so many values as the group operation takes.
pub fn has_clusters(inst: &Inst, types: &[u32]) -> bool
    ensures { IsTrue result ↔ spec.HasClusters (plain_inst inst.now) (length types.now) }
{
    match enumerant(inst.operands.as_slice()) {
        Some(operation) => takes(operation, types),
        None => false,
    }
}

/// Whether the value of a number is a constant.
pub fn is_constant_at(definitions: &Definitions, inst: &Inst, k: u32) -> bool
    ensures { IsTrue result ↔ spec.IsConstantAt definitions.now (plain_inst inst.now) k }
{
    match id_at(inst.operands.as_slice(), k) {
        Some(x) => is_constant(definitions, x),
        None => false,
    }
}

/// Whether the size of the clusters, if it is there, is a constant of int type.
pub fn is_cluster_size(definitions: &Definitions, inst: &Inst, types: &[u32]) -> bool
    ensures { IsTrue result ↔ spec.IsClusterSize definitions.now (plain_inst inst.now) types.now }
{
    match type_at(None, types, Seat::Value(2)) {
        Some(t) => is_int(definitions, t) && is_constant_at(definitions, inst, 2),
        None => true,
    }
}

/// The width of an int type.
fn int_width(definitions: &Definitions, t: u32) -> Option<u32>
    ensures { result ≡ spec.int_width_of definitions.now t }
{
    match definitions.form(t)? {
        Form::Scalar(Scalar::Int(width)) => Some(width),
        _ => None,
    }
}

/// The width of the ints of a vector.
fn part_width(definitions: &Definitions, t: u32) -> Option<u32>
    ensures { result ≡ spec.part_width_of definitions.now t }
{
    match definitions.form(t)? {
        Form::Vector { component, .. } => int_width(definitions, component),
        _ => None,
    }
}

/// Whether a type is a vector of ints that are no wider than another type, an int.
fn is_no_wider(definitions: &Definitions, r: u32, o: u32) -> bool
    ensures { IsTrue result ↔ spec.IsNoWider definitions.now r o }
{
    match (part_width(definitions, o), int_width(definitions, r)) {
        (Some(width), Some(most)) => width <= most,
        _ => false,
    }
}

/// Whether a type is that of the first operand of a dot product, where there is a packed vector format, or none.
fn is_packed_by(definitions: &Definitions, format: Option<u32>, r: u32, o: u32) -> bool
    ensures { IsTrue result ↔ spec.IsPacked definitions.now format r o }
{
    match format {
        Some(_) => is_int_of_32(definitions, o),
        None => is_no_wider(definitions, r, o),
    }
}

/// Whether the type of the first value is that of the first operand of a dot product.
pub fn is_packed(definitions: &Definitions, inst: &Inst, r: Option<u32>, types: &[u32]) -> bool
    ensures { IsTrue result ↔ IsSomeAnd (slice_get types.now 0) (λ o. IsSomeAnd r (λ t.
        spec.IsPacked definitions.now (spec.enumerant_in (plain_inst inst.now).operands) t o)) }
{
    match (type_at(None, types, Seat::Value(0)), r) {
        (Some(o), Some(t)) => {
            let format = enumerant(inst.operands.as_slice());
            is_packed_by(definitions, format, t, o)
        }
        _ => false,
    }
}
