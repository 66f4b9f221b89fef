//! What stands beside a condition that is no kind of a type and no relation between two.

ghost use Rattle.std.specs.Prelude.{◌≡◌, ◌+◌};
ghost use Rattle.spv_module.specs.Module.{plain_inst};
ghost use Rattle.spv_conditions.specs.Chain as chain;
ghost use Rattle.spv_conditions.specs.Rest.{both_sizes as sizes_spec};
ghost use Rattle.spv_conditions.specs.declared.asked.Rest.TheVariants as rest;
ghost use Rattle.spv_conditions.specs.declared.seat.Seat.TheVariants as seat;
ghost use Rattle.spv_readings.specs.Values.{types_in};
ghost use Rattle.spv_operation_evidence.specs.Beside as spec;

use crate::beside::number_at;
use crate::components::{first_mask, first_odd};
use spv_conditions::{
    Rest, Seat, both_sizes, first_index, led_by, led_to, part_of, reached_in, stop_at, type_at,
};
use spv_evidence::Condition;
use spv_module::Inst;
use spv_readings::{Value, inner_of};
use spv_type_forms::Definitions;

/// The number of the operand that is the index of no part, from the type of a value on.
fn stop_in(definitions: &Definitions, inst: &Inst, values: &[Value], from: u32) -> Option<u32>
    ensures { result ≡ spec.operand_of definitions.now (plain_inst inst.now) values.now (rest.Within from) }
{
    let value = values.get(from as usize)?;
    stop_at(definitions, value.of, inst.operands.as_slice())
}

/// Its name.
pub fn condition_of(rest: Rest) -> Condition
    ensures { result ≡ spec.condition_of rest }
{
    match rest {
        Rest::Weights => Condition::Weights,
        Rest::StorageClass => Condition::StorageClass,
        Rest::ClassHere => Condition::ClassHere,
        Rest::Initializer => Condition::Initializer,
        Rest::InitializerType => Condition::InitializerType,
        Rest::Chosen { .. } => Condition::Chosen,
        Rest::Leads { .. } => Condition::Leads,
        Rest::Indexes => Condition::Indexes,
        Rest::Within { .. } => Condition::Within,
        Rest::Reached { .. } => Condition::Reached,
        Rest::ComponentCount => Condition::ComponentCount,
        Rest::Component => Condition::Component,
        Rest::Several => Condition::Several,
        Rest::Share(_) => Condition::Share,
        Rest::Filled => Condition::Filled,
        Rest::Count => Condition::Count,
        Rest::Part(_) => Condition::Part,
        Rest::CastClass => Condition::CastClass,
        Rest::Scan => Condition::Scan,
        Rest::Cluster => Condition::Cluster,
        Rest::ClusterSize => Condition::ClusterSize,
        Rest::Constant(_) => Condition::Constant,
        Rest::Packed => Condition::Packed,
        Rest::ImageMask(_) => Condition::ImageMask,
        Rest::ImageSample => Condition::ImageSample,
        Rest::ImageSign(_) => Condition::ImageSign,
        Rest::ImageOperands(_) => Condition::ImageOperands,
        Rest::Extended => Condition::Extended,
        Rest::ModeIds => Condition::ModeIds,
        Rest::DecorationIds => Condition::DecorationIds,
        Rest::Texts => Condition::Texts,
        Rest::Group => Condition::Group,
        Rest::NoMoreGroups => Condition::NoMoreGroups,
        Rest::Members => Condition::Members,
        Rest::Block(_) => Condition::Block,
        Rest::LocalSizes(_) => Condition::LocalSizes,
        Rest::Locals(_) => Condition::Locals,
    }
}

/// How many components the first two values, vectors, have together.
fn both_sizes_of(definitions: &Definitions, values: &[Value]) -> u64
    ensures { result ≡ sizes_spec definitions.now (types_in values.now) }
{
    match values {
        [first, second, ..] => both_sizes(definitions, &[first.of, second.of]),
        _ => 0,
    }
}

/// The number of the operand that is an index.
fn index_operand(values: &[Value], element: bool, index: u32) -> Option<u32>
    ensures { result ≡ spec.number_at values.now (seat.Value (chain.first_index element + index)) }
{
    match values.get(first_index(element) as usize + index as usize) {
        Some(value) => Some(value.operand),
        None => None,
    }
}

/// The number of the operand before a value.
fn number_before(values: &[Value], k: u32) -> Option<u32>
    ensures { result ≡ spec.number_before values.now k }
{
    match number_at(values, Seat::Value(k)) {
        Some(number) => Some(number.saturating_sub(1)),
        None => None,
    }
}

/// The number of the operand at which it fails.
pub fn operand_of(
    definitions: &Definitions,
    inst: &Inst,
    values: &[Value],
    rest: Rest,
) -> Option<u32>
    ensures { result ≡ spec.operand_of definitions.now (plain_inst inst.now) values.now rest }
{
    match rest {
        Rest::Weights | Rest::Initializer | Rest::InitializerType => Some(3),
        Rest::CastClass | Rest::Scan | Rest::Cluster => Some(3),
        Rest::StorageClass | Rest::ClassHere | Rest::Extended => Some(2),
        Rest::Chosen { element, index } => index_operand(values, element, index),
        Rest::Leads { .. } | Rest::Group => Some(0),
        Rest::Indexes => None,
        Rest::Within { from } => stop_in(definitions, inst, values, from),
        Rest::Reached { of, .. } => number_at(values, of),
        Rest::ComponentCount | Rest::Several | Rest::Filled | Rest::Count => Some(0),
        Rest::Share(k) | Rest::Part(k) | Rest::Constant(k) => number_at(values, Seat::Value(k)),
        Rest::ClusterSize => number_at(values, Seat::Value(2)),
        Rest::Packed | Rest::ImageSample => number_at(values, Seat::Value(0)),
        Rest::ImageSign(of) => number_at(values, of),
        Rest::ImageMask(_) | Rest::ImageOperands(_) => first_mask(inst.operands.as_slice()),
        Rest::ModeIds | Rest::DecorationIds | Rest::Texts => None,
        Rest::NoMoreGroups | Rest::Members | Rest::LocalSizes(_) => None,
        Rest::Block(k) | Rest::Locals(k) => number_before(values, k),
        Rest::Component => first_odd(both_sizes_of(definitions, values), inst.operands.as_slice()),
    }
}

/// The type that is found.
pub fn found_of(
    definitions: &Definitions,
    inst: &Inst,
    r: Option<u32>,
    types: &[u32],
    rest: Rest,
) -> Option<u32>
    ensures { result ≡ spec.found_of definitions.now (plain_inst inst.now) r types.now rest }
{
    match rest {
        Rest::StorageClass | Rest::CastClass | Rest::Leads { .. } | Rest::Extended => r,
        Rest::InitializerType => type_at(r, types, Seat::Value(0)),
        Rest::Chosen { element, index } => {
            led_by(definitions, inst, types, element, index as usize)
        }
        Rest::Within { from } => reached_in(definitions, inst, types, from),
        Rest::Reached { of, .. } | Rest::ImageSign(of) => type_at(r, types, of),
        Rest::ComponentCount | Rest::Several | Rest::Filled | Rest::Count => r,
        Rest::Share(k) | Rest::Part(k) => type_at(r, types, Seat::Value(k)),
        Rest::ClusterSize => type_at(r, types, Seat::Value(2)),
        Rest::Packed | Rest::ImageSample => type_at(r, types, Seat::Value(0)),
        _ => None,
    }
}

/// The type that is wanted, where it compares two.
pub fn wanted_of(
    definitions: &Definitions,
    inst: &Inst,
    r: Option<u32>,
    types: &[u32],
    rest: Rest,
) -> Option<u32>
    ensures { result ≡ spec.wanted_of definitions.now (plain_inst inst.now) r types.now rest }
{
    match rest {
        Rest::InitializerType => inner_of(definitions, r),
        Rest::Leads { element } => led_to(definitions, inst, types, element),
        Rest::Reached { from, .. } => reached_in(definitions, inst, types, from),
        Rest::Share(_) => inner_of(definitions, r),
        Rest::Part(k) => part_of(definitions, r, k),
        _ => None,
    }
}
