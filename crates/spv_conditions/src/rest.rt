//! Conditions beside kinds of types and relations between them.

ghost use Rattle.std.specs.Prelude.{◌≡◌, ◌⊎◌, ◌<◌, ◌+◌, ◌↔◌, [], IsSome, IsSomeAnd, IsTrue, length, option_map};
ghost use Rattle.std.specs.Prelude.{slice_get};
ghost use Rattle.std.specs.List.{AllByRecursion};
ghost use Rattle.spv_module.specs.Module.{plain_inst, plain_operands};
ghost use Rattle.spv_type_kinds.specs.Operands.{after_head, ids_in, words_in};
ghost use Rattle.spv_type_forms.specs.Types.{PointsTo};
ghost use Rattle.spv_type_forms.specs.Reach.{AreWithin};
ghost use Rattle.spv_conditions.specs.Chain as chain;
ghost use Rattle.spv_conditions.specs.Path.{reached_by as reached_spec};
ghost use Rattle.spv_conditions.specs.Rest.{RestHolds};
ghost use Rattle.spv_conditions.specs.Values.{type_at as type_spec};

use crate::asked::Rest;
use crate::block::{after_block, are_local_sizes, are_locals, is_block};
use crate::chain::{led_by, led_to};
use crate::components::{are_components, both_sizes, has_component_count};
use crate::constituents::{are_counted, are_filling, are_several, is_part_at, is_share_at};
use crate::further::{
    begins_with_group, has_decoration_ids, has_members, has_mode_ids, has_no_more_groups,
    has_texts, may_stand,
};
use crate::group::{has_clusters, is_cluster_size, is_constant_at, is_packed, is_scan};
use crate::path::{are_within, reached_by};
use crate::seat::{Seat, type_at};
use crate::texels::{are_image_operands, is_masked, is_sample_fit, is_sign_fit};
use crate::variable::{has_cast_class, has_class, is_class_here, is_initialized};
use spv_module::{Inst, Operand};
use spv_type_forms::{Definitions, has_words, points_to, word_count};

/// Whether there are no literals among the operands, or two.
fn has_weights(operands: &[Operand]) -> bool
    ensures { let words = words_in (plain_operands operands.now) in
        IsTrue result ↔ ((words ≡ []) ⊎ (length words ≡ 2)) }
{
    match word_count(operands) {
        0 | 2 => true,
        _ => false,
    }
}

/// Whether a type is a pointer to all types.
fn points_to_all(definitions: &Definitions, t: u32, types: &[u32]) -> bool
    ensures { IsTrue result ↔ AllByRecursion (PointsTo definitions.now t) types.now }
{
    for value in types {
        if !points_to(definitions, t, *value) {
            return false;
        }
    }
    true
}

/// Whether there is a result type, and it is a pointer to all types.
fn are_pointees(definitions: &Definitions, r: Option<u32>, types: &[u32]) -> bool
    ensures { IsTrue result ↔ IsSomeAnd r (λ t. AllByRecursion (PointsTo definitions.now t) types.now) }
{
    match r {
        Some(t) => points_to_all(definitions, t, types),
        None => false,
    }
}

/// Whether there is a result type, and it points to the type that the indexes of a chain lead to.
fn leads_to(
    definitions: &Definitions,
    inst: &Inst,
    r: Option<u32>,
    types: &[u32],
    element: bool,
) -> bool
    ensures { IsTrue result ↔ IsSomeAnd r (λ t. IsSomeAnd (chain.led_to definitions.now element
        (ids_in (after_head (plain_inst inst.now).operands)) types.now) (PointsTo definitions.now t)) }
{
    match (r, led_to(definitions, inst, types, element)) {
        (Some(t), Some(to)) => points_to(definitions, t, to),
        _ => false,
    }
}

/// The type that the indexes lead to from the type of a value.
pub fn reached_in(definitions: &Definitions, inst: &Inst, types: &[u32], from: u32) -> Option<u32>
    ensures { result ≡ option_map (reached_spec definitions.now (words_in (plain_inst inst.now).operands))
        (slice_get types.now from) }
{
    let t = type_at(None, types, Seat::Value(from))?;
    Some(reached_by(definitions, t, inst.operands.as_slice()))
}

/// Whether each index is that of a part, from the type of a value on.
fn holds_within(definitions: &Definitions, inst: &Inst, types: &[u32], from: u32) -> bool
    ensures { IsTrue result ↔ IsSomeAnd (slice_get types.now from)
        (λ t. AreWithin definitions.now t (words_in (plain_inst inst.now).operands)) }
{
    match type_at(None, types, Seat::Value(from)) {
        Some(t) => are_within(definitions, t, inst.operands.as_slice()),
        None => false,
    }
}

/// Whether a type is the one that the indexes lead to from the type of a value.
fn holds_reached(
    definitions: &Definitions,
    inst: &Inst,
    r: Option<u32>,
    types: &[u32],
    of: Seat,
    from: u32,
) -> bool
    ensures { IsTrue result ↔ IsSomeAnd (slice_get types.now from) (λ t.
        IsSomeAnd (type_spec r types.now of)
        (λ u. reached_spec definitions.now (words_in (plain_inst inst.now).operands) t ≡ u)) }
{
    match (
        reached_in(definitions, inst, types, from),
        type_at(r, types, of),
    ) {
        (Some(to), Some(u)) => to == u,
        _ => false,
    }
}

/// Whether an index of a chain leads to a part, and so do those before it.
fn leads_so_far(
    definitions: &Definitions,
    inst: &Inst,
    types: &[u32],
    element: bool,
    index: u32,
) -> bool
    ensures { IsTrue result ↔ IsSome (chain.led_by definitions.now element
        (ids_in (after_head (plain_inst inst.now).operands)) types.now (index + 1)) }
{
    match led_by(definitions, inst, types, element, index as usize + 1) {
        Some(_) => true,
        None => false,
    }
}

/// Whether it holds at the instruction of a number.
pub fn rest_holds(
    definitions: &Definitions,
    number: u32,
    inst: &Inst,
    r: Option<u32>,
    types: &[u32],
    rest: Rest,
) -> bool
    requires within { number < length definitions.now }
    ensures { IsTrue result ↔ RestHolds definitions.now number (plain_inst inst.now) r types.now rest }
{
    match rest {
        Rest::Weights => has_weights(inst.operands.as_slice()),
        Rest::StorageClass => has_class(definitions, inst, r),
        Rest::ClassHere => is_class_here(definitions, number, inst),
        Rest::Initializer => is_initialized(definitions, inst),
        Rest::InitializerType => are_pointees(definitions, r, types),
        Rest::Chosen { element, index } => leads_so_far(definitions, inst, types, element, index),
        Rest::Leads { element } => leads_to(definitions, inst, r, types, element),
        Rest::Several => are_several(definitions, r, types),
        Rest::Share(k) => is_share_at(definitions, r, types, k),
        Rest::Filled => are_filling(definitions, r, types),
        Rest::Count => are_counted(definitions, r, types),
        Rest::Part(k) => is_part_at(definitions, r, types, k),
        Rest::Indexes => has_words(inst.operands.as_slice()),
        Rest::Within { from } => holds_within(definitions, inst, types, from),
        Rest::Reached { of, from } => holds_reached(definitions, inst, r, types, of, from),
        Rest::ComponentCount => has_component_count(definitions, r, inst.operands.as_slice()),
        Rest::Component => are_components(both_sizes(definitions, types), inst.operands.as_slice()),
        Rest::CastClass => has_cast_class(definitions, inst, r),
        Rest::Scan => is_scan(inst),
        Rest::Cluster => has_clusters(inst, types),
        Rest::ClusterSize => is_cluster_size(definitions, inst, types),
        Rest::Constant(k) => is_constant_at(definitions, inst, k),
        Rest::Packed => is_packed(definitions, inst, r, types),
        Rest::ImageMask(texels) => is_masked(inst, texels, types),
        Rest::ImageSample => is_sample_fit(definitions, inst, types),
        Rest::ImageSign(seat) => is_sign_fit(definitions, inst, type_at(r, types, seat)),
        Rest::ImageOperands(texels) => are_image_operands(definitions, inst, texels, types),
        Rest::Extended => may_stand(definitions, number, inst, r),
        Rest::ModeIds => has_mode_ids(definitions, inst),
        Rest::DecorationIds => has_decoration_ids(definitions, inst),
        Rest::Texts => has_texts(inst),
        Rest::Group => begins_with_group(definitions, inst),
        Rest::NoMoreGroups => has_no_more_groups(definitions, inst),
        Rest::Members => has_members(definitions, inst),
        Rest::Block(k) => is_block(definitions, inst, types, k),
        Rest::LocalSizes(k) => are_local_sizes(definitions, after_block(types, k)),
        Rest::Locals(k) => are_locals(definitions, inst, types, k),
    }
}
