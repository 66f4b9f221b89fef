//! The image operands of an instruction: a mask, and the values that it asks for.

ghost use Rattle.std.specs.Prelude.{◌≡◌, ◌≤◌, ◌↔◌, ℕ, IsTrue, IsSomeAnd, length, slice_get};
ghost use Rattle.spv_module.specs.Module.{plain_inst, plain_operands};
ghost use Rattle.spv_type_forms.specs.Types.{IsFloat, IsSomeInt};
ghost use Rattle.spv_conditions.specs.Image as image_spec;
ghost use Rattle.spv_conditions.specs.Texels as spec;

use crate::asked::Texels;
use crate::group::is_constant_at;
use crate::image::{image_behind, plane};
use crate::seat::{Seat, type_at};
use spv_module::{Inst, Operand};
use spv_type_forms::{Definitions, Form, Scalar, Sort, has_sort, is_int};

/// The first mask among operands, or 0.
pub fn mask(operands: &[Operand]) -> u32
    ensures { result ≡ spec.mask_in (plain_operands operands.now) }
{
    for operand in operands {
        if let Operand::Mask { value, .. } = operand {
            return *value;
        }
    }
    0
}

/// Whether a mask has a bit.
fn has_bit(mask: u32, bit: u32) -> bool
    ensures { result ≡ spec.has_bit mask bit }
{
    !(mask & bit == 0)
}

/// Whether Lod, Grad and Sample are such as an instruction takes.
fn fits_use(texels: Texels, mask: u32) -> bool
    ensures { result ≡ spec.fits_use texels mask }
{
    match texels {
        Texels::Sampled => {
            let one = if has_bit(mask, 2) {
                !has_bit(mask, 4)
            } else {
                has_bit(mask, 4)
            };
            one && !has_bit(mask, 64)
        }
        Texels::Read | Texels::Written => !has_bit(mask, 4),
    }
}

/// Whether a mask has known bits alone.
fn is_known(mask: u32) -> bool
    ensures { result ≡ spec.is_known mask }
{
    mask & 28750 == mask
}

/// Whether a mask is one of image operands that an instruction takes.
fn is_mask(texels: Texels, mask: u32) -> bool
    ensures { result ≡ spec.is_mask texels mask }
{
    is_known(mask) && (fits_use(texels, mask) && !(has_bit(mask, 4096) && has_bit(mask, 8192)))
}

/// How many values stand before those that the mask asks for.
fn before(texels: Texels) -> u32
    ensures value { result ≡ spec.before_of texels }
    ensures few { result ≤ 3 }
{
    match texels {
        Texels::Written => 3,
        Texels::Sampled | Texels::Read => 2,
    }
}

/// So many, or none.
fn count_if(there: bool, count: u32) -> u32
    ensures value { result ≡ spec.count_if there count }
    ensures most { result ≤ count }
{
    if there { count } else { 0 }
}

/// The number of the first value of Grad, from 0.
fn grad_at(texels: Texels, mask: u32) -> u32
    ensures value { result ≡ spec.grad_at texels mask }
    ensures few { result ≤ 4 }
{
    before(texels) + count_if(has_bit(mask, 2), 1)
}

/// That of the value of ConstOffset.
fn offset_at(texels: Texels, mask: u32) -> u32
    ensures value { result ≡ spec.offset_at texels mask }
    ensures few { result ≤ 6 }
{
    grad_at(texels, mask) + count_if(has_bit(mask, 4), 2)
}

/// That of the value of Sample.
fn sample_at(texels: Texels, mask: u32) -> u32
    ensures value { result ≡ spec.sample_at texels mask }
    ensures few { result ≤ 7 }
{
    offset_at(texels, mask) + count_if(has_bit(mask, 8), 1)
}

/// How many values there are, with those that the mask asks for.
fn values_end(texels: Texels, mask: u32) -> u32
    ensures value { result ≡ spec.values_end texels mask }
    ensures few { result ≤ 8 }
{
    sample_at(texels, mask) + count_if(has_bit(mask, 64), 1)
}

/// Whether a mask is one of image operands, and there are as many values as it asks for.
fn is_masked_by(texels: Texels, mask: u32, types: &[u32]) -> bool
    ensures { IsTrue result ↔ spec.IsMasked texels types.now mask }
{
    is_mask(texels, mask) && types.len() == values_end(texels, mask) as usize
}

/// The same of the mask of an instruction.
pub fn is_masked(inst: &Inst, texels: Texels, types: &[u32]) -> bool
    ensures { IsTrue result ↔ spec.IsMasked texels types.now (spec.mask_in (plain_inst inst.now).operands) }
{
    is_masked_by(texels, mask(inst.operands.as_slice()), types)
}

/// Whether Sample is there if and only if images of a type have several samples.
fn is_sample_fit_at(definitions: &Definitions, mask: u32, o: u32) -> bool
    ensures { IsTrue result ↔ spec.IsSampleFit definitions.now mask o }
{
    match image_behind(definitions, o) {
        Some(image) => has_bit(mask, 64) == (image.multisampled == 1),
        None => false,
    }
}

/// The same of the type of the first value.
pub fn is_sample_fit(definitions: &Definitions, inst: &Inst, types: &[u32]) -> bool
    ensures { IsTrue result ↔ IsSomeAnd (slice_get types.now 0)
        (spec.IsSampleFit definitions.now (spec.mask_in (plain_inst inst.now).operands)) }
{
    match type_at(None, types, Seat::Value(0)) {
        Some(o) => is_sample_fit_at(definitions, mask(inst.operands.as_slice()), o),
        None => false,
    }
}

/// Whether SignExtend and ZeroExtend are there of texels of ints alone.
fn is_sign_fit_at(definitions: &Definitions, mask: u32, t: u32) -> bool
    ensures { IsTrue result ↔ spec.IsSignFit definitions.now mask t }
{
    if has_bit(mask, 4096) || has_bit(mask, 8192) {
        has_sort(definitions, Sort::Int, t)
    } else {
        true
    }
}

/// The same of the type of texels, if there is one.
pub fn is_sign_fit(definitions: &Definitions, inst: &Inst, texel: Option<u32>) -> bool
    ensures { IsTrue result ↔ IsSomeAnd texel
        (spec.IsSignFit definitions.now (spec.mask_in (plain_inst inst.now).operands)) }
{
    match texel {
        Some(t) => is_sign_fit_at(definitions, mask(inst.operands.as_slice()), t),
        None => false,
    }
}

/// Whether a type is a float.
fn is_float(definitions: &Definitions, t: u32) -> bool
    ensures { IsTrue result ↔ ((w : ℕ) × IsFloat definitions.now t w) }
{
    match definitions.form(t) {
        Some(Form::Scalar(Scalar::Float(_))) => true,
        _ => false,
    }
}

/// Whether a type is that of the value of Lod.
fn is_lod(definitions: &Definitions, texels: Texels, t: u32) -> bool
    ensures { IsTrue result ↔ spec.IsLod definitions.now texels t }
{
    match texels {
        Texels::Sampled => is_float(definitions, t),
        Texels::Read | Texels::Written => is_int(definitions, t),
    }
}

/// Whether a type has as many components as images of a type have coordinates, their layer aside.
fn fills_plane(definitions: &Definitions, o: u32, t: u32) -> bool
    ensures { IsTrue result ↔ image_spec.Counts definitions.now (λ i. image_spec.plane_in i.dim) (λ n m. n ≡ m) t o }
{
    let Some(image) = image_behind(definitions, o) else {
        return false;
    };
    match (plane(image.dim), definitions.components(t)) {
        (Some(most), Some(components)) => most == components.count,
        _ => false,
    }
}

/// Whether a type is one of ints or of floats, one for each coordinate but the layer.
fn is_plane(definitions: &Definitions, sort: Sort, o: u32, t: u32) -> bool
    ensures { IsTrue result ↔ spec.IsPlane definitions.now sort o t }
{
    has_sort(definitions, sort, t) && fills_plane(definitions, o, t)
}

/// The same of the value of a number.
fn is_plane_at(definitions: &Definitions, sort: Sort, types: &[u32], o: u32, k: u32) -> bool
    ensures { IsTrue result ↔ spec.IsAt types.now k (spec.IsPlane definitions.now sort o) }
{
    match type_at(None, types, Seat::Value(k)) {
        Some(t) => is_plane(definitions, sort, o, t),
        None => false,
    }
}

/// Whether the value of Lod, if the mask asks for it, is of its type.
fn lod_fits(definitions: &Definitions, texels: Texels, types: &[u32], mask: u32) -> bool
    ensures { IsTrue result ↔ spec.Where (spec.has_bit mask 2)
        (spec.IsAt types.now (spec.before_of texels) (spec.IsLod definitions.now texels)) }
{
    if has_bit(mask, 2) {
        match type_at(None, types, Seat::Value(before(texels))) {
            Some(t) => is_lod(definitions, texels, t),
            None => false,
        }
    } else {
        true
    }
}

/// Whether those of Grad are.
fn grad_fits(definitions: &Definitions, texels: Texels, types: &[u32], mask: u32, o: u32) -> bool
    ensures { IsTrue result ↔ spec.Where (spec.has_bit mask 4)
        (spec.AreGrad definitions.now types.now o (spec.grad_at texels mask)) }
{
    if has_bit(mask, 4) {
        let k = grad_at(texels, mask);
        is_plane_at(definitions, Sort::Float, types, o, k)
            && is_plane_at(definitions, Sort::Float, types, o, k + 1)
    } else {
        true
    }
}

/// Whether that of ConstOffset is, and a constant.
fn offset_fits(
    definitions: &Definitions,
    inst: &Inst,
    texels: Texels,
    types: &[u32],
    mask: u32,
    o: u32,
) -> bool
    ensures { IsTrue result ↔ spec.Where (spec.has_bit mask 8)
        (spec.IsOffset definitions.now (plain_inst inst.now) types.now o (spec.offset_at texels mask)) }
{
    if has_bit(mask, 8) {
        let k = offset_at(texels, mask);
        is_plane_at(definitions, Sort::Int, types, o, k) && is_constant_at(definitions, inst, k)
    } else {
        true
    }
}

/// Whether that of Sample is.
fn sample_fits(definitions: &Definitions, texels: Texels, types: &[u32], mask: u32) -> bool
    ensures { IsTrue result ↔ spec.Where (spec.has_bit mask 64)
        (spec.IsAt types.now (spec.sample_at texels mask) (IsSomeInt definitions.now)) }
{
    if has_bit(mask, 64) {
        match type_at(None, types, Seat::Value(sample_at(texels, mask))) {
            Some(t) => is_int(definitions, t),
            None => false,
        }
    } else {
        true
    }
}

/// Whether the values that a mask asks for are of their types.
fn fit(
    definitions: &Definitions,
    inst: &Inst,
    texels: Texels,
    types: &[u32],
    mask: u32,
    o: u32,
) -> bool
    ensures { IsTrue result
        ↔ spec.AreImageOperands definitions.now (plain_inst inst.now) texels types.now mask o }
{
    lod_fits(definitions, texels, types, mask)
        && (grad_fits(definitions, texels, types, mask, o)
            && (offset_fits(definitions, inst, texels, types, mask, o)
                && sample_fits(definitions, texels, types, mask)))
}

/// The same of the mask of an instruction, and images of the type of the first value.
pub fn are_image_operands(
    definitions: &Definitions,
    inst: &Inst,
    texels: Texels,
    types: &[u32],
) -> bool
    ensures { IsTrue result ↔ IsSomeAnd (slice_get types.now 0)
        (spec.AreImageOperands definitions.now (plain_inst inst.now) texels types.now
        (spec.mask_in (plain_inst inst.now).operands)) }
{
    match type_at(None, types, Seat::Value(0)) {
        Some(o) => fit(
            definitions,
            inst,
            texels,
            types,
            mask(inst.operands.as_slice()),
            o,
        ),
        None => false,
    }
}
