//! What is returned, and where a sampled image is made: O20 and O23.

ghost use Rattle.std.specs.Prelude.{◌≡◌, ◌↔◌, ◌<◌, ◌⊎◌, ℕ, Some, IsTrue, length, slice_get};
ghost use Rattle.spv_module.specs.Module.{plain_inst};
ghost use Rattle.spv_module.specs.declared.opcode.TheConstants as opcode;
ghost use Rattle.spv_layout.specs.Place.{IsOfBlock};
ghost use Rattle.spv_ids.specs.Definition.{IsDefinedAt};
ghost use Rattle.spv_type_forms.specs.declared.form.Form.TheVariants as form;
ghost use Rattle.spv_type_forms.specs.Form.{form_of};
ghost use Rattle.spv_kernel_operands.specs.Objects as spec;

use crate::value::id_at;
use spv_module::{Inst, opcode};
use spv_type_forms::{Definitions, Form};

/// Whether a type is void.
fn is_void(definitions: &Definitions, t: u32) -> bool
    ensures { IsTrue result ↔ (form_of definitions.now t ≡ Some form.Void) }
{
    match definitions.form(t) {
        Some(Form::Void) => true,
        _ => false,
    }
}

/// Whether an instruction breaks O20: an OpReturnValue of a value whose type is void.
pub fn is_void_return(definitions: &Definitions, inst: &Inst<'_>) -> bool
    ensures { IsTrue result ↔ spec.IsVoidReturn definitions.now (plain_inst inst.now) }
{
    if inst.opcode != opcode::RETURN_VALUE {
        return false;
    }
    let Some(value) = id_at(inst.operands.as_slice(), 0) else {
        return false;
    };
    match definitions.type_of(value) {
        Some(t) => is_void(definitions, t),
        None => false,
    }
}

/// Whether two instructions are of one block.
fn are_together(definitions: &Definitions, one: u32, other: u32) -> bool
    requires one { one < length definitions.now }
    requires other { other < length definitions.now }
    ensures { IsTrue result ↔ ((b : ℕ) × IsOfBlock definitions.now one b × IsOfBlock definitions.now other b) }
{
    match (definitions.place(one).block, definitions.place(other).block) {
        (Some(own), Some(same)) => own == same,
        _ => false,
    }
}

/// Whether an instruction is an OpSampledImage of the block of another.
fn is_image_beside(definitions: &Definitions, number: u32, made: u32) -> bool
    requires number { number < length definitions.now }
    requires made { made < length definitions.now }
    ensures { IsTrue result ↔ spec.IsMadeBeside definitions.now number made }
{
    if definitions.inst(made).opcode != opcode::SAMPLED_IMAGE {
        return false;
    }
    are_together(definitions, number, made)
}

/// Whether the definition of an id is an OpSampledImage of the block of an instruction.
fn is_made_beside(definitions: &Definitions, number: u32, id: u32) -> bool
    requires { number < length definitions.now }
    ensures { IsTrue result ↔ ((m : ℕ) × IsDefinedAt definitions.now id m
        × spec.IsMadeBeside definitions.now number m) }
{
    match definitions.number(id) {
        Some(made) => is_image_beside(definitions, number, made),
        None => false,
    }
}

/// Whether an instruction takes a sampled image.
fn takes_image(code: u16) -> bool
    ensures { IsTrue result ↔ ((code ≡ opcode.IMAGE_SAMPLE_EXPLICIT_LOD) ⊎ (code ≡ opcode.IMAGE)) }
{
    match code {
        opcode::IMAGE_SAMPLE_EXPLICIT_LOD | opcode::IMAGE => true,
        _ => false,
    }
}

/// Whether an instruction breaks O23: it takes a sampled image that is not made in its block. `number` is that of the
/// instruction.
pub fn is_made_elsewhere(definitions: &Definitions, number: u32, inst: &Inst<'_>) -> bool
    requires { slice_get definitions.now number ≡ Some (plain_inst inst.now) }
    ensures { IsTrue result ↔ spec.IsMadeElsewhere definitions.now number }
{
    if !takes_image(inst.opcode) {
        return false;
    }
    match id_at(inst.operands.as_slice(), 2) {
        Some(id) => !is_made_beside(definitions, number, id),
        None => false,
    }
}
