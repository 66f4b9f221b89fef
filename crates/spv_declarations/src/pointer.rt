//! O12: forward pointers.

ghost use Rattle.std.specs.Prelude.{◌≡◌, ◌↔◌, ◌≤◌, IsTrue, Some, length};
ghost use Rattle.spv_module.specs.Module.{plain_inst};
ghost use Rattle.spv_type_forms.specs.declared.form.Form.TheVariants as form;
ghost use Rattle.spv_type_forms.specs.Form.{form_of};
ghost use Rattle.spv_declarations.specs.Declarations.{AnnouncesElsewhere, IsForwardElsewhere, announced_by};
ghost use Rattle.spv_declarations.specs.inner.First.{IsFirstBelow};
ghost use Rattle.spv_declarations.specs.inner.Kinds.{AreKinds};

use crate::decorated::first_in;
use crate::kinds::Kinds;
use spv_module::{Inst, opcode};
use spv_type_forms::{Definitions, Form};

/// The pointer type that an OpTypeForwardPointer names.
fn announced(inst: &Inst<'_>) -> Option<u32>
    ensures { result ≡ announced_by (plain_inst inst.now) }
{
    if inst.opcode == opcode::TYPE_FORWARD_POINTER {
        first_in(inst.operands.as_slice())
    } else {
        None
    }
}

/// Whether an id declares a struct.
fn is_struct(definitions: &Definitions, t: u32) -> bool
    ensures { IsTrue result ↔ (form_of definitions.now t ≡ Some form.Struct) }
{
    match definitions.form(t) {
        Some(Form::Struct) => true,
        _ => false,
    }
}

/// Whether an instruction announces a pointer to what is no struct.
fn is_elsewhere(definitions: &Definitions, inst: &Inst<'_>) -> bool
    ensures { IsTrue result ↔ AnnouncesElsewhere definitions.now (plain_inst inst.now) }
{
    let Some(t) = announced(inst) else {
        return false;
    };
    match definitions.pointee(t) {
        Some(pointee) => !is_struct(definitions, pointee),
        None => false,
    }
}

/// The first of the first `count` instructions that breaks O12 (SPIR-V Specification 1.6, section 3.49.6). It takes no
/// memory.
pub fn first_elsewhere(definitions: &Definitions, kinds: &Kinds, count: u32) -> Option<u32>
    requires count { count ≤ length definitions.now }
    requires kinds { AreKinds definitions.now count kinds.now }
    ensures { IsFirstBelow count (IsForwardElsewhere definitions.now) result }
{
    if !kinds.forward {
        return None;
    }
    for number in 0..count {
        if is_elsewhere(definitions, definitions.inst(number)) {
            return Some(number);
        }
    }
    None
}
