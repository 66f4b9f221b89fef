//! O13: ints of 8 bits, and the memory model, by the capabilities.

ghost use Rattle.std.specs.Prelude.{◌≡◌, ◌↔◌, ◌≤◌, IsTrue, Some, length};
ghost use Rattle.spv_module.specs.Module.{plain_inst};
ghost use Rattle.spv_type_forms.specs.declared.form.Form.TheVariants as form;
ghost use Rattle.spv_type_forms.specs.declared.form.Scalar.TheVariants as scalar;
ghost use Rattle.spv_type_forms.specs.Form.{form_in};
ghost use Rattle.spv_declarations.specs.Declarations.{HasBytes, IsIncapable, NeedsAnother};
ghost use Rattle.spv_declarations.specs.inner.First.{IsFirstBelow};
ghost use Rattle.spv_declarations.specs.inner.Kinds.{AreKinds, IsCapable};

use crate::kinds::Kinds;
use spv_capabilities::Capabilities;
use spv_module::{Inst, opcode};
use spv_type_forms::{Form, Scalar, form_in};

/// The numbers of the capabilities Int8, StorageBuffer8BitAccess, UniformAndStorageBuffer8BitAccess,
/// StoragePushConstant8 and VulkanMemoryModel.
const INT8: u32 = 39;

const STORAGE_BUFFER_8BIT_ACCESS: u32 = 4448;

const UNIFORM_AND_STORAGE_BUFFER_8BIT_ACCESS: u32 = 4449;

const STORAGE_PUSH_CONSTANT8: u32 = 4450;

const VULKAN_MEMORY_MODEL: u32 = 5345;

/// Whether ints of 8 bits may be declared.
fn has_bytes(capabilities: &Capabilities<'_, '_>) -> bool
    ensures { IsTrue result ↔ HasBytes capabilities.now.table capabilities.now.insts }
{
    capabilities.has(INT8)
        || capabilities.has(STORAGE_BUFFER_8BIT_ACCESS)
        || capabilities.has(UNIFORM_AND_STORAGE_BUFFER_8BIT_ACCESS)
        || capabilities.has(STORAGE_PUSH_CONSTANT8)
}

/// Whether an instruction declares an int of 8 bits.
pub fn declares_bytes(inst: &Inst<'_>) -> bool
    ensures { IsTrue result ↔ (form_in (plain_inst inst.now) ≡ Some (form.Scalar (scalar.Int 8))) }
{
    match form_in(inst) {
        Some(Form::Scalar(Scalar::Int(width))) => width == 8,
        _ => false,
    }
}

/// Whether an instruction breaks O13.
fn is_incapable(capabilities: &Capabilities<'_, '_>, inst: &Inst<'_>) -> bool
    ensures { IsTrue result ↔ NeedsAnother capabilities.now.table capabilities.now.insts (plain_inst inst.now) }
{
    if inst.opcode == opcode::MEMORY_MODEL {
        return capabilities.has(VULKAN_MEMORY_MODEL);
    }
    declares_bytes(inst) && !has_bytes(capabilities)
}

/// Whether no instruction breaks O13, by the capabilities and by which kinds of instructions there are.
fn is_capable(capabilities: &Capabilities<'_, '_>, kinds: &Kinds) -> bool
    ensures { IsTrue result → IsCapable capabilities.now.table capabilities.now.insts kinds.now.bytes }
{
    if capabilities.has(VULKAN_MEMORY_MODEL) {
        return false;
    }
    !kinds.bytes || has_bytes(capabilities)
}

/// The first of the first `count` instructions that breaks O13 (SPIR-V Specification 1.6, sections 2.16.1 and 3.31). It
/// takes no memory.
pub fn first_incapable(
    capabilities: &Capabilities<'_, '_>,
    kinds: &Kinds,
    count: u32,
) -> Option<u32>
    requires count { count ≤ length capabilities.now.insts }
    requires kinds { AreKinds capabilities.now.insts count kinds.now }
    ensures { IsFirstBelow count (IsIncapable capabilities.now.table capabilities.now.insts) result }
{
    if is_capable(capabilities, kinds) {
        return None;
    }
    for number in 0..count {
        if is_incapable(capabilities, capabilities.inst(number)) {
            return Some(number);
        }
    }
    None
}
