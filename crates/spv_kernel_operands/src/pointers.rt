//! What atomics work on, what is written to, and how much is copied: O15, O16 and O17.

ghost use Rattle.std.specs.Prelude.{◌≡◌, ◌↔◌, IsTrue, option_and_then};
ghost use Rattle.spv_module.specs.Module.{plain_inst};
ghost use Rattle.spv_type_forms.specs.Form.{form_of};
ghost use Rattle.spv_type_forms.specs.Types as types;
ghost use Rattle.spv_kernel_operands.specs.Pointers as spec;

use crate::value::{id_at, value_at};
use spv_capabilities::Capabilities;
use spv_module::{Inst, opcode};
use spv_type_forms::{Definitions, Form, Scalar};

/// Int64Atomics, AtomicFloat16MinMaxEXT and AtomicFloat16AddEXT.
const INT_64_ATOMICS: u32 = 12;

const FLOAT_16_MIN_MAX: u32 = 5616;

const FLOAT_16_ADD: u32 = 6095;

/// Whether an opcode is that of an atomic with a type to work on: OpAtomicLoad to OpAtomicXor.
fn is_atomic(code: u16) -> bool
    ensures { result ≡ spec.is_atomic code }
{
    opcode::ATOMIC_LOAD <= code && code <= opcode::ATOMIC_XOR
}

/// Whether an opcode is that of any atomic.
pub fn is_any_atomic(code: u16) -> bool
    ensures { result ≡ spec.is_any_atomic code }
{
    is_atomic(code)
        || (opcode::ATOMIC_FLAG_TEST_AND_SET <= code && code <= opcode::ATOMIC_FLAG_CLEAR)
}

/// Whether an opcode is that of OpStore, OpCopyMemory or OpCopyMemorySized.
pub fn is_write(code: u16) -> bool
    ensures { result ≡ spec.is_write code }
{
    opcode::STORE <= code && code <= opcode::COPY_MEMORY_SIZED
}

/// The number of the operand, from 0, that is the pointer of such an instruction.
fn pointer_seat(code: u16) -> u32
    ensures { result ≡ spec.pointer_seat code }
{
    if is_write(code) || code == opcode::ATOMIC_STORE || code == opcode::ATOMIC_FLAG_CLEAR {
        0
    } else {
        2
    }
}

/// The type of the pointer of such an instruction.
fn pointer_type(definitions: &Definitions, inst: &Inst<'_>) -> Option<u32>
    ensures { result ≡ spec.pointer_type definitions.now (plain_inst inst.now) }
{
    let pointer = id_at(inst.operands.as_slice(), pointer_seat(inst.opcode))?;
    definitions.type_of(pointer)
}

/// The type that it points to.
fn pointee(definitions: &Definitions, inst: &Inst<'_>) -> Option<u32>
    ensures { result ≡ option_and_then (λ p. types.pointee_in (form_of definitions.now p))
        (spec.pointer_type definitions.now (plain_inst inst.now)) }
{
    definitions.pointee(pointer_type(definitions, inst)?)
}

/// The storage class of a pointer type.
fn class_in(form: Option<Form>) -> Option<u32>
    ensures { result ≡ types.class_in form }
{
    match form {
        Some(Form::Pointer { class, .. }) => Some(class),
        _ => None,
    }
}

/// The storage class of the pointer of such an instruction.
fn class(definitions: &Definitions, inst: &Inst<'_>) -> Option<u32>
    ensures { result ≡ option_and_then (λ p. types.class_in (form_of definitions.now p))
        (spec.pointer_type definitions.now (plain_inst inst.now)) }
{
    class_in(definitions.form(pointer_type(definitions, inst)?))
}

/// Whether no atomic works on a type.
fn is_not_atomic(capabilities: &Capabilities<'_, '_>, definitions: &Definitions, t: u32) -> bool
    requires { capabilities.now.insts ≡ definitions.now }
    ensures { IsTrue result ↔ spec.IsNotAtomic capabilities.now.table definitions.now t }
{
    match definitions.form(t) {
        Some(Form::Scalar(Scalar::Int(width))) => {
            width == 8 || width == 16 || (width == 64 && !capabilities.has(INT_64_ATOMICS))
        }
        Some(Form::Scalar(Scalar::Float(width))) => {
            width == 16 && !capabilities.has(FLOAT_16_MIN_MAX) && !capabilities.has(FLOAT_16_ADD)
        }
        _ => false,
    }
}

/// Whether an instruction breaks O15: an atomic works on a type on which none does.
pub fn is_misatomic(
    capabilities: &Capabilities<'_, '_>,
    definitions: &Definitions,
    inst: &Inst<'_>,
) -> bool
    requires { capabilities.now.insts ≡ definitions.now }
    ensures { IsTrue result ↔ spec.IsMisatomic capabilities.now.table definitions.now (plain_inst inst.now) }
{
    if !is_atomic(inst.opcode) {
        return false;
    }
    match pointee(definitions, inst) {
        Some(t) => is_not_atomic(capabilities, definitions, t),
        None => false,
    }
}

/// Whether an instruction breaks O16: it writes to what is read alone, or is an atomic there.
pub fn is_miswritten(definitions: &Definitions, inst: &Inst<'_>) -> bool
    ensures { IsTrue result ↔ spec.IsMiswritten definitions.now (plain_inst inst.now) }
{
    if !is_write(inst.opcode) && !is_any_atomic(inst.opcode) {
        return false;
    }
    match class(definitions, inst) {
        Some(class) => class == 0 || class == 1,
        None => false,
    }
}

/// Whether an instruction breaks O17: an OpCopyMemorySized of nothing.
pub fn is_empty_copy(definitions: &Definitions, inst: &Inst<'_>) -> bool
    ensures { IsTrue result ↔ spec.IsEmptyCopy definitions.now (plain_inst inst.now) }
{
    if inst.opcode != opcode::COPY_MEMORY_SIZED {
        return false;
    }
    match value_at(definitions, inst.operands.as_slice(), 2) {
        Some(size) => size == 0,
        None => false,
    }
}
