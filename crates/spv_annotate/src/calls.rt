//! What extended instructions call.

ghost use Rattle.std.specs.Prelude.{◌≡◌, ◌++◌, ℕ, OnOk, map, string_bytes};
ghost use Rattle.spv_module.specs.Module.{plain_inst};
ghost use Rattle.spv_extended.specs.Sets as sets;
ghost use Rattle.spv_annotate.specs.Called as specs;
ghost use Rattle.spv_annotate.specs.Called.{set_of};
ghost use Rattle.spv_annotate.specs.Module.{definition_of};
ghost use Rattle.spv_annotate.specs.Notes.{call_note, note, opencl_lines};
ghost use Rattle.spv_annotate.specs.inner.Numbers.{kept};

use crate::numbers::Numbers;
use crate::opencl::opencl_name;
use spv_extended::{Call, Set, set_named};
use spv_module::{Inst, Operand, opcode};
use std::alloc::AllocError;

/// Adds a text behind a comma and a space; nothing where it is empty.
pub fn push_note(out: &mut String, text: &str) -> Result<(), AllocError>
    ensures { OnOk result (string_bytes out.new ≡ string_bytes out.old ++ note text.now) }
{
    if text.is_empty() {
        return Ok(());
    }
    out.push_str(", ")?;
    out.push_str(text)
}

/// The set that an instruction imports.
fn set_imported(inst: &Inst<'_>) -> Set
    ensures { result ≡ specs.set_imported (sets.imported_by (plain_inst inst.now)) }
{
    match (inst.opcode, inst.operands.as_slice()) {
        (opcode::EXT_INST_IMPORT, [Operand::Result(_), Operand::Text(name), ..]) => {
            set_named(name)
        }
        _ => Set::Other,
    }
}

/// The set that an id stands for, by the first instruction that defines it.
fn set_at(insts: &[Inst<'_>], definition: Option<u32>) -> Set
    ensures { (x : ℕ) → definition ≡ definition_of (map plain_inst insts.now) x
        → result ≡ set_of (map plain_inst insts.now) x }
{
    let Some(at) = definition else {
        return Set::Other;
    };
    match insts.get(at as usize) {
        Some(inst) => set_imported(inst),
        None => Set::Other,
    }
}

/// What an instruction calls, if it is an OpExtInst.
pub fn called_by(insts: &[Inst<'_>], definitions: &Numbers, inst: &Inst<'_>) -> Option<Call>
    requires { (x : ℕ) → kept definitions.now x ≡ definition_of (map plain_inst insts.now) x }
    ensures { result ≡ specs.called_by (map plain_inst insts.now) (plain_inst inst.now) }
{
    if inst.opcode != opcode::EXT_INST {
        return None;
    }
    match inst.operands.as_slice() {
        [
            Operand::OfType(_),
            Operand::Result(_),
            Operand::Id(set),
            Operand::Word(number),
            behind @ ..,
        ] => Some(Call {
            set: set_at(insts, definitions.get(*set)),
            number: *number,
            operands: behind.len() as u32,
        }),
        _ => None,
    }
}

/// Adds the name of the instruction that an OpExtInst of OpenCL.std calls.
///
/// An `AllocError` comes only where a growth of memory was refused, and then nothing is said of what is left.
pub fn push_call(
    out: &mut String,
    insts: &[Inst<'_>],
    definitions: &Numbers,
    lines: &[&'static str],
    inst: &Inst<'_>,
) -> Result<(), AllocError>
    requires definitions { (x : ℕ) → kept definitions.now x ≡ definition_of (map plain_inst insts.now) x }
    requires lines { map (λ t. t.now) lines.now ≡ opencl_lines }
    ensures { OnOk result (string_bytes out.new ≡ string_bytes out.old ++ call_note (map plain_inst insts.now)
        (plain_inst inst.now)) }
{
    match called_by(insts, definitions, inst) {
        Some(
            Call {
                set: Set::OpenClStd,
                number,
                ..
            },
        ) => push_note(out, opencl_name(lines, number)),
        _ => Ok(()),
    }
}
