//! The names of ids.

ghost use Rattle.std.specs.Prelude.{◌≡◌, ◌++◌, ◌≤◌, ◌<◌, ◌∷◌, [], ℕ, List, OnOk, Some, if◌then◌else◌, length, map};
ghost use Rattle.std.specs.Prelude.{nat_eq, string_bytes, take};
ghost use Rattle.std.specs.List.{flat_map, filter_map};
ghost use Rattle.spv_module.specs.Module.{plain_inst, plain_operand, plain_operands};
ghost use Rattle.spv_module.specs.Operand.{Plain};
ghost use Rattle.spv_annotate.specs.Module as specs;
ghost use Rattle.spv_annotate.specs.Called.{told_from};
ghost use Rattle.spv_annotate.specs.Module.{definition_of, id_in, inst_at, naming_of};
ghost use Rattle.spv_annotate.specs.Notes as notes;
ghost use Rattle.spv_annotate.specs.Notes.{each_once, name_note, name_notes, name_text};
ghost use Rattle.spv_annotate.specs.inner.Numbers.{kept};
ghost use Rattle.spv_annotate.specs.inner.Seen.{if_unseen};

use crate::buffer::push_between;
use crate::literals::{signature_at, told};
use crate::numbers::Numbers;
use crate::seen::Seen;
use crate::short::push_short;
use spv_extended::Signature;
use spv_module::{Inst, Operand, opcode};
use spv_names::{Naming, named};
use std::alloc::AllocError;

/// The name that an OpName gives.
fn name_by<'a>(inst: &Inst<'a>) -> &'a str
    ensures { result.now ≡ specs.name_by (plain_inst inst.now) }
{
    match named(Naming::Name, inst) {
        Some((_, name)) => name,
        None => "",
    }
}

/// The name in the OpName of that number.
pub fn name_at<'a>(insts: &'a [Inst<'_>], at: u32) -> &'a str
    ensures { result.now ≡ specs.name_by (inst_at (map plain_inst insts.now) at) }
{
    match insts.get(at as usize) {
        Some(inst) => name_by(inst),
        None => "",
    }
}

/// Adds an id and the name that the OpName of that number gives.
fn push_name(out: &mut String, insts: &[Inst<'_>], id: u32, naming: u32) -> Result<(), AllocError>
    ensures { OnOk result (string_bytes out.new
        ≡ string_bytes out.old ++ name_text (map plain_inst insts.now) id (Some naming)) }
{
    push_between(out, ", %", id, " ")?;
    push_short(out, name_at(insts, naming))
}

/// The id that an operand is, if it is one.
fn id_of(operand: Operand<'_>) -> Option<u32>
    ensures { result ≡ id_in (plain_operand operand.entry) }
{
    match operand {
        Operand::OfType(id)
        | Operand::Result(id)
        | Operand::Id(id)
        | Operand::Argument(id)
        | Operand::Mention(id) => Some(id),
        _ => None,
    }
}

/// Whether a text is the name that an OpName of that number gives, if there is one.
fn is_name(insts: &[Inst<'_>], text: &str, naming: Option<u32>) -> bool
    ensures { result ≡ notes.is_name (map plain_inst insts.now) text.now naming }
{
    match naming {
        Some(at) => text == name_at(insts, at),
        None => false,
    }
}

/// The function of an OpEntryPoint, where an OpName gives it the same name.
fn entry_named(insts: &[Inst<'_>], namings: &Numbers, inst: &Inst<'_>) -> Option<u32>
    requires { (x : ℕ) → kept namings.now x ≡ naming_of (map plain_inst insts.now) x }
    ensures { result ≡ notes.entry_named (map plain_inst insts.now) (plain_inst inst.now) }
{
    match named(Naming::EntryPoint, inst) {
        Some((id, name)) if is_name(insts, name, namings.get(id)) => Some(id),
        _ => None,
    }
}

/// Adds an id and its name, if it has one and was not seen before.
fn push_name_once(
    out: &mut String,
    insts: &[Inst<'_>],
    namings: &Numbers,
    seen: &mut Seen,
    id: u32,
) -> Result<(), AllocError>
    requires { kept namings.now id ≡ naming_of (map plain_inst insts.now) id }
    ensures text { OnOk result (string_bytes out.new
        ≡ string_bytes out.old ++ if_unseen (name_note (map plain_inst insts.now)) seen.old id) }
    ensures once { OnOk result ((x : ℕ) → if_unseen (name_note (map plain_inst insts.now)) seen.new x
        ≡ (if nat_eq id x then [] else if_unseen (name_note (map plain_inst insts.now)) seen.old x)) }
{
    let Some(naming) = namings.get(id) else {
        return Ok(());
    };
    if !seen.add(id)? {
        return Ok(());
    }
    push_name(out, insts, id, naming)
}

/// Adds the name of the id that an operand is, if it is one, has one and was not seen before. What is told of further
/// operands is then told without that id.
fn push_name_in(
    out: &mut String,
    insts: &[Inst<'_>],
    namings: &Numbers,
    seen: &mut Seen,
    operand: Operand<'_>,
) -> Result<(), AllocError>
    requires { (x : ℕ) → kept namings.now x ≡ naming_of (map plain_inst insts.now) x }
    ensures { OnOk result ((further : List Plain) → string_bytes out.new
        ++ flat_map (if_unseen (name_note (map plain_inst insts.now)) seen.new)
        (each_once (filter_map id_in further))
        ≡ string_bytes out.old ++ flat_map (if_unseen (name_note (map plain_inst insts.now)) seen.old)
        (each_once (filter_map id_in (plain_operand operand.entry ∷ further)))) }
{
    match id_of(operand) {
        Some(id) => push_name_once(out, insts, namings, seen, id),
        None => Ok(()),
    }
}

/// Adds the names of the ids that operands are, of which some are literals, each once, but for those that were seen
/// before.
fn push_operand_names(
    out: &mut String,
    insts: &[Inst<'_>],
    namings: &Numbers,
    seen: &mut Seen,
    signature: Signature,
    operands: &[Operand<'_>],
) -> Result<(), AllocError>
    requires { (x : ℕ) → kept namings.now x ≡ naming_of (map plain_inst insts.now) x }
    ensures { OnOk result (string_bytes out.new ≡ string_bytes out.old
        ++ flat_map (if_unseen (name_note (map plain_inst insts.now)) seen.old)
        (each_once (filter_map id_in (told_from signature 0 (plain_operands operands.now))))) }
{
    for (place, operand) in operands.iter().enumerate() {
        let operand = told(signature, place, *operand);
        push_name_in(out, insts, namings, seen, operand)?;
    }
    Ok(())
}

/// Adds the names of the ids on the line of an instruction, each once, but for that of an OpName, which has the name
/// itself, and of the function of an OpEntryPoint, which has the same one.
///
/// An `AllocError` comes only where a growth of memory was refused, and then nothing is said of what is left.
pub fn push_names(
    out: &mut String,
    insts: &[Inst<'_>],
    definitions: &Numbers,
    namings: &Numbers,
    inst: &Inst<'_>,
) -> Result<(), AllocError>
    requires definitions { (x : ℕ) → kept definitions.now x ≡ definition_of (map plain_inst insts.now) x }
    requires namings { (x : ℕ) → kept namings.now x ≡ naming_of (map plain_inst insts.now) x }
    ensures { OnOk result (string_bytes out.new ≡ string_bytes out.old ++ name_notes (map plain_inst insts.now)
        (plain_inst inst.now)) }
{
    if inst.opcode == opcode::NAME {
        return Ok(());
    }
    let signature = signature_at(insts, definitions, inst);
    let named = entry_named(insts, namings, inst);
    let mut seen = Seen::new(*out.allocator(), named);
    push_operand_names(
        out,
        insts,
        namings,
        &mut seen,
        signature,
        inst.operands.as_slice(),
    )
}
