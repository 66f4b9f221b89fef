//! What shows that an instruction is malformed.

mod before;
pub mod laws;
mod operands;

ghost use Rattle.std.specs.Prelude.{◌≡◌, ◌≤◌, ◌<◌, ◌-◌, ℕ, List, drop, length, map, IfOk};
ghost use Rattle.spv_table.specs.Table.{IsWhole};
ghost use Rattle.spv_module.specs.Operand.{PlainInst};
ghost use Rattle.spv_module.specs.declared.fault.Rule.{Rule};
ghost use Rattle.spv_module.specs.Malformed.{IsMalformed, IsMalformedAt};
ghost use Rattle.spv_table.specs.inner.Form.{form_of};
ghost use Rattle.spv_inst.specs.inner.Known.{Knows};
ghost use Rattle.spv_form_evidence.specs.words.Evidence.{Shows, IsEvidence};

use crate::words::before::read_before;
use crate::words::operands::{Failed, Place, failed_operand};
use spv_evidence::Evidence;
use spv_inst::due::Scene;
use spv_module::Fault;
use spv_table::{Memory, Table};
use spv_words::{Image, word};
use std::alloc::{AllocError, Global};

/// What shows that the instruction whose first word is the module's word `at` is malformed.
///
/// An `AllocError` comes only where a growth of memory was refused.
fn evidence_at(alloc: Global, scene: &Scene<'_, '_, '_>, at: u32) -> Result<Evidence, AllocError>
    requires forms { scene.now.forms.now ≡ map form_of scene.now.table.now.kinds }
    requires whole { IsWhole scene.now.table.now }
    requires fits { at < length scene.now.image.now }
    requires dead { (before : List PlainInst) × (rule : Rule) × (place : ℕ)
        × Knows scene.now.definitions.now before
        × IsMalformed scene.now.table.now before (drop at scene.now.image.now) rule place }
    ensures { (before : List PlainInst) (rule : Rule) (place : ℕ) → Knows scene.now.definitions.now before
        → IsMalformed scene.now.table.now before (drop at scene.now.image.now) rule place
        → IfOk result (λ e. Shows scene.now.table.now before (drop at scene.now.image.now) rule place e) }
{
    let head = word(scene.image, at);
    let count = head / 65536;
    let opcode = (head % 65536) as u16;
    if count == 0 {
        return Ok(Evidence::Opcode { opcode });
    }
    if count > scene.image.len() - at {
        return Ok(Evidence::Opcode { opcode });
    }
    let Some(entry) = scene.table.entry(opcode) else {
        return Ok(Evidence::Opcode { opcode });
    };
    let place = Place {
        opcode,
        first: at + 1,
        end: at + count,
    };
    let Some(Failed { operand, kind }) = failed_operand(alloc, scene, &entry, place)? else {
        unreachable!();
    };
    Ok(Evidence::Due {
        opcode,
        operand,
        kind,
    })
}

/// What shows a fault that `decode` answered, I1 to I12 (SPIR-V Specification 1.6, section 2.3).
///
/// - I1 to I3: the opcode that the instruction's first word tells.
/// - I4, and I6 to I12: the opcode, how many operands the words before spell, and the number of the kind that is due
///   after them and refuses what follows: of a Composite its base.
/// - I5: the same, and no kind, since none is due.
///
/// The words up to the instruction are read once more, so time and memory are at most those of `decode`.
///
/// `Memory` comes only where a growth of memory was refused.
pub fn word_evidence(
    alloc: Global,
    table: &Table,
    image: &Image,
    fault: Fault,
) -> Result<Evidence, Memory>
    // The fault is that of the malformed instruction.
    requires after_header { 5 ≤ fault.word }
    requires dead { IsMalformedAt table.now (drop 5 image.now) fault.rule fault.inst (fault.word - 5) }
    ensures { IfOk result (λ e. IsEvidence table.now (drop 5 image.now) fault.rule fault.inst (fault.word - 5) e) }
{
    let forms = table.forms();
    let before = read_before(alloc, table, forms, image, fault.inst)?;
    let scene = Scene {
        table,
        forms,
        definitions: &before.definitions,
        image,
    };
    let evidence = evidence_at(alloc, &scene, before.at)?;
    Ok(evidence)
}
