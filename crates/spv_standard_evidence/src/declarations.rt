//! What shows that one of the rules O3, O5, O6, O12 or O13 is broken.

ghost use Rattle.std.specs.Prelude.{◌≡◌, ◌↔◌, ℕ, IsTrue, Some, slice_get};
ghost use Rattle.spv_table.specs.Table.{Table};
ghost use Rattle.spv_module.specs.Module.{plain_inst};
ghost use Rattle.spv_module.specs.Operand.{Id};
ghost use Rattle.spv_module.specs.declared.fault.Rule.TheVariants as rules;
ghost use Rattle.spv_declarations.specs.Broken.{Broken};
ghost use Rattle.spv_declarations.specs.Declarations.{IsIncapable};
ghost use Rattle.spv_declarations.specs.Entry.{IsRepeated};
ghost use Rattle.spv_declarations.specs.Given.{HasIdBehind};
ghost use Rattle.spv_standard_evidence.specs.Declarations.{IsEvidence, IsUndecorated};
ghost use Rattle.spv_standard_evidence.specs.inner.Declarations as inner;
ghost use Rattle.spv_standard_evidence.specs.inner.Declarations.{AreNamesakes};

use spv_declarations::named;
use spv_evidence::Evidence;
use spv_module::{Inst, Operand, Rule, opcode};
use spv_type_forms::Definitions;

/// Whether two instructions are OpEntryPoints of one execution model and one name.
fn are_namesakes(one: &Inst<'_>, other: &Inst<'_>) -> bool
    ensures { IsTrue result ↔ AreNamesakes (plain_inst one.now) (plain_inst other.now) }
{
    let Some(own) = named(one) else {
        return false;
    };
    match named(other) {
        Some(same) => own.0 == same.0 && own.1 == same.1,
        None => false,
    }
}

/// O3: the first OpEntryPoint that has the model and the name.
fn entry_evidence(definitions: &Definitions, number: u32) -> Evidence
    requires { IsRepeated definitions.now number }
    ensures { (G : Table) → IsEvidence G definitions.now rules.O3 number result }
{
    let inst = definitions.inst(number);
    for before in 0..number {
        if are_namesakes(inst, definitions.inst(before)) {
            return Evidence::Earlier { inst: before };
        }
    }
    unreachable!()
}

/// Whether the operand of a number is an id.
fn is_id(inst: &Inst<'_>, k: usize) -> bool
    ensures { IsTrue result ↔ ((x : ℕ) × (slice_get (plain_inst inst.now).operands k ≡ Some (Id x))) }
{
    match inst.operands.as_slice().get(k) {
        Some(Operand::Id(_)) => true,
        _ => false,
    }
}

/// The first operand behind the first two that is an id.
pub fn id_behind(inst: &Inst<'_>) -> u32
    requires { HasIdBehind (plain_inst inst.now).operands }
    ensures { inner.IsIdAt (plain_inst inst.now).operands result }
{
    for k in 2..inst.operands.as_slice().len() {
        if is_id(inst, k) {
            return k as u32;
        }
    }
    unreachable!()
}

/// O13: the width of an OpTypeInt, or VulkanMemoryModel.
fn capability_evidence(definitions: &Definitions, number: u32) -> Evidence
    requires { (G : Table) × IsIncapable G definitions.now number }
    ensures { (G : Table) → IsIncapable G definitions.now number
        → IsEvidence G definitions.now rules.O13 number result }
{
    if definitions.inst(number).opcode == opcode::MEMORY_MODEL {
        Evidence::Capability {
            capability: 5345,
            implied: true,
        }
    } else {
        Evidence::Operand { operand: 1 }
    }
}

/// What shows that one of the rules O3, O5, O6, O12 or O13 is broken at the instruction of a number, from 0.
///
/// Time is linear in the words before and those of the instruction. It takes no memory.
pub fn declaration_evidence(definitions: &Definitions, rule: Rule, inst: u32) -> Evidence
    requires rule { IsUndecorated rule }
    requires broken { (G : Table) × Broken G definitions.now rule inst }
    ensures { (G : Table) → Broken G definitions.now rule inst → IsEvidence G definitions.now rule inst result }
{
    match rule {
        Rule::O3 => entry_evidence(definitions, inst),
        Rule::O5 => Evidence::Operand {
            operand: id_behind(definitions.inst(inst)),
        },
        Rule::O12 => Evidence::Operand { operand: 0 },
        Rule::O13 => capability_evidence(definitions, inst),
        _ => Evidence::Operand { operand: 1 },
    }
}
