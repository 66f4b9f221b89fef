//! What shows that one of the rules O14 to O20 or O23 is broken: the operands of the instruction.

ghost use Rattle.std.specs.Prelude.{◌≡◌, IfOk, List};
ghost use Rattle.spv_table.specs.Table.{Table};
ghost use Rattle.spv_module.specs.Module.{plain_inst};
ghost use Rattle.spv_module.specs.Operand.{PlainInst};
ghost use Rattle.spv_module.specs.declared.fault.Rule.TheVariants as rules;
ghost use Rattle.spv_kernel_operands.specs.Broken.{Broken, IsBrokenBy};
ghost use Rattle.spv_kernel_operands.specs.Pointers as spec;
ghost use Rattle.spv_standard_evidence.specs.Operands.{IsEvidence, Shows};

mod scopes;
mod switch;

use scopes::scope_evidence;
use spv_evidence::Evidence;
use spv_module::{Inst, Rule, opcode};
use spv_type_forms::Definitions;
use std::alloc::{AllocError, Global};
use switch::switch_evidence;

/// The operand that is the pointer of an instruction which writes, or of an atomic.
fn pointer_seat(code: u16) -> u32
    ensures { result ≡ spec.pointer_seat code }
{
    match code {
        opcode::STORE
        | opcode::COPY_MEMORY
        | opcode::COPY_MEMORY_SIZED
        | opcode::ATOMIC_STORE
        | opcode::ATOMIC_FLAG_CLEAR => 0,
        _ => 2,
    }
}

/// O18: the loop control, or the two weights.
fn control_evidence(inst: &Inst<'_>) -> Evidence
    requires { (G : Table) × (is : List PlainInst) × IsBrokenBy G is (plain_inst inst.now) rules.O18 }
    ensures { (G : Table) (is : List PlainInst) → Shows G is (plain_inst inst.now) rules.O18 result }
{
    if inst.opcode == opcode::LOOP_MERGE {
        Evidence::Operand { operand: 2 }
    } else {
        Evidence::Pair {
            first: 3,
            second: 4,
        }
    }
}

/// What shows that one of the rules O14 to O20 is broken by an instruction.
fn broken_by(
    alloc: Global,
    definitions: &Definitions,
    rule: Rule,
    inst: &Inst<'_>,
) -> Result<Evidence, AllocError>
    requires { (G : Table) × IsBrokenBy G definitions.now (plain_inst inst.now) rule }
    ensures { (G : Table) → IsBrokenBy G definitions.now (plain_inst inst.now) rule
        → IfOk result (Shows G definitions.now (plain_inst inst.now) rule) }
{
    match rule {
        Rule::O14 => Ok(scope_evidence(definitions, inst)),
        Rule::O15 | Rule::O16 => Ok(Evidence::Operand {
            operand: pointer_seat(inst.opcode),
        }),
        Rule::O17 => Ok(Evidence::Operand { operand: 2 }),
        Rule::O18 => Ok(control_evidence(inst)),
        Rule::O19 => switch_evidence(alloc, definitions, inst),
        _ => Ok(Evidence::Operand { operand: 0 }),
    }
}

/// What shows that one of the rules O14 to O20 or O23 is broken at the instruction of a number, from 0: the operand, or
/// two operands, that break it.
///
/// Time is linear in the operands of the instruction, but for a logarithm. An `AllocError` comes only where a growth of
/// memory was refused.
pub fn operand_evidence(
    alloc: Global,
    definitions: &Definitions,
    rule: Rule,
    inst: u32,
) -> Result<Evidence, AllocError>
    requires { (G : Table) × Broken G definitions.now rule inst }
    ensures { (G : Table) → Broken G definitions.now rule inst
        → IfOk result (IsEvidence G definitions.now rule inst) }
{
    match rule {
        Rule::O23 => Ok(Evidence::Operand { operand: 2 }),
        _ => broken_by(alloc, definitions, rule, definitions.inst(inst)),
    }
}
