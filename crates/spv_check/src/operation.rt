//! Whether the rule of operations holds at an instruction.

ghost use Rattle.std.specs.Prelude.{◌↔◌, ◌<◌, ℕ, length, IfOk, IsTrue};
ghost use Rattle.spv_table.specs.Table.{Table};
ghost use Rattle.spv_module.specs.Module.{plain_insts};
ghost use Rattle.spv_layout.specs.Plan.{IsPlan};
ghost use Rattle.spv_ids.specs.Outcome.{IsDefinitionOf, definition_in};
ghost use Rattle.spv_ops.specs.Typed.{IsTypedAt};

use spv_ids::Ids;
use spv_layout::Plan;
use spv_module::Module;
use spv_ops::operation_holds;
use spv_table::Memory;
use spv_type_forms::{Definitions, Matching};
use std::alloc::Global;

/// Whether Y5 is unbroken at instruction `inst`, from 0: whether its opcode's row of types, if there is one, holds of
/// its result type, the types that its value operands are declared with, and its literals (SPIR-V Specification 1.6,
/// sections 3.49.1, 3.49.8, 3.49.11 to 3.49.15, 3.49.17, 3.49.18 and 3.49.20). `plan` and `ids` are what `lay_out` and
/// `number` answered of that module. Its time is linear in the operands of that instruction; at an OpCopyLogical it is
/// near-linear in the words of the instructions up to the declarations of the two types, and takes memory.
///
/// `Memory` comes only where a growth of memory was refused.
pub fn op_holds(
    alloc: Global,
    module: &Module<'_>,
    plan: &Plan,
    ids: &Ids,
    inst: u32,
) -> Result<bool, Memory>
    requires plan { (G : Table) × IsPlan G (plain_insts «module».now) plan.now }
    requires ids { (x : ℕ) → IsDefinitionOf (plain_insts «module».now) x (definition_in ids.now x) }
    requires inst { inst < length (plain_insts «module».now) }
    ensures { (G : Table) → IsPlan G (plain_insts «module».now) plan.now → IfOk result (λ b. IsTrue b
        ↔ IsTypedAt G (plain_insts «module».now) inst) }
{
    let definitions = Definitions::new(module.insts.as_slice(), plan, ids);
    let mut matching = Matching::new(alloc);
    let holds = operation_holds(
        alloc,
        &definitions,
        &mut matching,
        inst,
        definitions.inst(inst),
    )?;
    Ok(holds)
}
