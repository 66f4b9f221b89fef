//! What shows that O4 is broken: operands of the OpEntryPoint, or a variable that is not in its interface.

ghost use Rattle.std.specs.Prelude.{◌≡◌, ℕ, IfOk, map};
ghost use Rattle.spv_table.specs.Table.{Table};
ghost use Rattle.spv_module.specs.Module.{plain_inst};
ghost use Rattle.spv_module.specs.declared.fault.Rule.TheVariants.{O4};
ghost use Rattle.spv_layout.specs.Place.{IsShort};
ghost use Rattle.spv_layout.specs.Plan.{IsPlan};
ghost use Rattle.spv_ids.specs.Outcome.{IsDefinitionOf, definition_in};
ghost use Rattle.spv_interfaces.specs.Interface.{IsMisfaced};
ghost use Rattle.spv_standard_evidence.specs.Interfaces.{IsEvidence};

mod missing;
mod unsound;

use missing::missing_evidence;
use spv_evidence::Evidence;
use spv_ids::Ids;
use spv_interfaces::entry;
use spv_layout::Plan;
use spv_module::Inst;
use spv_type_forms::Definitions;
use std::alloc::{AllocError, Global};
use unsound::unsound_evidence;

/// What shows that O4 is broken at the OpEntryPoint of a number, from 0, in a module of version 1.`minor`: two operands
/// that are one id, or a variable of another class than Input and Output; or else a variable that is not in the
/// interface, functions of which each calls the next, as few as any, from that of the entry point to one that uses the
/// variable, and the first instruction of this one that does. `plan` and `ids` are what `lay_out` and `number` answered
/// of the module, and `definitions` is of them.
///
/// Time is linear in the words of the module, but for logarithms. An `AllocError` comes only where a growth of memory
/// was refused.
pub fn interface_evidence(
    alloc: Global,
    definitions: &Definitions,
    insts: &[Inst<'_>],
    plan: &Plan,
    ids: &Ids,
    minor: u8,
    inst: u32,
) -> Result<Evidence, AllocError>
    requires words { IsShort (map plain_inst insts.now) }
    requires same { definitions.now ≡ map plain_inst insts.now }
    requires ids { (x : ℕ) → IsDefinitionOf (map plain_inst insts.now) x (definition_in ids.now x) }
    requires broken { (G : Table) × IsPlan G (map plain_inst insts.now) plan.now
        × IsMisfaced G minor definitions.now inst }
    ensures { (G : Table) → IsPlan G (map plain_inst insts.now) plan.now
        → IfOk result (IsEvidence G minor definitions.now O4 inst) }
{
    let entry_point = definitions.inst(inst);
    let Some((function, interface)) = entry(entry_point) else {
        unreachable!();
    };
    // The interface stands behind all other operands.
    let before = (entry_point.operands.as_slice().len() - interface.len()) as u32;
    match unsound_evidence(alloc, definitions, minor, interface, before)? {
        Some(evidence) => Ok(evidence),
        None => Ok(missing_evidence(
            alloc,
            definitions,
            insts,
            plan,
            ids,
            minor,
            function,
            interface,
        )?),
    }
}
