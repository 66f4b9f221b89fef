//! O4: the interfaces of entry points.

ghost use Rattle.std.specs.Prelude.{◌≡◌, ℕ, IfOk, map};
ghost use Rattle.spv_table.specs.Table.{Table};
ghost use Rattle.spv_module.specs.Module.{plain_inst};
ghost use Rattle.spv_layout.specs.Place.{AreFew};
ghost use Rattle.spv_layout.specs.Plan.{IsPlan};
ghost use Rattle.spv_ids.specs.Outcome.{IsDefinitionOf, definition_in};
ghost use Rattle.spv_interfaces.specs.Interface.{IsMisfaced};
ghost use Rattle.spv_interfaces.specs.inner.First.{IsFirstOf};

use crate::entries::entry_points;
use crate::named::first_unnamed;
use spv_ids::Ids;
use spv_layout::Plan;
use spv_module::Inst;
use spv_type_forms::Definitions;
use std::alloc::{AllocError, Global};

/// The number, from 0, of the first OpEntryPoint that breaks O4 in a module of version 1.`minor` (SPIR-V Specification
/// 1.6, OpEntryPoint). `plan` and `ids` are what `lay_out` and `number` answered of the module, and `definitions` is of
/// them.
///
/// Where each entry point has all variables of the module in its interface that may have to be there, no function is
/// looked at; and where each has those that are used, no call is. Otherwise entry points are looked at 64 at a time, or
/// 64 at a time the variables that are used and that some of them do not have, whichever are fewer: a pass over the
/// calls and the uses of variables, of each definition once, serves so many. So time is linear in the words of the
/// module times a 64th of the number of the fewer.
///
/// An `AllocError` comes only where a growth of memory was refused.
pub fn first_misfaced(
    alloc: Global,
    definitions: &Definitions,
    insts: &[Inst<'_>],
    plan: &Plan,
    ids: &Ids,
    minor: u8,
) -> Result<Option<u32>, AllocError>
    requires few { AreFew insts.now }
    requires same { definitions.now ≡ map plain_inst insts.now }
    requires plan { (G : Table) × IsPlan G (map plain_inst insts.now) plan.now }
    requires ids { (x : ℕ) → IsDefinitionOf (map plain_inst insts.now) x (definition_in ids.now x) }
    // By the table of which the plan is.
    ensures { (G : Table) → IsPlan G (map plain_inst insts.now) plan.now
        → IfOk result (IsFirstOf (IsMisfaced G minor definitions.now)) }
{
    let before = plan.before_functions();
    let found = entry_points(alloc, definitions, minor, before)?;
    if found.sound.is_empty() {
        return Ok(found.unsound);
    }
    let unnamed = first_unnamed(
        alloc,
        definitions,
        insts,
        plan,
        ids,
        minor,
        found.sound.as_slice(),
    )?;
    match unnamed {
        Some(number) => Ok(Some(number)),
        None => Ok(found.unsound),
    }
}
