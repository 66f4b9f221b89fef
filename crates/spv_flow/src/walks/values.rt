//! The first use of a value that some walk misses.

ghost use Rattle.std.specs.Prelude.{◌≤◌, ◌<◌, ◌+◌, length, sum_by, IfOk, IfErr};
ghost use Rattle.spv_table.specs.Table.{Table};
ghost use Rattle.spv_module.specs.Module.{plain_insts};
ghost use Rattle.spv_layout.specs.Stage.{of_branches, of_values};
ghost use Rattle.spv_layout.specs.First.{IsUnbroken};
ghost use Rattle.spv_layout.specs.Place.{word_count, IsShort, AreFew};
ghost use Rattle.spv_layout.specs.Plan.{IsPlan};
ghost use Rattle.spv_ids.specs.Outcome.{AreIds};
ghost use Rattle.spv_flow.specs.declared.branches.fork.Fork.{Fork};
ghost use Rattle.spv_flow.specs.branches.Broken.{Broken};
ghost use Rattle.spv_flow.specs.walks.inner.Code.{insts_of, IsCode};
ghost use Rattle.spv_flow.specs.walks.Found.{IsRefusal};
ghost use Rattle.spv_flow.specs.walks.inner.Unavailable.{IsFirstOf, IsRuleAt};

use crate::walks::code::Code;
use crate::walks::divide::function_extent;
use crate::walks::function::{Buffers, first_in_function};
use spv_ids::Ids;
use spv_layout::Plan;
use spv_module::opcode::{FUNCTION, PHI};
use spv_module::{Inst, Module, Rule, Stop};
use std::alloc::{AllocError, Global};

/// The first instruction at which a walk misses a value that is used there.
fn first_missing(alloc: Global, code: &Code<'_, '_>) -> Result<Option<u32>, AllocError>
    requires code { (G : Table) × IsCode G code.now }
    requires most { AreFew code.now.insts.now }
    ensures { IfOk result (λ o. (G : Table) → IsCode G code.now → IsFirstOf G (insts_of code.now) o) }
{
    let mut buffers = Buffers::new(alloc, code.insts.len())?;
    let count = code.insts.len() as u32;
    let mut at = code.globals;
    while at < count {
        if code.insts[at as usize].opcode == FUNCTION {
            let extent = function_extent(code, at);
            if let Some(inst) = first_in_function(alloc, code, at, extent, &mut buffers)? {
                return Ok(Some(inst));
            }
            at = extent.end;
        } else {
            at += 1;
        }
    }
    Ok(None)
}

/// The rule that is broken where an instruction uses a value that a walk misses.
fn rule(code: &Code<'_, '_>, inst: u32) -> Rule
    requires { inst < length code.now.insts.now }
    ensures { IsRuleAt (insts_of code.now) inst result }
{
    if code.insts[inst as usize].opcode == PHI {
        Rule::A2
    } else {
        Rule::A1
    }
}

/// Looks whether every value is defined where it is used, on every walk through its function (SPIR-V Specification 1.6,
/// section 2.16, said by walks instead of dominators). `plan` and `ids` are what `lay_out` and `number` answered of
/// that module, in which `check_branches` found no fault.
///
/// A `Fault` tells the first rule that is broken, with its instruction and that instruction's first word (words and
/// instructions from 0):
/// - A1: on a walk to an instruction other than OpPhi, a local value that it uses is not the result of an earlier one
///   (2.16).
/// - A2, at OpPhi: on a walk, the value that is paired with the block that the walk came from is local, and not the
///   result of
///   an instruction before the walk's last OpLabel (2.16, OpPhi).
///
/// `Memory` comes only where a growth of memory was refused.
pub fn check_values(alloc: Global, module: &Module<'_>, plan: &Plan, ids: &Ids) -> Result<(), Stop>
    // The condition of `lay_out`, and that the plan and the ids are what was answered, by some table, of a module whose
    // branches are sound, whether F4 is asked or not.
    requires words { IsShort (plain_insts «module».now) }
    requires known { (fork : Fork) × (G : Table) × IsPlan G (plain_insts «module».now) plan.now
        × AreIds G «module».now.header.bound (plain_insts «module».now) ids.now
        × IsUnbroken (Broken fork G (plain_insts «module».now)) of_branches }
    ensures unbroken { (fork : Fork) (G : Table) → IsPlan G (plain_insts «module».now) plan.now
        → AreIds G «module».now.header.bound (plain_insts «module».now) ids.now
        → IsUnbroken (Broken fork G (plain_insts «module».now)) of_branches
        → IfOk result (λ _. IsUnbroken (Broken fork G (plain_insts «module».now)) of_values) }
    ensures refused { (fork : Fork) (G : Table) → IsPlan G (plain_insts «module».now) plan.now
        → AreIds G «module».now.header.bound (plain_insts «module».now) ids.now
        → IsUnbroken (Broken fork G (plain_insts «module».now)) of_branches
        → IfErr result (λ s. IsRefusal fork G (plain_insts «module».now) s) }
{
    let insts = module.insts.as_slice();
    let globals = plan.before_functions();
    let code = Code {
        insts,
        plan,
        ids,
        globals,
    };
    if let Some(inst) = first_missing(alloc, &code)? {
        return Err(plan.stop_at(rule(&code, inst), inst));
    }
    Ok(())
}
