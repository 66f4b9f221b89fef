//! What shows that a rule on ids is broken.

mod again;
mod announced;
mod definitions;
mod kept;
pub mod laws;
mod order;
mod range;
mod roles;

pub use roles::role_evidence;

mod scope;
mod undefined;
mod uses;

ghost use Rattle.std.specs.Prelude.{IfOk};
ghost use Rattle.spv_table.specs.Table.{Table};
ghost use Rattle.spv_module.specs.Module.{plain_insts};
ghost use Rattle.spv_layout.specs.First.{IsFirst};
ghost use Rattle.spv_layout.specs.Place.{IsShort};
ghost use Rattle.spv_layout.specs.Plan.{IsPlan};
ghost use Rattle.spv_layout.specs.Stage.{of_ids};
ghost use Rattle.spv_ids.specs.Broken.{Broken};
ghost use Rattle.spv_form_evidence.specs.ids.Evidence.{IsEvidence};

use crate::ids::again::defined_again;
use crate::ids::order::not_in_order;
use crate::ids::range::out_of_range;
use crate::ids::scope::not_in_scope;
use crate::ids::undefined::undefined;
use spv_evidence::Evidence;
use spv_layout::Plan;
use spv_module::{Module, Rule};
use std::alloc::{AllocError, Global};

/// What shows that a rule on ids (D1 to D5) is broken at an instruction: the first that is broken, as `number` tells
/// it. `plan` is what `lay_out` answered of that module. `inst` is the number of the instruction, from 0.
/// - D1: the first operand that is the result, a use or a mention of an id that is 0 or not below the bound.
/// - D2: the first instruction that has the same result.
/// - D3: the first operand that is a use or a mention of an id which no instruction has as its result.
/// - D4: the first operand that is a use which is not in order, and the first definition of its id.
/// - D5: the first operand that is a use which is not in scope, and a local definition of its id with its function.
///
/// Time is that of the words of the module, for D3 to D5 with a search among ids for each instruction and each operand
/// of this one. These take memory, which grows with the ids that instructions define or announce, and not with the
/// bound: an `AllocError` comes only where a growth of memory was refused.
pub fn id_evidence(
    alloc: Global,
    module: &Module<'_>,
    plan: &Plan,
    rule: Rule,
    inst: u32,
) -> Result<Evidence, AllocError>
    // The condition of `lay_out`, and that by the table of the plan the rule is the first that is broken, at the
    // instruction.
    requires words { IsShort (plain_insts «module».now) }
    requires first { (G : Table) × IsPlan G (plain_insts «module».now) plan.now
        × IsFirst (Broken G «module».now.header.bound (plain_insts «module».now)) of_ids rule inst }
    ensures { (G : Table) → IsPlan G (plain_insts «module».now) plan.now
        → IfOk result (λ e. IsEvidence G «module».now.header.bound (plain_insts «module».now) rule inst e) }
{
    let insts = module.insts.as_slice();
    let bound = module.header.bound;
    match rule {
        Rule::D1 => Ok(out_of_range(insts, bound, inst)),
        Rule::D2 => Ok(defined_again(insts, inst)),
        Rule::D3 => undefined(alloc, insts, bound, inst),
        Rule::D4 => not_in_order(alloc, insts, plan, bound, inst),
        Rule::D5 => not_in_scope(alloc, insts, plan, bound, inst),
        _ => unreachable!(),
    }
}
