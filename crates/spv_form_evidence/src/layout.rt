//! What shows that a rule on shapes or on the layout is broken.

mod automaton;
pub mod laws;

ghost use Rattle.std.specs.Prelude.{IfOk, map};
ghost use Rattle.spv_table.specs.Table.{Table};
ghost use Rattle.spv_module.specs.Module.{plain_inst, plain_insts};
ghost use Rattle.spv_layout.specs.Broken.{Broken};
ghost use Rattle.spv_layout.specs.Layout.{BeginsLayout, seen_classes};
ghost use Rattle.spv_form_evidence.specs.layout.Evidence.{IsEvidence};
ghost use Rattle.spv_form_evidence.specs.layout.inner.Told.{IsMayCome, IsShapeOf};

use crate::layout::automaton::{opcodes_at, state_after};
use spv_evidence::{Evidence, Listed};
use spv_layout::{has_row, stops};
use spv_module::{Inst, Module, Profile, Rule};
use std::alloc::{AllocError, Global};

/// P1: the opcode of an instruction, and whether a profile has a row for it.
fn shape_of(profile: Profile, inst: &Inst<'_>) -> Evidence
    ensures { IsShapeOf profile inst.now.opcode result }
{
    Evidence::Shape {
        opcode: inst.opcode,
        known: has_row(profile, inst.opcode),
    }
}

/// L1 and L2: the opcodes that may come after instructions, and whether a module may end there.
///
/// The error comes when out of memory.
fn may_come(alloc: Global, profile: Profile, before: &[Inst<'_>]) -> Result<Evidence, AllocError>
    requires { BeginsLayout (seen_classes profile (map plain_inst before.now)) }
    ensures { IfOk result (λ e. IsMayCome profile (map plain_inst before.now) e) }
{
    let Some(state) = state_after(profile, before) else {
        unreachable!();
    };
    let opcodes = opcodes_at(alloc, profile, state)?;
    Ok(Evidence::MayCome {
        opcodes: Listed::from_vec(opcodes),
        end: stops(state),
    })
}

/// What shows that P1, L1 or L2 is broken at an instruction under a profile, where `lay_out` told it (the table of
/// shapes is own; SPIR-V Specification 1.6, section 2.4).
///
/// - P1: the opcode of the instruction, and whether the profile has a row for it.
/// - L1, and at the end L2: the opcodes of the profile that may come at that place, in order, and whether the module
///   may end there.
///
/// Time is linear in the number of instructions. P1 takes no memory.
///
/// The error comes only where a growth of memory was refused.
pub fn layout_evidence(
    alloc: Global,
    profile: Profile,
    module: &Module<'_>,
    rule: Rule,
    inst: u32,
) -> Result<Evidence, AllocError>
    // By some table the rule is broken there.
    requires broken { (G : Table) × Broken profile G (plain_insts «module».now) rule inst }
    ensures { (G : Table) → Broken profile G (plain_insts «module».now) rule inst
        → IfOk result (λ e. IsEvidence profile G (plain_insts «module».now) rule inst e) }
{
    let insts = module.insts.as_slice();
    let at = inst as usize;
    match rule {
        Rule::P1 => Ok(shape_of(profile, &insts[at])),
        _ => may_come(alloc, profile, &insts[..at]),
    }
}
