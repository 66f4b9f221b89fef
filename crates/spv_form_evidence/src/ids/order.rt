//! What shows that D4 is broken.

ghost use Rattle.std.specs.Prelude.{◌≡◌, ◌<◌, ℕ, List, Some, MatchBool, MatchOption, IfOk};
ghost use Rattle.std.specs.Prelude.{length, map, slice_get};
ghost use Rattle.spv_table.specs.Table.{Table};
ghost use Rattle.spv_module.specs.Operand.{PlainInst};
ghost use Rattle.spv_module.specs.Module.{plain_inst};
ghost use Rattle.spv_module.specs.declared.fault.Rule.TheVariants.{D4};
ghost use Rattle.spv_layout.specs.First.{IsFirst};
ghost use Rattle.spv_layout.specs.Plan.{IsPlan};
ghost use Rattle.spv_layout.specs.Shape.{FitsShape};
ghost use Rattle.spv_layout.specs.Place.{AreFew};
ghost use Rattle.spv_layout.specs.Stage.{of_ids};
ghost use Rattle.spv_ids.specs.Broken.{Broken};
ghost use Rattle.spv_ids.specs.Order.{IsInOrder};
ghost use Rattle.spv_ids.specs.inner.Test.{early_test};
ghost use Rattle.spv_form_evidence.specs.ids.Evidence.{IsEvidence};
ghost use Rattle.spv_form_evidence.specs.ids.inner.Known.{AreFirst, IsFirstOne, kept};
ghost use Rattle.spv_form_evidence.specs.ids.inner.Order.{AreAnnounced, IsSite, IsDisordered};
ghost use Rattle.spv_form_evidence.specs.ids.inner.Uses.{HasUse};

use crate::ids::announced::announced_before;
use crate::ids::definitions::first_definitions;
use crate::ids::kept::Kept;
use crate::ids::uses::use_at;
use spv_evidence::Evidence;
use spv_layout::Plan;
use spv_module::{Inst, opcode};
use std::alloc::{AllocError, Global};

/// The number of section 9 among the sections.
const DECLARATIONS: u8 = 11;

/// Where an instruction stands.
#[derive(Clone, Copy)]
pub struct Site {
    /// The number of the instruction, from 0.
    pub inst: u32,
    pub opcode: u16,
    /// The place of its section's row, as in a `Place`.
    pub section: u8,
}

/// The site of an instruction.
fn site_of(plan: &Plan, inst: &Inst<'_>, at: u32) -> Site
    requires { at < length plan.now }
    ensures { (G : Table) (is : List PlainInst) → IsPlan G is plan.now
        → slice_get is at ≡ Some (plain_inst inst.now) → IsSite is at result }
{
    let Some(place) = plan.at(at) else {
        unreachable!();
    };
    Site {
        inst: at,
        opcode: inst.opcode,
        section: place.section,
    }
}

/// Whether a use of an id may come before its definition. `announced` has the ids that lower instructions announce.
fn may_be_early(site: &Site, announced: &Kept, id: u32) -> bool
    ensures { result ≡ early_test site.now.section site.now.opcode (kept announced.now id) }
{
    if site.section != DECLARATIONS {
        return false;
    }
    match site.opcode {
        opcode::TYPE_FORWARD_POINTER => true,
        opcode::TYPE_STRUCT => announced.get(id).is_some(),
        _ => false,
    }
}

/// Whether a use of an id comes in order. `first` is the first definition of the id.
fn is_in_order(site: &Site, announced: &Kept, id: u32, first: u32) -> bool
    ensures { (is : List PlainInst) (bound n : ℕ) → IsSite is n site.now → AreAnnounced bound is n announced.now
        → id < bound → IsFirstOne is (length is) id first
        → MatchBool result (IsInOrder is n id) (¬ (IsInOrder is n id)) }
{
    if first < site.inst {
        return true;
    }
    may_be_early(site, announced, id)
}

/// The first definition of the id that operand `k` of an instruction uses, if the use is not in order.
fn disordered(
    definitions: &Kept,
    announced: &Kept,
    site: &Site,
    inst: &Inst<'_>,
    k: usize,
) -> Option<u32>
    ensures { (G : Table) (bound : ℕ) (is : List PlainInst) (n : ℕ) → FitsShape G (plain_inst inst.now)
        → IsSite is n site.now
        → AreFirst bound is (length is) definitions.now → AreAnnounced bound is n announced.now
        → MatchOption result ((m : ℕ) → ¬ (HasUse G (plain_inst inst.now) (IsDisordered bound is n m) k))
        (λ m. HasUse G (plain_inst inst.now) (IsDisordered bound is n m) k) }
{
    let Some(used) = use_at(inst, k) else {
        return None;
    };
    let Some(first) = definitions.get(used.id) else {
        return None;
    };
    if is_in_order(site, announced, used.id, first) {
        None
    } else {
        Some(first)
    }
}

/// What shows that a use comes before each definition of its id (D4): the first operand that is such a use, and the
/// first definition. `at` is the number of the instruction, from 0.
///
/// Time is that of the operands of the instruction and of all instructions, with a search among ids for each. Memory
/// grows with the ids that are kept, and not with the bound. An `AllocError` comes only where a growth of memory was
/// refused.
pub fn not_in_order(
    alloc: Global,
    insts: &[Inst<'_>],
    plan: &Plan,
    bound: u32,
    at: u32,
) -> Result<Evidence, AllocError>
    requires few { AreFew insts.now }
    requires first { (G : Table) × IsPlan G (map plain_inst insts.now) plan.now
        × IsFirst (Broken G bound (map plain_inst insts.now)) of_ids D4 at }
    ensures { (G : Table) → IsPlan G (map plain_inst insts.now) plan.now
        → IfOk result (λ e. IsEvidence G bound (map plain_inst insts.now) D4 at e) }
{
    let definitions = first_definitions(alloc, insts, bound)?;
    let announced = announced_before(alloc, insts, bound, at)?;
    let inst = &insts[at as usize];
    let site = site_of(plan, inst, at);
    for k in 0..inst.operands.as_slice().len() {
        if let Some(first) = disordered(&definitions, &announced, &site, inst, k) {
            return Ok(Evidence::Defined {
                operand: k as u32,
                inst: first,
            });
        }
    }
    unreachable!()
}
