//! The edges and the entry labels of a module.

ghost use Rattle.std.specs.Prelude.{◌≡◌, ◌<◌, ◌≤◌, ◌+◌, ℕ, length, map, IsTrue, IfOk, OnOk};
ghost use Rattle.spv_table.specs.Table.{Table};
ghost use Rattle.spv_module.specs.Module.{plain_inst};
ghost use Rattle.spv_flow.specs.branches.inner.Code.{insts_of, IsCode};
ghost use Rattle.spv_flow.specs.branches.inner.Edges.{IsEdges};
ghost use Rattle.spv_flow.specs.branches.inner.Graph.{AddsTargets, AreGathered, AreEntries};
ghost use Rattle.spv_flow.specs.branches.Target.{IsOp};
ghost use Rattle.spv_flow.specs.branches.Target as target;
ghost use Rattle.spv_layout.specs.Place.{IsOfBlock};

use crate::branches::code::{Code, is_branch};
use crate::branches::edges::Edges;
use crate::branches::labels::{label_in, next_label};
use spv_module::Inst;
use spv_module::opcode::{FUNCTION, LABEL, PHI};
use std::alloc::{AllocError, Global};

/// What a look at all opcodes tells.
#[derive(Drop)]
pub struct Overview {
    /// Which instructions are labels of entry blocks.
    pub entries: Vec<bool>,
    /// Whether some instruction is an OpPhi.
    pub has_phis: bool,
}

/// Adds the edges of a branch that is of a block.
fn add_targets(
    code: &Code<'_, '_>,
    edges: &mut Edges,
    at: u32,
    block: u32,
) -> Result<(), AllocError>
    requires edges { IsEdges edges.old }
    requires count { length edges.old.heads.items ≡ length code.now.insts.now }
    requires at { at < length code.now.insts.now }
    requires op { IsOp (insts_of code.now) at target.is_branch }
    requires block { block < length code.now.insts.now }
    ensures edges { OnOk result (IsEdges edges.new) }
    ensures count { OnOk result (length edges.new.heads.items ≡ length code.now.insts.now) }
    ensures adds { OnOk result ((G : Table) → IsCode G code.now → IsOfBlock (insts_of code.now) at block
        → AddsTargets G (insts_of code.now) edges.old edges.new at) }
{
    let inst = &code.insts[at as usize];
    let opcode = inst.opcode;
    let operands = inst.operands.as_slice();
    let mut n = 0;
    while n < operands.len() {
        match label_in(opcode, operands, n) {
            Some(id) => {
                if let Some(target) = code.label_of(id) {
                    edges.add(block, target)?;
                }
                n = next_label(opcode, operands, n, id);
            },
            None => n += 1,
        }
    }
    Ok(())
}

/// Adds the edges of an instruction.
#[inline(always)]
fn gather_at(code: &Code<'_, '_>, edges: &mut Edges, at: u32) -> Result<(), AllocError>
    requires code { (G : Table) × IsCode G code.now }
    requires edges { IsEdges edges.old }
    requires count { length edges.old.heads.items ≡ length code.now.insts.now }
    requires at { at < length code.now.insts.now }
    ensures edges { OnOk result (IsEdges edges.new) }
    ensures count { OnOk result (length edges.new.heads.items ≡ length code.now.insts.now) }
    ensures adds { OnOk result ((G : Table) → IsCode G code.now
        → AddsTargets G (insts_of code.now) edges.old edges.new at) }
{
    if !is_branch(code.insts[at as usize].opcode) {
        return Ok(());
    }
    match code.block_of(at) {
        Some(block) => add_targets(code, edges, at, block),
        None => Ok(()),
    }
}

/// The edges of all instructions.
pub fn gather(alloc: Global, code: &Code<'_, '_>) -> Result<Edges, AllocError>
    requires { (G : Table) × IsCode G code.now }
    ensures edges { IfOk result IsEdges }
    ensures count { IfOk result (λ e. length e.heads.items ≡ length code.now.insts.now) }
    ensures gathered { IfOk result (λ e. (G : Table) → IsCode G code.now
        → AreGathered G (insts_of code.now) e (length code.now.insts.now)) }
{
    let mut edges = Edges::new(alloc, code.insts.len())?;
    for at in 0..code.insts.len() {
        gather_at(code, &mut edges, at as u32)?;
    }
    Ok(edges)
}

/// The edges of all instructions, where some is an OpPhi: nothing else asks for them. Where none is, it takes no
/// memory.
pub fn edges_for(alloc: Global, code: &Code<'_, '_>, has_phis: bool) -> Result<Edges, AllocError>
    requires { (G : Table) × IsCode G code.now }
    ensures edges { IfOk result IsEdges }
    ensures count { IfOk result (λ e. IsTrue has_phis → length e.heads.items ≡ length code.now.insts.now) }
    ensures gathered { IfOk result (λ e. IsTrue has_phis → (G : Table) → IsCode G code.now
        → AreGathered G (insts_of code.now) e (length code.now.insts.now)) }
{
    if has_phis {
        gather(alloc, code)
    } else {
        Edges::new(alloc, 0)
    }
}

/// Which instructions are labels of entry blocks, and whether some is an OpPhi.
pub fn survey(alloc: Global, insts: &[Inst<'_>]) -> Result<Overview, AllocError>
    ensures count { IfOk result (λ s. length s.entries.items ≡ length insts.now) }
    ensures entries { IfOk result (λ s. AreEntries (map plain_inst insts.now) s.entries.items (length insts.now)) }
    ensures phis { IfOk result (λ s. (n : ℕ) → n < length insts.now
        → IsOp (map plain_inst insts.now) n target.is_phi → IsTrue s.has_phis) }
{
    let mut entries = vec![in alloc; false; insts.len()]?;
    let mut is_open = false;
    let mut has_phis = false;
    for at in 0..insts.len() {
        let opcode = insts[at].opcode;
        if opcode == FUNCTION {
            is_open = true;
        } else if opcode == LABEL {
            entries[at] = is_open;
            is_open = false;
        } else if opcode == PHI {
            has_phis = true;
        }
    }
    Ok(Overview { entries, has_phis })
}
