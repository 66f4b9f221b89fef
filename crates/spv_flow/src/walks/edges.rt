//! The graph of a function's blocks.

ghost use Rattle.std.specs.Prelude.{◌≡◌, ◌<◌, ◌≤◌, ◌+◌, ◌-◌, ℕ, List, Some, length, slice_index, slice_get};
ghost use Rattle.std.specs.Prelude.{OnOk, MatchOption};
ghost use Rattle.spv_table.specs.Table.{Table};
ghost use Rattle.spv_module.specs.Operand.{PlainInst};
ghost use Rattle.spv_layout.specs.Shape.{IsUse};
ghost use Rattle.spv_layout.specs.declared.form.Role.TheVariants.{Label};
ghost use Rattle.spv_layout.specs.Place.{IsOfFunction, AreFew};
ghost use Rattle.spv_flow.specs.branches.Target as target;
ghost use Rattle.spv_flow.specs.branches.Target.{IsOp};
ghost use Rattle.spv_flow.specs.walks.inner.Code.{insts_of, IsCode};
ghost use Rattle.spv_flow.specs.walks.inner.Adds.{AddsBy};
ghost use Rattle.spv_flow.specs.walks.inner.Leading.{AreBlocks, IsLabelAt, HasLabel, LeadsTo};
ghost use Rattle.spv_flow.specs.walks.inner.Leading.{AreInGraph};

use crate::branches::{label_in, next_label};
use crate::walks::code::{Code, is_branch, is_terminator};
use crate::walks::operands::label;
use spv_graphs::{Block, Graph};
use std::alloc::AllocError;

/// A function divided into blocks.
#[derive(Clone, Copy)]
pub struct Blocks<'b> {
    /// Its OpFunction, and the instruction after its last one.
    pub function: u32,
    pub end: u32,
    /// The first instruction of each block, and then `end`.
    pub starts: &'b [u32],
    /// The number of the block that begins at an instruction.
    pub numbers: &'b [u32],
}

impl Blocks<'_> {
    /// The block that begins at an OpLabel, if it is of the function.
    #[inline(always)]
    pub fn at_label(&self, label: u32) -> Option<u32>
        requires { label < length self.now.numbers.now }
        ensures { (is : List PlainInst) → AreBlocks is self.now → IsOp is label target.is_label
            → MatchOption result (¬ (IsOfFunction is label self.now.function))
            (λ b. (b + 1 < length self.now.starts.now) × (slice_index self.now.starts.now b ≡ label)) }
    {
        if self.function <= label && label < self.end {
            Some(self.numbers[label as usize])
        } else {
            None
        }
    }
}

/// The block whose label operand `n` of an instruction is, if it is one of the function.
#[inline(always)]
pub fn target(code: &Code<'_, '_>, blocks: &Blocks<'_>, at: u32, n: usize) -> Option<u32>
    requires blocks { AreBlocks (insts_of code.now) blocks.now }
    requires at { at < length code.now.insts.now }
    ensures { (G : Table) → IsCode G code.now
        → MatchOption result ((c : ℕ) → ¬ (IsLabelAt G (insts_of code.now) blocks.now.starts.now at n c))
        (λ c. IsLabelAt G (insts_of code.now) blocks.now.starts.now at n c) }
{
    let id = label(&code.insts[at as usize], n)?;
    let place = code.label_of(id)?;
    blocks.at_label(place)
}

/// The block whose label an id is, if it is one of the function.
#[inline(always)]
fn block_at(code: &Code<'_, '_>, blocks: &Blocks<'_>, id: u32) -> Option<u32>
    requires blocks { AreBlocks (insts_of code.now) blocks.now }
    ensures { (G : Table) (at n : ℕ) (i : PlainInst) → IsCode G code.now → slice_get (insts_of code.now) at ≡ Some i
        → IsUse G i n id Label
        → MatchOption result ((c : ℕ) → ¬ (IsLabelAt G (insts_of code.now) blocks.now.starts.now at n c))
        (λ c. IsLabelAt G (insts_of code.now) blocks.now.starts.now at n c) }
{
    let place = code.label_of(id)?;
    blocks.at_label(place)
}

/// Adds the blocks whose labels a branch has.
fn add_labels(
    code: &Code<'_, '_>,
    blocks: &Blocks<'_>,
    at: u32,
    targets: &mut Vec<u32>,
) -> Result<(), AllocError>
    requires blocks { AreBlocks (insts_of code.now) blocks.now }
    requires at { at < length code.now.insts.now }
    requires op { IsOp (insts_of code.now) at target.is_branch }
    ensures { OnOk result (AddsBy code.now (λ G c. HasLabel G (insts_of code.now) blocks.now.starts.now at c)
        targets.old.items targets.new.items) }
{
    let inst = &code.insts[at as usize];
    let opcode = inst.opcode;
    let operands = inst.operands.as_slice();
    let mut n = 0;
    while n < operands.len() {
        match label_in(opcode, operands, n) {
            Some(id) => {
                if let Some(block) = block_at(code, blocks, id) {
                    targets.push(block)?;
                }
                n = next_label(opcode, operands, n, id);
            },
            None => n += 1,
        }
    }
    Ok(())
}

/// Adds the blocks that may come right after a block.
fn add_targets(
    code: &Code<'_, '_>,
    blocks: &Blocks<'_>,
    block: usize,
    targets: &mut Vec<u32>,
) -> Result<(), AllocError>
    requires blocks { AreBlocks (insts_of code.now) blocks.now }
    requires block { block + 1 < length blocks.now.starts.now }
    requires most { AreFew code.now.insts.now }
    ensures { OnOk result (AddsBy code.now (λ G c. LeadsTo G (insts_of code.now) blocks.now.starts.now block c)
        targets.old.items targets.new.items) }
{
    let last = blocks.starts[block + 1] - 1;
    let opcode = code.insts[last as usize].opcode;
    if is_branch(opcode) {
        return add_labels(code, blocks, last, targets);
    }
    if !is_terminator(opcode) && block + 2 < blocks.starts.len() {
        targets.push(block as u32 + 1)?;
    }
    Ok(())
}

/// Makes a graph that of a function's blocks. A block's values are its instructions, by their numbers.
pub fn build(code: &Code<'_, '_>, blocks: &Blocks<'_>, graph: &mut Graph) -> Result<(), AllocError>
    requires code { (G : Table) × IsCode G code.now }
    requires blocks { AreBlocks (insts_of code.now) blocks.now }
    requires most { AreFew code.now.insts.now }
    ensures { OnOk result (AreInGraph code.now blocks.now.starts.now graph.new (length blocks.now.starts.now - 1)) }
{
    graph.blocks.clear();
    graph.targets.clear();
    for block in 0..blocks.starts.len() - 1 {
        let first_target = graph.targets.len();
        add_targets(code, blocks, block, &mut graph.targets)?;
        graph.blocks.push(Block {
            first_target,
            end_target: graph.targets.len(),
            first_value: blocks.starts[block],
            end_value: blocks.starts[block + 1],
        })?;
    }
    Ok(())
}
