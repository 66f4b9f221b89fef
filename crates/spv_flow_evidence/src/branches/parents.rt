//! What shows that F3 is broken: a pair of an OpPhi that is wrong, or a predecessor that no pair names.

ghost use Rattle.std.specs.Prelude.{◌≡◌, ◌<◌, ℕ, List, true, false, None, length, IfOk, MatchOption};
ghost use Rattle.spv_table.specs.Table.{Table};
ghost use Rattle.spv_module.specs.declared.fault.Rule.TheVariants as rule;
ghost use Rattle.spv_layout.specs.Place.{IsOfBlock, AreFew};
ghost use Rattle.spv_flow.specs.branches.inner.Code.{insts_of, IsCode};
ghost use Rattle.spv_flow.specs.branches.inner.Edges.{marked};
ghost use Rattle.spv_flow.specs.branches.Target.{IsOp, HasParents};
ghost use Rattle.spv_flow.specs.branches.Target as target;
ghost use Rattle.spv_flow.specs.declared.branches.fork.Fork.TheVariants.{Free};
ghost use Rattle.spv_flow_evidence.specs.branches.Evidence.{ArePredecessors, IsEvidence};
ghost use Rattle.spv_flow_evidence.specs.branches.inner.Known.{AreMarks, HasNames, marked_below, name_of};
ghost use Rattle.spv_flow_evidence.specs.branches.inner.Known as known;

use spv_evidence::{Evidence, Listed};
use spv_flow::branches::{Code, edges_for, label};
use std::alloc::{AllocError, Global};

/// What is wrong of a pair.
#[derive(Clone, Copy)]
enum WrongPair {
    /// The operand that names no predecessor.
    NoPredecessor { operand: u32 },
    /// The two operands that name one parent.
    Twice { first: u32, second: u32 },
}

/// A mark for each instruction, none of which is set.
fn no_marks(alloc: Global, count: usize) -> Result<Vec<bool>, AllocError>
    ensures count { IfOk result (λ v. length v.items ≡ count) }
    ensures clean { IfOk result (λ v. (p : ℕ) → marked v.items p ≡ false) }
{
    vec![in alloc; false; count]
}

/// Marks the predecessors of a block: of each instruction whether it is the OpLabel of one.
fn marks_of(alloc: Global, code: &Code<'_, '_>, block: u32) -> Result<Vec<bool>, AllocError>
    requires code { (G : Table) × IsCode G code.now }
    requires block { block < length code.now.insts.now }
    ensures count { IfOk result (λ v. length v.items ≡ length code.now.insts.now) }
    ensures marks { IfOk result (λ v. (G : Table) → IsCode G code.now → AreMarks G (insts_of code.now) block v.items) }
{
    let edges = edges_for(alloc, code, true)?;
    let mut marks = no_marks(alloc, code.insts.len())?;
    edges.mark(block, &mut marks);
    Ok(marks)
}

/// The marked blocks, in order.
fn marked_blocks(alloc: Global, marks: &[bool]) -> Result<Vec<u32>, AllocError>
    requires few { AreFew marks.now }
    ensures { IfOk result (λ v. v.items ≡ marked_below marks.now (length marks.now)) }
{
    let mut blocks = Vec::new(alloc);
    for block in 0..marks.len() {
        if marks[block] {
            blocks.push(block as u32)?;
        }
    }
    Ok(blocks)
}

/// The first pair of an OpPhi whose parent is no predecessor of its block, or was named before. `names` has of each
/// block the operand that names it: none before, and where no pair is wrong, all after.
fn wrong_pair(
    code: &Code<'_, '_>,
    marks: &[bool],
    names: &mut [Option<u32>],
    at: u32,
) -> Option<WrongPair>
    requires at { at < length code.now.insts.now }
    requires op { IsOp (insts_of code.now) at target.is_phi }
    requires marks { length marks.now ≡ length code.now.insts.now }
    requires names { length names.old ≡ length code.now.insts.now }
    requires none { (p : ℕ) → name_of names.old p ≡ None }
    ensures { (G : Table) (block : ℕ) → IsCode G code.now → IsOfBlock (insts_of code.now) at block
        → AreMarks G (insts_of code.now) block marks.now
        → MatchOption result (HasNames G (insts_of code.now) at marks.now names.new)
        (λ w. (ps : List ℕ) → ArePredecessors G (insts_of code.now) block ps
        → IsEvidence Free G (insts_of code.now) rule.F3 at (known.told w ps)) }
{
    let inst = &code.insts[at as usize];
    for k in 0..inst.operands.as_slice().len() {
        if let Some(id) = label(inst, k) {
            let operand = k as u32;
            let Some(parent) = code.label_of(id) else {
                return Some(WrongPair::NoPredecessor { operand });
            };
            if !marks[parent as usize] {
                return Some(WrongPair::NoPredecessor { operand });
            }
            if let Some(first) = names[parent as usize] {
                let second = operand;
                return Some(WrongPair::Twice { first, second });
            }
            names[parent as usize] = Some(operand);
        }
    }
    None
}

/// The first predecessor that no operand names.
fn unnamed(marks: &[bool], names: &[Option<u32>]) -> Option<u32>
    requires few { AreFew marks.now }
    requires count { length names.now ≡ length marks.now }
    ensures { MatchOption result ((p : ℕ) → marked marks.now p ≡ true → ¬ (name_of names.now p ≡ None))
        (λ p. (marked marks.now p ≡ true) × (name_of names.now p ≡ None)) }
{
    for block in 0..marks.len() {
        if marks[block] && names[block].is_none() {
            return Some(block as u32);
        }
    }
    None
}

/// A wrong pair as evidence.
fn told(wrong: WrongPair, predecessors: Listed<u32>) -> Evidence
    ensures { result ≡ known.told wrong predecessors }
{
    match wrong {
        WrongPair::NoPredecessor { operand } => Evidence::NoPredecessor {
            operand,
            predecessors,
        },
        WrongPair::Twice { first, second } => Evidence::Twice {
            first,
            second,
            predecessors,
        },
    }
}

/// F3: the first pair of an OpPhi that is wrong, or where none is, the first predecessor of its block that no pair
/// names; and all predecessors of its block.
///
/// The error comes when out of memory.
pub fn parents_evidence(alloc: Global, code: &Code<'_, '_>, at: u32) -> Result<Evidence, AllocError>
    requires at { at < length code.now.insts.now }
    requires op { IsOp (insts_of code.now) at target.is_phi }
    requires broken { (G : Table) × IsCode G code.now × (¬ (HasParents G (insts_of code.now) at)) }
    ensures { IfOk result (λ e. (G : Table) → IsCode G code.now → IsEvidence Free G (insts_of code.now) rule.F3 at e) }
{
    let Some(block) = code.block_of(at) else {
        unreachable!();
    };
    let marks = marks_of(alloc, code, block)?;
    let blocks = marked_blocks(alloc, &marks)?;
    let predecessors = Listed::from_vec(blocks);
    let mut names = vec![in alloc; None; code.insts.len()]?;
    if let Some(wrong) = wrong_pair(code, &marks, &mut names, at) {
        return Ok(told(wrong, predecessors));
    }
    let Some(block) = unnamed(&marks, &names) else {
        unreachable!();
    };
    Ok(Evidence::MissingParent {
        block,
        predecessors,
    })
}
