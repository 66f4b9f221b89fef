//! Functions of which a walk comes to each block by lower instructions alone. No block stands early there; and where
//! all values are defined on every walk, no use does.

ghost use Rattle.std.specs.Prelude.{◌≡◌, ◌≢◌, ◌<◌, ◌≤◌, ◌+◌, ℕ, List, OnOk, IfOk, IsTrue, length, slice_index};
ghost use Rattle.spv_table.specs.Table.{Table};
ghost use Rattle.spv_layout.specs.Place.{AreFew, IsOfFunction};
ghost use Rattle.spv_flow.specs.branches.Target as target;
ghost use Rattle.spv_flow.specs.branches.Target.{IsOp, IsTarget};
ghost use Rattle.spv_flow.specs.branches.inner.Target as opcodes;
ghost use Rattle.spv_flow.specs.walks.inner.Code.{insts_of, IsCode};
ghost use Rattle.spv_flow.specs.walks.inner.Starts.{IsExtent};
ghost use Rattle.spv_block_order.specs.inner.Rising.{IsSound, IsLate, AreMarked, AreUpTo, AreRisen};

use spv_flow::branches::{label_in, next_label};
use spv_flow::walks::code::{Code, is_branch, is_terminator};
use spv_module::opcode::{FUNCTION, FUNCTION_END, LABEL};
use std::alloc::{AllocError, Global};

/// How far a function goes.
#[derive(Clone, Copy)]
pub struct Rise {
    /// The instruction after its last one.
    pub end: u32,
    /// Whether a walk comes to each of its blocks by lower instructions alone.
    pub whole: bool,
}

/// What is known before an instruction of a function.
#[derive(Clone, Copy)]
pub struct Rising {
    /// Whether a walk that comes by lower instructions alone goes on there.
    pub live: bool,
    /// Whether such a walk came to each OpLabel so far.
    pub whole: bool,
}

/// Marks the OpLabel whose result an id is with the number of a branch to it, if it stands after that.
#[inline(always)]
fn mark_label(code: &Code<'_, '_>, at: u32, id: u32, marks: &mut [u32])
    requires { (G : Table) → IsCode G code.now → IsTarget G (insts_of code.now) at id }
    ensures { AreMarked code.now at marks.old marks.new }
{
    let Some(label) = code.label_of(id) else {
        return;
    };
    if at < label && (label as usize) < marks.len() {
        marks[label as usize] = at;
    }
}

/// Marks the OpLabels to which a branch leads.
fn mark_labels(code: &Code<'_, '_>, at: u32, marks: &mut [u32])
    requires at { at < length code.now.insts.now }
    requires op { IsOp (insts_of code.now) at target.is_branch }
    ensures { AreMarked code.now at marks.old marks.new }
{
    let inst = &code.insts[at as usize];
    let opcode = inst.opcode;
    let operands = inst.operands.as_slice();
    let mut n = 0;
    while n < operands.len() {
        match label_in(opcode, operands, n) {
            Some(id) => {
                mark_label(code, at, id, marks);
                n = next_label(opcode, operands, n, id);
            },
            None => n += 1,
        }
    }
}

/// The same in a list that may still be empty.
fn mark(alloc: Global, code: &Code<'_, '_>, at: u32, marks: &mut Vec<u32>) -> Result<(), AllocError>
    requires at { at < length code.now.insts.now }
    requires op { IsOp (insts_of code.now) at target.is_branch }
    ensures { OnOk result (AreMarked code.now at marks.old.items marks.new.items) }
{
    if marks.is_empty() {
        *marks = vec![in alloc; 0u32; code.insts.len()]?;
    }
    mark_labels(code, at, marks.as_mut_slice());
    Ok(())
}

/// Whether a branch of the function to the instruction was marked.
#[inline(always)]
fn is_marked(marks: &[u32], function: u32, at: u32) -> bool
    ensures { IsTrue result → function < slice_index marks.now at }
{
    (at as usize) < marks.len() && function < marks[at as usize]
}

/// Past an OpLabel.
fn pass_label(code: &Code<'_, '_>, function: u32, at: u32, marks: &[u32], rising: Rising) -> Rising
    requires of { IsOfFunction (insts_of code.now) at function }
    requires op { IsOp (insts_of code.now) at target.is_label }
    requires risen { AreRisen code.now function at rising marks.now }
    ensures { AreRisen code.now function (at + 1) result marks.now }
{
    if rising.live {
        return rising;
    }
    if is_marked(marks, function, at) {
        return Rising {
            live: true,
            whole: rising.whole,
        };
    }
    Rising {
        live: false,
        whole: false,
    }
}

/// Past a terminator.
fn pass_terminator(
    alloc: Global,
    code: &Code<'_, '_>,
    function: u32,
    at: u32,
    marks: &mut Vec<u32>,
    rising: Rising,
) -> Result<Rising, AllocError>
    requires at { at < length code.now.insts.now }
    requires of { IsOfFunction (insts_of code.now) at function }
    requires op { IsOp (insts_of code.now) at opcodes.is_terminator }
    requires risen { AreRisen code.now function at rising marks.old.items }
    ensures { IfOk result (λ r. AreRisen code.now function (at + 1) r marks.new.items) }
{
    if rising.live && is_branch(code.insts[at as usize].opcode) {
        mark(alloc, code, at, marks)?;
    }
    Ok(Rising {
        live: false,
        whole: rising.whole,
    })
}

/// Past an instruction that is neither OpFunction nor OpFunctionEnd.
fn pass(
    alloc: Global,
    code: &Code<'_, '_>,
    function: u32,
    at: u32,
    marks: &mut Vec<u32>,
    rising: Rising,
) -> Result<Rising, AllocError>
    requires at { at < length code.now.insts.now }
    requires of { IsOfFunction (insts_of code.now) at function }
    requires risen { AreRisen code.now function at rising marks.old.items }
    ensures { IfOk result (λ r. AreRisen code.now function (at + 1) r marks.new.items) }
{
    let opcode = code.insts[at as usize].opcode;
    if opcode < LABEL {
        return Ok(rising);
    }
    if opcode == LABEL {
        return Ok(pass_label(code, function, at, marks.as_slice(), rising));
    }
    if is_terminator(opcode) {
        return pass_terminator(alloc, code, function, at, marks, rising);
    }
    Ok(rising)
}

/// How far the function of an OpFunction goes, and whether a walk comes to each of its blocks by lower instructions
/// alone. `marks` is a list to be used for one function after the other, at first empty: of each instruction the last
/// branch to it, if it was marked.
///
/// An `AllocError` comes only where a growth of memory was refused.
pub fn rise_of(
    alloc: Global,
    code: &Code<'_, '_>,
    function: u32,
    marks: &mut Vec<u32>,
) -> Result<Rise, AllocError>
    requires function { IsOp (insts_of code.now) function opcodes.is_function }
    requires most { AreFew code.now.insts.now }
    requires marks { AreUpTo marks.old.items function }
    ensures extent { IfOk result (λ r. IsExtent (insts_of code.now) function r.end) }
    ensures marks { IfOk result (λ r. AreUpTo marks.new.items r.end) }
    ensures late { IfOk result (λ r. IsTrue r.whole → (G : Table) → IsSound G code.now → (n : ℕ) → function ≤ n
        → n < r.end → IsLate G (insts_of code.now) n) }
{
    let insts = code.insts;
    let mut rising = Rising {
        live: true,
        whole: true,
    };
    for at in function as usize + 1..insts.len() {
        let opcode = insts[at].opcode;
        // Most instructions neither begin nor end a function or a block.
        if FUNCTION_END < opcode && opcode < LABEL {
            continue;
        }
        if opcode == FUNCTION_END {
            return Ok(Rise {
                end: at as u32 + 1,
                whole: rising.whole,
            });
        }
        if opcode == FUNCTION {
            return Ok(Rise {
                end: at as u32,
                whole: rising.whole,
            });
        }
        rising = pass(alloc, code, function, at as u32, marks, rising)?;
    }
    Ok(Rise {
        end: insts.len() as u32,
        whole: rising.whole,
    })
}
