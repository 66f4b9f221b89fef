//! What is asked of the graph of a function's blocks.

ghost use Rattle.std.specs.Prelude.{◌≡◌, ◌<◌, ◌≤◌, ◌+◌, ℕ, Some, nat_le, ◌&&◌, length};
ghost use Rattle.std.specs.Prelude.{slice_get, slice_index, option_and_then};
ghost use Rattle.std.specs.Prelude.{OnOk, IsTrue, IfSome, MatchOption, MatchBool};
ghost use Rattle.spv_layout.specs.Place.{AreFew};
ghost use Rattle.spv_table.specs.Table.{Table};
ghost use Rattle.spv_module.specs.declared.opcode.TheConstants as opcode;
ghost use Rattle.spv_module.specs.Operand.{PlainInst};
ghost use Rattle.spv_graphs.specs.declared.queries.Query as declared;
ghost use Rattle.spv_ids.specs.Definition.{IsDefinedAt};
ghost use Rattle.spv_flow.specs.branches.Ready.{IsLocalValue};
ghost use Rattle.spv_flow.specs.branches.Target.{IsOp};
ghost use Rattle.spv_flow.specs.walks.inner.Code.{insts_of, IsCode};
ghost use Rattle.spv_flow.specs.walks.inner.Divided.{IsIn};
ghost use Rattle.spv_ids.specs.inner.Outcome.{IsNear};
ghost use Rattle.spv_ids.specs.inner.Uses as ids;
ghost use Rattle.spv_flow.specs.walks.inner.Adds.{AddsBy};
ghost use Rattle.spv_flow.specs.walks.inner.Leading.{AreBlocks};
ghost use Rattle.spv_flow.specs.walks.inner.Due.{IsFoundAt, IsPairedAt, IsUseQuery, IsPairQuery, HasUseQuery};
ghost use Rattle.spv_flow.specs.walks.inner.Due.{HasPairQuery};
ghost use Rattle.spv_flow.specs.walks.inner.Due.{IsSettled, IsQueryAt, IsQueryIn, IsQuery};

use crate::walks::code::{Code, has_type, is_label_or_branch};
use crate::walks::edges::{Blocks, target};
use crate::walks::operands::{use_id, use_id_in, used, value};
use spv_graphs::Query;
use spv_module::opcode::{BRANCH, FUNCTION, LABEL, PHI};
use std::alloc::AllocError;

/// Where the id is defined that operand `n` of an instruction uses, if it uses one that is defined. Of an operand that
/// is no use nothing is said.
fn defined_at(code: &Code<'_, '_>, at: u32, n: usize) -> Option<u32>
    requires { at < length code.now.insts.now }
    ensures within { IfSome result (λ d. d < length code.now.insts.now) }
    ensures used { (G : Table) → IsCode G code.now → IsFoundAt G (insts_of code.now) at n result }
{
    let id = use_id(&code.insts[at as usize], n)?;
    code.definition(id)
}

/// Whether the result of an instruction is a local value. In the function that is divided its operands tell.
#[inline(always)]
fn is_local_in(code: &Code<'_, '_>, blocks: &Blocks<'_>, place: u32) -> bool
    requires blocks { AreBlocks (insts_of code.now) blocks.now }
    requires place { place < length code.now.insts.now }
    ensures { (G : Table) (x : ℕ) → IsCode G code.now → IsDefinedAt (insts_of code.now) x place
        → MatchBool result (IsLocalValue (insts_of code.now) x) (¬ (IsLocalValue (insts_of code.now) x)) }
{
    if blocks.function < place && place < blocks.end {
        has_type(code.insts[place as usize].operands.as_slice())
    } else {
        code.is_local(place)
    }
}

/// What is asked for the use of an id as operand `n` of an instruction, if it is one of a value that no earlier
/// instruction of the block defines.
#[inline(always)]
pub fn use_query(
    code: &Code<'_, '_>,
    blocks: &Blocks<'_>,
    block: u32,
    at: u32,
    n: usize,
    id: u32,
) -> Option<Query>
    requires blocks { AreBlocks (insts_of code.now) blocks.now }
    requires block { block + 1 < length blocks.now.starts.now }
    requires at { at < length code.now.insts.now }
    requires id { (i : PlainInst) × (slice_get (insts_of code.now) at ≡ Some i)
        × (Some id ≡ option_and_then ids.seen_id (slice_get i.operands n)) }
    ensures { (G : Table) → IsCode G code.now
        → MatchOption result
        ((a : declared.Query) → ¬ (IsUseQuery G (insts_of code.now) blocks.now.starts.now block at n a))
        (λ a. IsUseQuery G (insts_of code.now) blocks.now.starts.now block at n a) }
{
    let value = code.definition(id)?;
    if code.is_global(value) {
        return None;
    }
    let start = blocks.starts[block as usize];
    if start <= value && value < at {
        return None;
    }
    if is_local_in(code, blocks, value) {
        used(&code.insts[at as usize], n)?;
        Some(Query {
            block,
            value,
            step: at,
        })
    } else {
        None
    }
}

/// The instruction that defines what operand `n` of an OpPhi uses, if that is a local value that it pairs with a label.
fn paired_at(code: &Code<'_, '_>, blocks: &Blocks<'_>, at: u32, n: usize, place: u32) -> Option<u32>
    requires blocks { AreBlocks (insts_of code.now) blocks.now }
    requires at { at < length code.now.insts.now }
    requires place { place < length code.now.insts.now }
    requires found { (G : Table) → IsCode G code.now → IsFoundAt G (insts_of code.now) at n (Some place) }
    ensures paired { (G : Table) → IsCode G code.now → IsPairedAt G (insts_of code.now) at n result }
    ensures same { IfSome result (λ d. d ≡ place) }
{
    if is_local_in(code, blocks, place) {
        value(&code.insts[at as usize], n)?;
        Some(place)
    } else {
        None
    }
}

/// What is asked for the pair that operands `n` and `n` + 1 of an OpPhi are, if it is one of a value that its parent
/// does not define.
#[inline(always)]
pub fn pair_query(code: &Code<'_, '_>, blocks: &Blocks<'_>, at: u32, n: usize) -> Option<Query>
    requires code { (G : Table) × IsCode G code.now }
    requires blocks { AreBlocks (insts_of code.now) blocks.now }
    requires at { at < length code.now.insts.now }
    requires n { n < 4294967295 }
    ensures { (G : Table) → IsCode G code.now
        → MatchOption result
        ((a : declared.Query) → ¬ (IsPairQuery G (insts_of code.now) blocks.now.starts.now at n a))
        (λ a. IsPairQuery G (insts_of code.now) blocks.now.starts.now at n a) }
{
    let block = target(code, blocks, at, n + 1)?;
    let place = defined_at(code, at, n)?;
    if code.is_global(place) {
        return None;
    }
    let from = blocks.starts[block as usize];
    let to = blocks.starts[block as usize + 1];
    if from <= place && place < to {
        return None;
    }
    let value = paired_at(code, blocks, at, n, place)?;
    Some(Query {
        block,
        value,
        step: at,
    })
}

/// Whether it is told at once that the use of an id at an instruction asks nothing, by the list of definitions,
/// `near`: the id is defined from the instruction `start` on, where the block begins, and before; or before the first
/// function, or by an OpFunction.
#[inline(always)]
fn is_settled(code: &Code<'_, '_>, near: &[u32], start: u32, at: u32, id: u32) -> bool
    requires near { IsNear code.now.ids.now near.now }
    requires at { at < length code.now.insts.now }
    ensures { (G : Table) → IsCode G code.now → IsTrue result → IsSettled (insts_of code.now) id start at }
{
    let place = id as usize;
    if place >= near.len() {
        return false;
    }
    let more = near[place];
    if more == 0 {
        return false;
    }
    if at < more {
        return false;
    }
    let definition = more - 1;
    if start <= definition {
        return true;
    }
    if code.is_global(definition) {
        return true;
    }
    code.insts[definition as usize].opcode == FUNCTION
}

/// Adds what is asked for the use of an id as operand `n` of an instruction.
#[inline(never)]
fn add_use(
    code: &Code<'_, '_>,
    blocks: &Blocks<'_>,
    block: u32,
    at: u32,
    n: usize,
    id: u32,
    queries: &mut Vec<Query>,
) -> Result<(), AllocError>
    requires blocks { AreBlocks (insts_of code.now) blocks.now }
    requires block { block + 1 < length blocks.now.starts.now }
    requires at { at < length code.now.insts.now }
    requires id { (i : PlainInst) × (slice_get (insts_of code.now) at ≡ Some i)
        × (Some id ≡ option_and_then ids.seen_id (slice_get i.operands n)) }
    ensures { OnOk result (AddsBy code.now (λ G a. IsUseQuery G (insts_of code.now) blocks.now.starts.now block at n a)
        queries.old.items queries.new.items) }
{
    if let Some(query) = use_query(code, blocks, block, at, n, id) {
        queries.push(query)?;
    }
    Ok(())
}

/// Adds what is asked for the uses of an instruction. `near` is the list of definitions, and `start` the instruction
/// where the block begins.
#[inline(always)]
fn add_uses(
    code: &Code<'_, '_>,
    blocks: &Blocks<'_>,
    near: &[u32],
    start: u32,
    block: u32,
    at: u32,
    queries: &mut Vec<Query>,
) -> Result<(), AllocError>
    requires blocks { AreBlocks (insts_of code.now) blocks.now }
    requires near { IsNear code.now.ids.now near.now }
    requires start { start ≡ slice_index blocks.now.starts.now block }
    requires block { block + 1 < length blocks.now.starts.now }
    requires at { at < length code.now.insts.now }
    ensures { OnOk result (AddsBy code.now (λ G a. HasUseQuery G (insts_of code.now) blocks.now.starts.now block at a)
        queries.old.items queries.new.items) }
{
    let operands = code.insts[at as usize].operands.as_slice();
    for n in 0..operands.len() {
        if let Some(id) = use_id_in(operands, n) {
            if !is_settled(code, near, start, at, id) {
                add_use(code, blocks, block, at, n, id, queries)?;
            }
        }
    }
    Ok(())
}

/// Adds what is asked for the uses of a branch or an OpLabel. Labels are no values, so it is asked for the first
/// operand alone, and for that of an OpBranchConditional or an OpSwitch.
#[inline(always)]
fn add_first_use(
    code: &Code<'_, '_>,
    blocks: &Blocks<'_>,
    near: &[u32],
    start: u32,
    block: u32,
    at: u32,
    queries: &mut Vec<Query>,
) -> Result<(), AllocError>
    requires blocks { AreBlocks (insts_of code.now) blocks.now }
    requires near { IsNear code.now.ids.now near.now }
    requires start { start ≡ slice_index blocks.now.starts.now block }
    requires block { block + 1 < length blocks.now.starts.now }
    requires at { at < length code.now.insts.now }
    requires op { IsOp (insts_of code.now) at (λ n. nat_le opcode.LABEL n && nat_le n opcode.SWITCH) }
    ensures { OnOk result (AddsBy code.now (λ G a. HasUseQuery G (insts_of code.now) blocks.now.starts.now block at a)
        queries.old.items queries.new.items) }
{
    let inst = &code.insts[at as usize];
    if inst.opcode <= BRANCH {
        return Ok(());
    }
    if let Some(id) = use_id(inst, 0) {
        if !is_settled(code, near, start, at, id) {
            add_use(code, blocks, block, at, 0, id, queries)?;
        }
    }
    Ok(())
}

/// Adds what is asked for the pairs of an OpPhi.
fn add_pairs(
    code: &Code<'_, '_>,
    blocks: &Blocks<'_>,
    at: u32,
    queries: &mut Vec<Query>,
) -> Result<(), AllocError>
    requires code { (G : Table) × IsCode G code.now }
    requires blocks { AreBlocks (insts_of code.now) blocks.now }
    requires at { at < length code.now.insts.now }
    ensures { OnOk result (AddsBy code.now (λ G a. HasPairQuery G (insts_of code.now) blocks.now.starts.now at a)
        queries.old.items queries.new.items) }
{
    for n in 0..code.insts[at as usize].operands.as_slice().len() {
        if let Some(query) = pair_query(code, blocks, at, n) {
            queries.push(query)?;
        }
    }
    Ok(())
}

/// Adds what is asked for an instruction of a block. `near` is the list of definitions, and `start` the instruction
/// where the block begins.
#[inline(always)]
fn add_queries(
    code: &Code<'_, '_>,
    blocks: &Blocks<'_>,
    near: &[u32],
    start: u32,
    block: u32,
    at: u32,
    queries: &mut Vec<Query>,
) -> Result<(), AllocError>
    requires code { (G : Table) × IsCode G code.now }
    requires blocks { AreBlocks (insts_of code.now) blocks.now }
    requires near { IsNear code.now.ids.now near.now }
    requires start { start ≡ slice_index blocks.now.starts.now block }
    requires block { block + 1 < length blocks.now.starts.now }
    requires at { at < length code.now.insts.now }
    ensures { OnOk result (AddsBy code.now (λ G a. IsQueryAt G (insts_of code.now) blocks.now.starts.now block at a)
        queries.old.items queries.new.items) }
{
    let opcode = code.insts[at as usize].opcode;
    if is_label_or_branch(opcode) {
        return add_first_use(code, blocks, near, start, block, at, queries);
    }
    if opcode != PHI {
        return add_uses(code, blocks, near, start, block, at, queries);
    }
    if code.insts[start as usize].opcode == LABEL {
        return add_pairs(code, blocks, at, queries);
    }
    Ok(())
}

/// Adds what is asked for the instructions of a block. `near` is the list of definitions.
fn add_block(
    code: &Code<'_, '_>,
    blocks: &Blocks<'_>,
    near: &[u32],
    block: u32,
    queries: &mut Vec<Query>,
) -> Result<(), AllocError>
    requires code { (G : Table) × IsCode G code.now }
    requires blocks { AreBlocks (insts_of code.now) blocks.now }
    requires near { IsNear code.now.ids.now near.now }
    requires block { block + 1 < length blocks.now.starts.now }
    ensures { OnOk result (AddsBy code.now (λ G a. IsQueryIn G (insts_of code.now) blocks.now.starts.now block a)
        queries.old.items queries.new.items) }
{
    let start = blocks.starts[block as usize];
    for at in start..blocks.starts[block as usize + 1] {
        add_queries(code, blocks, near, start, block, at, queries)?;
    }
    Ok(())
}

/// Adds what is asked for the instructions of a function.
#[inline(never)]
pub fn add_all(
    code: &Code<'_, '_>,
    blocks: &Blocks<'_>,
    queries: &mut Vec<Query>,
) -> Result<(), AllocError>
    requires code { (G : Table) × IsCode G code.now }
    requires blocks { AreBlocks (insts_of code.now) blocks.now }
    requires most { AreFew code.now.insts.now }
    ensures { OnOk result (AddsBy code.now (λ G a. IsQuery G (insts_of code.now) blocks.now.starts.now a)
        queries.old.items queries.new.items) }
{
    let near = code.ids.near();
    for block in 0..blocks.starts.len() - 1 {
        add_block(code, blocks, near, block as u32, queries)?;
    }
    Ok(())
}
