//! What is asked of a function's graph for the operands of one instruction.

ghost use Rattle.std.specs.Prelude.{◌≡◌, ◌<◌, ◌+◌, ℕ, length, All, IfOk};
ghost use Rattle.spv_table.specs.Table.{Table};
ghost use Rattle.spv_module.specs.declared.fault.Rule.TheVariants.{A1, A2};
ghost use Rattle.spv_graphs.specs.declared.queries.Query as declared;
ghost use Rattle.spv_flow.specs.walks.inner.Code.{insts_of, IsCode};
ghost use Rattle.spv_flow.specs.walks.inner.Leading.{AreBlocks};
ghost use Rattle.spv_flow_evidence.specs.walks.inner.Asked.{IsQueryFound, AreAsked};

use spv_flow::walks::code::Code;
use spv_flow::walks::edges::Blocks;
use spv_flow::walks::{pair_query, use_id, use_query};
use spv_graphs::Query;
use spv_module::Rule;
use std::alloc::{AllocError, Global};

/// How an instruction takes values.
#[derive(Clone, Copy)]
pub enum Taking {
    /// Each operand is a use of its own.
    Uses,
    /// An OpPhi: an operand and the next one pair a value with the label of a parent.
    Pairs,
}

/// How an instruction takes values at which a rule is broken.
pub fn taking_of(rule: Rule) -> Taking
    ensures uses { rule ≡ A1 → result ≡ Taking.Uses }
    ensures pairs { rule ≡ A2 → result ≡ Taking.Pairs }
{
    match rule {
        Rule::A2 => Taking::Pairs,
        _ => Taking::Uses,
    }
}

/// What is asked for operand `n` of an instruction.
pub fn query_at(
    code: &Code<'_, '_>,
    blocks: &Blocks<'_>,
    taking: Taking,
    block: u32,
    at: u32,
    n: usize,
) -> Option<Query>
    requires code { (G : Table) × IsCode G code.now }
    requires blocks { AreBlocks (insts_of code.now) blocks.now }
    requires block { block + 1 < length blocks.now.starts.now }
    requires at { at < length code.now.insts.now }
    requires n { n < 4294967295 }
    ensures { (G : Table) → IsCode G code.now
        → IsQueryFound G (insts_of code.now) blocks.now.starts.now taking block at n result }
{
    match taking {
        Taking::Uses => {
            let id = use_id(&code.insts[at as usize], n)?;
            use_query(code, blocks, block, at, n, id)
        }
        Taking::Pairs => pair_query(code, blocks, at, n),
    }
}

/// What is asked for the operands of an instruction. The step of each query is the number of its operand.
pub fn queries_of(
    alloc: Global,
    code: &Code<'_, '_>,
    blocks: &Blocks<'_>,
    taking: Taking,
    block: u32,
    at: u32,
) -> Result<Vec<Query>, AllocError>
    requires code { (G : Table) × IsCode G code.now }
    requires blocks { AreBlocks (insts_of code.now) blocks.now }
    requires block { block + 1 < length blocks.now.starts.now }
    requires at { at < length code.now.insts.now }
    ensures steps { IfOk result (λ queries. All (λ (a : declared.Query). a.step < 4294967295) queries.items) }
    ensures asked { IfOk result (λ queries. (G : Table) (end : ℕ) → IsCode G code.now
        → AreAsked G (insts_of code.now) blocks.now.starts.now taking block at end queries.items) }
{
    let mut queries = Vec::new(alloc);
    for n in 0..code.insts[at as usize].operands.as_slice().len() {
        if let Some(query) = query_at(code, blocks, taking, block, at, n) {
            queries.push(Query {
                block: query.block,
                value: query.value,
                step: n as u32,
            })?;
        }
    }
    Ok(queries)
}
