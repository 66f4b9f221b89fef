//! The evidence that a walk misses a value.

pub mod laws;
mod queries;
mod way;

ghost use Rattle.std.specs.Prelude.{◌≡◌, ◌<◌, ◌-◌, ℕ, length, IfOk};
ghost use Rattle.spv_table.specs.Table.{Table};
ghost use Rattle.spv_module.specs.Module.{plain_insts};
ghost use Rattle.spv_layout.specs.First.{IsUnbroken};
ghost use Rattle.spv_layout.specs.Place.{IsOfFunction, IsShort, AreFew};
ghost use Rattle.spv_layout.specs.Plan.{IsPlan};
ghost use Rattle.spv_layout.specs.Stage.{of_branches};
ghost use Rattle.spv_ids.specs.Outcome.{AreIds};
ghost use Rattle.spv_flow.specs.declared.branches.fork.Fork.{Fork};
ghost use Rattle.spv_flow.specs.branches.Broken.{Broken};
ghost use Rattle.spv_flow.specs.walks.inner.Code.{insts_of, IsCode};
ghost use Rattle.spv_flow.specs.walks.inner.Divided.{IsIn};
ghost use Rattle.spv_flow.specs.walks.inner.Leading.{AreBlocks, AreInGraph};
ghost use Rattle.spv_flow_evidence.specs.walks.Evidence.{IsEvidence};
ghost use Rattle.spv_flow_evidence.specs.walks.inner.Asked.{MissesValue, IsUnavailableQuery};
ghost use Rattle.spv_flow_evidence.specs.walks.inner.Shown.{IsShown};

use crate::walks::queries::{Taking, queries_of, query_at, taking_of};
use crate::walks::way::{labels_on, way_past, whole_way};
use spv_evidence::{Evidence, Listed};
use spv_flow::walks::code::Code;
use spv_flow::walks::divide::{divide, function_extent};
use spv_flow::walks::edges::{Blocks, build};
use spv_graphs::{Graph, Query, least_unavailable};
use spv_ids::Ids;
use spv_layout::Plan;
use spv_module::{Module, Rule};
use std::alloc::{AllocError, Global};

/// The block that an instruction of the function is of.
fn block_of(code: &Code<'_, '_>, blocks: &Blocks<'_>, inst: u32) -> u32
    requires blocks { AreBlocks (insts_of code.now) blocks.now }
    requires of { IsOfFunction (insts_of code.now) inst blocks.now.function }
    requires most { AreFew code.now.insts.now }
    ensures { IsIn blocks.now.starts.now result inst }
{
    for next in 1..blocks.starts.len() {
        if inst < blocks.starts[next] {
            return next as u32 - 1;
        }
    }
    unreachable!()
}

/// Of what is asked for the operands of an instruction the first that is unavailable. Its step is the number of the
/// operand.
fn unavailable_query(
    alloc: Global,
    code: &Code<'_, '_>,
    blocks: &Blocks<'_>,
    graph: &Graph,
    taking: Taking,
    block: u32,
    inst: u32,
) -> Result<Query, AllocError>
    requires code { (G : Table) × IsCode G code.now × MissesValue G (insts_of code.now) taking inst }
    requires blocks { AreBlocks (insts_of code.now) blocks.now }
    requires graph { AreInGraph code.now blocks.now.starts.now graph.now (length blocks.now.starts.now - 1) }
    requires inside { IsIn blocks.now.starts.now block inst }
    requires at { inst < length code.now.insts.now }
    ensures { IfOk result (λ a. (G : Table) → IsCode G code.now
        → IsUnavailableQuery G (insts_of code.now) blocks.now.starts.now graph.now taking block inst a) }
{
    let queries = queries_of(alloc, code, blocks, taking, block, inst)?;
    let Some(operand) = least_unavailable(alloc, graph, queries.as_slice())? else {
        unreachable!();
    };
    let Some(query) = query_at(code, blocks, taking, block, inst, operand as usize) else {
        unreachable!();
    };
    Ok(Query {
        block: query.block,
        value: query.value,
        step: operand,
    })
}

/// The evidence that a walk of a function misses a value which an instruction takes.
fn evidence_in(
    alloc: Global,
    code: &Code<'_, '_>,
    blocks: &Blocks<'_>,
    taking: Taking,
    inst: u32,
) -> Result<Evidence, AllocError>
    requires code { (G : Table) × IsCode G code.now × MissesValue G (insts_of code.now) taking inst }
    requires blocks { AreBlocks (insts_of code.now) blocks.now }
    requires of { IsOfFunction (insts_of code.now) inst blocks.now.function }
    requires most { AreFew code.now.insts.now }
    ensures { IfOk result (λ e. (G : Table) → IsCode G code.now → IsShown G (insts_of code.now) taking inst e) }
{
    let block = block_of(code, blocks, inst);
    let mut graph = Graph {
        blocks: Vec::new(alloc),
        targets: Vec::new(alloc),
    };
    build(code, blocks, &mut graph)?;
    let query = unavailable_query(alloc, code, blocks, &graph, taking, block, inst)?;
    let to_asked = way_past(alloc, &graph, query.value, query.block)?;
    let way = whole_way(taking, block, to_asked)?;
    let walk = labels_on(alloc, blocks.starts, way.as_slice())?;
    Ok(Evidence::Walk {
        operand: query.step,
        inst: query.value,
        walk: Listed::from_vec(walk),
    })
}

/// The evidence that a walk misses a value which an instruction takes.
fn evidence_at(
    alloc: Global,
    code: &Code<'_, '_>,
    taking: Taking,
    inst: u32,
) -> Result<Evidence, AllocError>
    requires code { (G : Table) × IsCode G code.now × MissesValue G (insts_of code.now) taking inst }
    requires most { AreFew code.now.insts.now }
    ensures { IfOk result (λ e. (G : Table) → IsCode G code.now → IsShown G (insts_of code.now) taking inst e) }
{
    let Some(function) = code.function_of(inst) else {
        unreachable!();
    };
    let extent = function_extent(code, function);
    let mut starts = Vec::new(alloc);
    let mut numbers = vec![in alloc; 0u32; code.insts.len()]?;
    divide(code, function, extent.end, &mut starts, &mut numbers)?;
    let blocks = Blocks {
        function,
        end: extent.end,
        starts: starts.as_slice(),
        numbers: numbers.as_slice(),
    };
    evidence_in(alloc, code, &blocks, taking, inst)
}

/// What shows that A1 or A2 is broken at an instruction, which is given by its number: the first operand that takes a
/// local value which a walk to the instruction misses, the instruction that defines the value, and the blocks of such a
/// walk, each by its OpLabel, from the entry block on. No other walk that misses the value passes fewer; of an OpPhi,
/// none that comes from the same parent. `plan` and `ids` are what `lay_out` and `number` answered of that module, in
/// which `check_branches` found no fault.
///
/// It looks for what is unavailable as `check_values` does, at that instruction alone, and then goes through the blocks
/// of its function once.
///
/// # Errors
///
/// `AllocError` comes only where a growth of memory was refused.
pub fn walk_evidence(
    alloc: Global,
    module: &Module<'_>,
    plan: &Plan,
    ids: &Ids,
    rule: Rule,
    inst: u32,
) -> Result<Evidence, AllocError>
    // The condition of `lay_out`, and that the rule is broken there, by some table, in a module of which the plan and
    // the ids are what was answered, and whose branches are sound.
    requires words { IsShort (plain_insts «module».now) }
    requires broken { (fork : Fork) × (G : Table) × IsPlan G (plain_insts «module».now) plan.now
        × AreIds G «module».now.header.bound (plain_insts «module».now) ids.now
        × IsUnbroken (Broken fork G (plain_insts «module».now)) of_branches
        × Broken fork G (plain_insts «module».now) rule inst }
    ensures { (fork : Fork) (G : Table) → IsPlan G (plain_insts «module».now) plan.now
        → AreIds G «module».now.header.bound (plain_insts «module».now) ids.now
        → IsUnbroken (Broken fork G (plain_insts «module».now)) of_branches
        → IfOk result (λ e. IsEvidence G (plain_insts «module».now) rule inst e) }
{
    let insts = module.insts.as_slice();
    let globals = plan.before_functions();
    let code = Code {
        insts,
        plan,
        ids,
        globals,
    };
    evidence_at(alloc, &code, taking_of(rule), inst)
}
