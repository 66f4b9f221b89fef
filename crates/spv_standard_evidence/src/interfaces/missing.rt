//! What shows that O4 is broken by what is not in an interface.

ghost use Rattle.std.specs.Prelude.{◌≡◌, ◌<◌, ◌∷◌, ◌↔◌, ℕ, List, IfOk, IsTrue, MatchOption, length, map, reverse};
ghost use Rattle.spv_table.specs.Table.{Table};
ghost use Rattle.spv_module.specs.Module.{plain_inst, plain_operands};
ghost use Rattle.spv_layout.specs.Place.{IsShort};
ghost use Rattle.spv_layout.specs.Plan.{IsPlan};
ghost use Rattle.spv_layout.specs.Shape.{FitsShape};
ghost use Rattle.spv_ids.specs.Outcome.{IsDefinitionOf, definition_in};
ghost use Rattle.spv_graphs.specs.Graph.{most_blocks};
ghost use Rattle.spv_declarations.specs.inner.Sets.{IsIn};
ghost use Rattle.spv_interfaces.specs.Interface.{IsInTree, IsNamedIn};
ghost use Rattle.spv_interfaces.specs.inner.Uses.{Fit};
ghost use Rattle.spv_interfaces.specs.inner.Wanted.{IsWanted};
ghost use Rattle.spv_flow_evidence.specs.calls.inner.Edges.{edge_of};
ghost use Rattle.spv_standard_evidence.specs.Interfaces.{Shows};
ghost use Rattle.spv_standard_evidence.specs.inner.Interfaces.{AddsEdges, LeadsPast, Misses, MissesBefore, MissesIn};
ghost use Rattle.spv_standard_evidence.specs.inner.Interfaces.{Reaches};

use spv_evidence::{Evidence, Listed};
use spv_flow::calls::{Call, calls_of};
use spv_flow_evidence::edges_of;
use spv_graphs::{Edge, shortest_way};
use spv_ids::Ids;
use spv_interfaces::{definition_of, id_of, is_wanted, put, used_id};
use spv_layout::Plan;
use spv_module::{Inst, Operand};
use spv_type_forms::Definitions;
use std::alloc::{AllocError, Global};
use std::collections::BTreeSet;

/// The ids in an interface.
fn ids_in(alloc: Global, interface: &[Operand<'_>]) -> Result<BTreeSet<u32>, AllocError>
    ensures { IfOk result (λ named. (x : ℕ) → IsIn named x ↔ IsNamedIn (plain_operands interface.now) x) }
{
    let mut named = BTreeSet::new(alloc);
    for at in 0..interface.len() {
        if let Some(x) = id_of(interface[at]) {
            put(&mut named, x)?;
        }
    }
    Ok(named)
}

/// Whether an id has to be in an interface where it is used, and is none of those that are named.
fn is_missed(definitions: &Definitions, minor: u8, named: &BTreeSet<u32>, x: u32) -> bool
    ensures { IsTrue result ↔ (IsWanted minor definitions.now x × ¬ (IsIn named.now x)) }
{
    is_wanted(definitions, minor, x) && !named.contains(&x)
}

/// The first id that an instruction uses and that is missed in an interface, of which these are the ids.
fn missed_by(
    definitions: &Definitions,
    minor: u8,
    named: &BTreeSet<u32>,
    inst: &Inst<'_>,
) -> Option<u32>
    ensures { (G : Table) → FitsShape G (plain_inst inst.now) → MatchOption result
        ((x : ℕ) → ¬ (Misses G minor definitions.now (IsIn named.now) (plain_inst inst.now) x))
        (Misses G minor definitions.now (IsIn named.now) (plain_inst inst.now)) }
{
    for at in 0..inst.operands.as_slice().len() {
        if let Some(x) = used_id(inst, at) {
            if is_missed(definitions, minor, named, x) {
                return Some(x);
            }
        }
    }
    None
}

/// A use of an id that is missed in an interface.
#[derive(Clone, Copy)]
struct Missing {
    /// The number of the OpFunction.
    function: u32,
    /// The id.
    id: u32,
}

/// The definition that an instruction is in, and what it uses that is missed in an interface.
fn missing_at(
    definitions: &Definitions,
    minor: u8,
    named: &BTreeSet<u32>,
    number: u32,
) -> Option<Missing>
    requires { number < length definitions.now }
    ensures { (G : Table) → Fit G definitions.now → MatchOption result
        ((f x : ℕ) → ¬ (MissesIn G minor definitions.now (IsIn named.now) number f x))
        (λ m. MissesIn G minor definitions.now (IsIn named.now) number m.function m.id) }
{
    let Some(function) = definition_of(definitions, number) else {
        return None;
    };
    match missed_by(definitions, minor, named, definitions.inst(number)) {
        Some(id) => Some(Missing { function, id }),
        None => None,
    }
}

/// The calls as edges, and one from each definition that misses something to `total`, which is no instruction.
fn edges_to(
    alloc: Global,
    definitions: &Definitions,
    minor: u8,
    named: &BTreeSet<u32>,
    calls: &[Call],
    total: u32,
) -> Result<Vec<Edge>, AllocError>
    requires { total ≡ length definitions.now }
    ensures { IfOk result (λ edges. (G : Table) → Fit G definitions.now
        → AddsEdges (MissesBefore G minor definitions.now (IsIn named.now) total) total
        (map edge_of calls.now) edges.items) }
{
    let mut edges = edges_of(alloc, calls)?;
    for number in 0..total {
        if let Some(missing) = missing_at(definitions, minor, named, number) {
            edges.push(Edge {
                from: missing.function,
                to: total,
            })?;
        }
    }
    Ok(edges)
}

/// Functions of which each calls the next, as few as any, from `root` to a definition that misses something; and behind
/// them a number more.
fn way_to(
    alloc: Global,
    definitions: &Definitions,
    insts: &[Inst<'_>],
    plan: &Plan,
    ids: &Ids,
    minor: u8,
    named: &BTreeSet<u32>,
    root: u32,
) -> Result<Vec<u32>, AllocError>
    requires few { length insts.now < most_blocks }
    requires same { definitions.now ≡ map plain_inst insts.now }
    requires plan { (G : Table) × IsPlan G (map plain_inst insts.now) plan.now }
    requires ids { (x : ℕ) → IsDefinitionOf (map plain_inst insts.now) x (definition_in ids.now x) }
    requires root { root < length definitions.now }
    requires reached { (G : Table) × Fit G definitions.now × Reaches definitions.now
        (MissesBefore G minor definitions.now (IsIn named.now) (length definitions.now)) root }
    ensures { IfOk result (λ nodes. (G : Table) → Fit G definitions.now → LeadsPast definitions.now
        (MissesBefore G minor definitions.now (IsIn named.now) (length definitions.now)) root
        (length definitions.now) nodes.items) }
{
    let total = insts.len() as u32;
    let calls = calls_of(alloc, insts, plan, ids)?;
    let edges = edges_to(alloc, definitions, minor, named, &calls, total)?;
    let closed = vec![in alloc; false; insts.len() + 1]?;
    match shortest_way(alloc, &edges, &[root], &closed, total)? {
        Some(nodes) => Ok(nodes),
        None => unreachable!(),
    }
}

/// Functions of which each calls the next, and the last of them.
#[derive(Drop)]
struct CallChain {
    functions: Vec<u32>,
    last: u32,
}

/// The nodes without the last one.
fn without_last(nodes: Vec<u32>) -> CallChain
    requires { (goal : ℕ) × (last : ℕ) × (rest : List ℕ) × (nodes.items ≡ reverse (goal ∷ last ∷ rest)) }
    ensures { (goal last : ℕ) (rest : List ℕ) → nodes.items ≡ reverse (goal ∷ last ∷ rest)
        → (result.functions.items ≡ reverse (last ∷ rest)) × (result.last ≡ last) }
{
    let mut functions = nodes;
    functions.pop();
    let last = functions[functions.len() - 1];
    CallChain { functions, last }
}

/// The first instruction of a definition that misses something, by its number, and the id.
fn user_in(
    definitions: &Definitions,
    minor: u8,
    named: &BTreeSet<u32>,
    function: u32,
    total: u32,
) -> (u32, u32)
    requires total { total ≡ length definitions.now }
    requires misses { (G : Table) × Fit G definitions.now
        × MissesBefore G minor definitions.now (IsIn named.now) total function }
    ensures { (G : Table) → Fit G definitions.now
        → MissesIn G minor definitions.now (IsIn named.now) result.0 function result.1 }
{
    for number in function..total {
        if let Some(missing) = missing_at(definitions, minor, named, number) {
            if missing.function == function {
                return (number, missing.id);
            }
        }
    }
    unreachable!()
}

/// What shows that an interface of a function lacks a variable.
pub fn missing_evidence(
    alloc: Global,
    definitions: &Definitions,
    insts: &[Inst<'_>],
    plan: &Plan,
    ids: &Ids,
    minor: u8,
    function: u32,
    interface: &[Operand<'_>],
) -> Result<Evidence, AllocError>
    requires words { IsShort (map plain_inst insts.now) }
    requires same { definitions.now ≡ map plain_inst insts.now }
    requires ids { (x : ℕ) → IsDefinitionOf (map plain_inst insts.now) x (definition_in ids.now x) }
    requires missing { (G : Table) × IsPlan G (map plain_inst insts.now) plan.now
        × (x : ℕ) × IsWanted minor definitions.now x × IsInTree G definitions.now function x
        × ¬ (IsNamedIn (plain_operands interface.now) x) }
    ensures { (G : Table) → IsPlan G (map plain_inst insts.now) plan.now
        → IfOk result (Shows G minor definitions.now function (plain_operands interface.now)) }
{
    let named = ids_in(alloc, interface)?;
    let Some(root) = definitions.number(function) else {
        unreachable!();
    };
    let nodes = way_to(alloc, definitions, insts, plan, ids, minor, &named, root)?;
    let calls = without_last(nodes);
    let total = insts.len() as u32;
    let (user, id) = user_in(definitions, minor, &named, calls.last, total);
    let Some(variable) = definitions.number(id) else {
        unreachable!();
    };
    Ok(Evidence::NotInInterface {
        variable,
        calls: Listed::from_vec(calls.functions),
        user,
    })
}
