//! A search in breadth for a shortest way.

ghost use Rattle.std.specs.Prelude.{◌≡◌, ◌∷◌, ◌<◌, ◌≤◌, ℕ, List, Bool, Some, false, length};
ghost use Rattle.std.specs.Prelude.{reverse, slice_get, MatchBool, MatchOption, IfOk, OnOk};
ghost use Rattle.spv_graphs.specs.Graph.{most_blocks};
ghost use Rattle.spv_graphs.specs.Way.{IsWay, IsShortest, AreWithin, AreBelow};
ghost use Rattle.spv_graphs.specs.inner.Steps.{unknown, level_of, AreFirst, AreFalling, Keeps, Shortens, IsShorter};
ghost use Rattle.spv_graphs.specs.inner.Steps.{AreSettled, IsTrace};

use crate::edge::Edge;
use crate::rows::Rows;
use crate::steps::{Step, UNKNOWN, step_along, step_at};
use std::alloc::{AllocError, Global};
use std::collections::VecDeque;

/// Whether a way may go on from a node.
#[inline(always)]
fn is_passable(closed: &[bool], node: u32) -> bool
    ensures { MatchBool result (slice_get closed.now node ≡ Some false)
        (¬ (slice_get closed.now node ≡ Some false)) }
{
    match closed.get(node as usize) {
        Some(is_closed) => !*is_closed,
        None => false,
    }
}

/// Whether an edge from a node that is open makes a shorter way than is known.
#[inline(always)]
fn shortens(edge: Edge, closed: &[bool], steps: &[Step]) -> bool
    ensures { MatchBool result (Shortens closed.now steps.now edge) (¬ (Shortens closed.now steps.now edge)) }
{
    let level = step_at(steps, edge.from).level;
    level < UNKNOWN && level + 1 < step_at(steps, edge.to).level && is_passable(closed, edge.from)
}

/// Comes to the starts, each once, and lets them wait. The nodes are below `count`.
fn first_steps(
    alloc: Global,
    count: usize,
    starts: &[u32],
    waiting: &mut VecDeque<u32>,
) -> Result<Vec<Step>, AllocError>
    requires { AreBelow count starts.now }
    ensures { IfOk result (λ steps. AreFirst count starts.now steps.items) }
{
    let mut steps = vec![in alloc; Step {
        level: UNKNOWN,
        before: 0,
    }; count]?;
    for start in starts {
        if step_at(&steps, *start).level > 0 {
            steps[*start as usize] = Step {
                level: 0,
                before: 0,
            };
            waiting.push_back(*start)?;
        }
    }
    Ok(steps)
}

/// Comes along the edges of a row, and lets the nodes wait that they lead to.
fn follow(
    edges: &[Edge],
    closed: &[bool],
    row: &[u32],
    steps: &mut Vec<Step>,
    waiting: &mut VecDeque<u32>,
) -> Result<(), AllocError>
    requires { AreWithin (length steps.old.items) edges.now }
    ensures { OnOk result (Keeps edges.now closed.now steps.old.items steps.new.items) }
{
    for place in row {
        if let Some(edge) = edges.get(*place as usize) {
            if shortens(*edge, closed, steps) {
                step_along(*edge, steps);
                waiting.push_back(edge.to)?;
            }
        }
    }
    Ok(())
}

/// Comes to what the nodes that wait lead to, one after another.
fn spread(
    edges: &[Edge],
    closed: &[bool],
    rows: &Rows,
    steps: &mut Vec<Step>,
    waiting: &mut VecDeque<u32>,
) -> Result<(), AllocError>
    requires { AreWithin (length steps.old.items) edges.now }
    ensures { OnOk result (Keeps edges.now closed.now steps.old.items steps.new.items) }
{
    for _ in 0..steps.len() {
        let Some(node) = waiting.pop_front() else {
            return Ok(());
        };
        follow(edges, closed, rows.row(node), steps, waiting)?;
    }
    Ok(())
}

/// An edge that makes a shorter way than is known.
fn find_shorter(edges: &[Edge], closed: &[bool], steps: &[Step]) -> Option<Edge>
    ensures { MatchOption result (AreSettled edges.now closed.now steps.now)
        (IsShorter edges.now closed.now steps.now) }
{
    for edge in edges {
        if shortens(*edge, closed, steps) {
            return Some(*edge);
        }
    }
    None
}

/// Comes to what the nodes that wait lead to, until no edge makes a shorter way than is known.
fn settle(
    edges: &[Edge],
    closed: &[bool],
    rows: &Rows,
    steps: &mut Vec<Step>,
    waiting: &mut VecDeque<u32>,
) -> Result<(), AllocError>
    requires { AreWithin (length steps.old.items) edges.now }
    ensures keeps { OnOk result (Keeps edges.now closed.now steps.old.items steps.new.items) }
    ensures settled { OnOk result (AreSettled edges.now closed.now steps.new.items) }
{
    spread(edges, closed, rows, steps, waiting)?;
    while let Some(edge) = find_shorter(edges, closed, steps) {
        step_along(edge, steps);
    }
    Ok(())
}

/// The nodes of the way that is known to a node, from the first on.
fn trace(alloc: Global, steps: &[Step], goal: u32) -> Result<Vec<u32>, AllocError>
    requires falling { AreFalling steps.now }
    requires known { level_of steps.now goal < unknown }
    ensures { IfOk result (λ nodes. IsTrace steps.now goal nodes.items) }
{
    let mut nodes = Vec::from_slice(alloc, &[goal])?;
    let mut node = goal;
    while step_at(steps, node).level > 0 {
        node = step_at(steps, node).before;
        nodes.push(node)?;
    }
    nodes.reverse();
    Ok(nodes)
}

/// The nodes of a shortest way from one of the starts to the goal, from the first on; None where there is no way.
/// The nodes of the graph are those that `closed` tells of. A way goes on from no node that is closed, but may end with
/// one.
///
/// Time and memory are linear in the nodes, the edges and the starts.
///
/// An `AllocError` comes only where a growth of memory was refused.
pub fn shortest_way(
    alloc: Global,
    edges: &[Edge],
    starts: &[u32],
    closed: &[bool],
    goal: u32,
) -> Result<Option<Vec<u32>>, AllocError>
    requires within { AreWithin (length closed.now) edges.now }
    requires starts { AreBelow (length closed.now) starts.now }
    requires goal { goal < length closed.now }
    requires few { length closed.now ≤ most_blocks }
    ensures { IfOk result (λ o. MatchOption o
        ((past : List ℕ) → ¬ (IsWay edges.now starts.now closed.now past goal))
        (λ w. IsShortest edges.now starts.now closed.now goal w.items)) }
{
    let rows = Rows::of(alloc, closed.len(), edges)?;
    let mut waiting = VecDeque::new(alloc);
    let mut steps = first_steps(alloc, closed.len(), starts, &mut waiting)?;
    settle(edges, closed, &rows, &mut steps, &mut waiting)?;
    if step_at(&steps, goal).level < UNKNOWN {
        Ok(Some(trace(alloc, &steps, goal)?))
    } else {
        Ok(None)
    }
}
