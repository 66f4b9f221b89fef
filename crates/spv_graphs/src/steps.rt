//! The steps by which nodes are come to.

ghost use Rattle.std.specs.Prelude.{◌≡◌, ◌<◌, length};
ghost use Rattle.spv_graphs.specs.inner.Steps.{unknown, step_of, level_of, come};

use crate::edge::Edge;

/// The level of a node to which no way is known.
pub const UNKNOWN: u32 = u32::MAX;

/// The last step of a way to a node.
#[derive(Clone, Copy)]
pub struct Step {
    /// How many edges the way has, or `UNKNOWN`.
    pub level: u32,
    /// The node before. It says nothing at level 0.
    pub before: u32,
}

/// The step to a node, of which no way is known if there is none.
#[inline(always)]
pub fn step_at(steps: &[Step], node: u32) -> Step
    ensures { result ≡ step_of steps.now node }
{
    match steps.get(node as usize) {
        Some(step) => *step,
        None => Step {
            level: UNKNOWN,
            before: 0,
        },
    }
}

/// Comes along an edge to the node that it leads to.
pub fn step_along(edge: Edge, steps: &mut Vec<Step>)
    requires from { level_of steps.old.items edge.from < unknown }
    requires to { edge.to < length steps.old.items }
    ensures { steps.new.items ≡ come steps.old.items edge }
{
    let level = step_at(steps, edge.from).level + 1;
    steps[edge.to as usize] = Step {
        level,
        before: edge.from,
    };
}
