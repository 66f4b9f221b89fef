//! The first use of a value that some walk of a function misses.

ghost use Rattle.std.specs.Prelude.{◌≡◌, ◌≤◌, ◌<◌, ℕ, false, length, OnOk, IfOk};
ghost use Rattle.spv_layout.specs.Place.{AreFew};
ghost use Rattle.spv_table.specs.Table.{Table};
ghost use Rattle.spv_flow.specs.branches.Target as target;
ghost use Rattle.spv_flow.specs.branches.Target.{IsOp};
ghost use Rattle.spv_flow.specs.walks.inner.Code.{insts_of, IsCode};
ghost use Rattle.spv_flow.specs.walks.inner.Leading.{AreBlocks};
ghost use Rattle.spv_flow.specs.walks.inner.Unavailable.{IsFirstIn};
ghost use Rattle.spv_flow.specs.walks.inner.Starts.{IsExtent};

use crate::walks::code::Code;
use crate::walks::divide::{Extent, divide};
use crate::walks::edges::{Blocks, build};
use crate::walks::queries::add_all;
use spv_graphs::{Graph, Query, least_unavailable};
use std::alloc::{AllocError, Global};

/// For how many blocks and queries there is room from the start: as many as most kernels have.
const FEW: usize = 32;

/// Lists that are used for one function after the other.
#[derive(Drop)]
pub struct Buffers {
    /// The first instructions of a function's blocks, and the number of the block that begins at an instruction.
    pub starts: Vec<u32>,
    pub numbers: Vec<u32>,
    pub graph: Graph,
    pub queries: Vec<Query>,
}

impl Buffers {
    /// Empty lists, for a module of so many instructions.
    pub fn new(alloc: Global, count: usize) -> Result<Buffers, AllocError>
        ensures { IfOk result (λ b. length b.numbers.items ≡ count) }
    {
        Ok(Buffers {
            starts: Vec::with_capacity(alloc, FEW)?,
            numbers: vec![in alloc; 0u32; count]?,
            graph: Graph {
                blocks: Vec::with_capacity(alloc, FEW)?,
                targets: Vec::with_capacity(alloc, FEW)?,
            },
            queries: Vec::with_capacity(alloc, FEW)?,
        })
    }
}

/// The first instruction at which a walk of a function that is divided misses a value that is used there. `queries` and
/// `graph` are lists to be used; what they hold is of no account.
fn first_in_blocks(
    alloc: Global,
    code: &Code<'_, '_>,
    blocks: &Blocks<'_>,
    has_phis: bool,
    queries: &mut Vec<Query>,
    graph: &mut Graph,
) -> Result<Option<u32>, AllocError>
    requires code { (G : Table) × IsCode G code.now }
    requires blocks { AreBlocks (insts_of code.now) blocks.now }
    requires phis { has_phis ≡ false → (n : ℕ) → blocks.now.function ≤ n → n < blocks.now.end
        → ¬ (IsOp (insts_of code.now) n target.is_phi) }
    requires most { AreFew code.now.insts.now }
    ensures { IfOk result (λ o. (G : Table) → IsCode G code.now
        → IsFirstIn G (insts_of code.now) blocks.now.function o) }
{
    queries.clear();
    add_all(code, blocks, queries)?;
    if queries.is_empty() && !has_phis {
        return Ok(None);
    }
    build(code, blocks, graph)?;
    least_unavailable(alloc, graph, queries.as_slice())
}

/// The first instruction at which a walk of the function misses a value that is used there.
pub fn first_in_function(
    alloc: Global,
    code: &Code<'_, '_>,
    function: u32,
    extent: Extent,
    buffers: &mut Buffers,
) -> Result<Option<u32>, AllocError>
    requires code { (G : Table) × IsCode G code.now }
    requires extent { IsExtent (insts_of code.now) function extent.end }
    requires phis { extent.has_phis ≡ false → (n : ℕ) → function ≤ n → n < extent.end
        → ¬ (IsOp (insts_of code.now) n target.is_phi) }
    requires count { length buffers.old.numbers.items ≡ length code.now.insts.now }
    requires most { AreFew code.now.insts.now }
    ensures count { OnOk result (length buffers.new.numbers.items ≡ length code.now.insts.now) }
    ensures first { IfOk result (λ o. (G : Table) → IsCode G code.now
        → IsFirstIn G (insts_of code.now) function o) }
{
    divide(
        code,
        function,
        extent.end,
        &mut buffers.starts,
        &mut buffers.numbers,
    )?;
    let blocks = Blocks {
        function,
        end: extent.end,
        starts: buffers.starts.as_slice(),
        numbers: buffers.numbers.as_slice(),
    };
    first_in_blocks(
        alloc,
        code,
        &blocks,
        extent.has_phis,
        &mut buffers.queries,
        &mut buffers.graph,
    )
}
