//! The first block that stands before one that dominates it.

ghost use Rattle.std.specs.Prelude.{◌≡◌, ◌≤◌, IfOk, OnOk, length};
ghost use Rattle.spv_table.specs.Table.{Table};
ghost use Rattle.spv_layout.specs.Place.{AreFew};
ghost use Rattle.spv_flow.specs.walks.inner.Code.{insts_of, IsCode};
ghost use Rattle.spv_flow.specs.walks.inner.Leading.{AreBlocks};
ghost use Rattle.spv_flow.specs.walks.inner.Starts.{IsExtent};
ghost use Rattle.spv_block_order.specs.inner.First.{IsFirstIn};

use spv_flow::walks::code::Code;
use spv_flow::walks::divide::divide;
use spv_flow::walks::edges::{Blocks, build};
use spv_graph_order::first_early;
use spv_graphs::Graph;
use std::alloc::{AllocError, Global};

/// Lists that are used for one function after the other.
#[derive(Drop)]
pub struct Buffers {
    /// The first instructions of a function's blocks, and the number of the block that begins at an instruction.
    pub starts: Vec<u32>,
    pub numbers: Vec<u32>,
    pub graph: Graph,
}

impl Buffers {
    /// Empty lists, in which no module has room yet.
    pub fn empty(alloc: Global) -> Buffers {
        Buffers {
            starts: Vec::new(alloc),
            numbers: Vec::new(alloc),
            graph: Graph {
                blocks: Vec::new(alloc),
                targets: Vec::new(alloc),
            },
        }
    }

    /// Makes room for a module of so many instructions, if there is none yet.
    pub fn make_room(&mut self, alloc: Global, count: usize) -> Result<(), AllocError>
        ensures { OnOk result (length self.new.numbers.items ≡ count) }
    {
        if self.numbers.len() != count {
            self.numbers = vec![in alloc; 0u32; count]?;
        }
        Ok(())
    }

    /// Empty lists, for a module of so many instructions.
    pub fn new(alloc: Global, count: usize) -> Result<Buffers, AllocError>
        ensures { IfOk result (λ b. length b.numbers.items ≡ count) }
    {
        Ok(Buffers {
            starts: Vec::new(alloc),
            numbers: vec![in alloc; 0u32; count]?,
            graph: Graph {
                blocks: Vec::new(alloc),
                targets: Vec::new(alloc),
            },
        })
    }
}

/// The OpLabel of the first block of a function that is divided that stands before one that dominates it. `graph` is to
/// be used; what it holds is of no account.
fn first_in_blocks(
    alloc: Global,
    code: &Code<'_, '_>,
    blocks: &Blocks<'_>,
    graph: &mut Graph,
) -> Result<Option<u32>, AllocError>
    requires code { (G : Table) × IsCode G code.now }
    requires blocks { AreBlocks (insts_of code.now) blocks.now }
    requires most { AreFew code.now.insts.now }
    ensures { IfOk result (λ o. (G : Table) → IsCode G code.now
        → IsFirstIn G (insts_of code.now) blocks.now.function o) }
{
    build(code, blocks, graph)?;
    match first_early(alloc, graph)? {
        Some(block) => Ok(Some(blocks.starts[block as usize])),
        None => Ok(None),
    }
}

/// The OpLabel of the first block of a function that stands before one that dominates it: some walk ends there, and
/// each walk that does comes by a certain higher block.
///
/// An `AllocError` comes only where a growth of memory was refused.
pub fn first_in_function(
    alloc: Global,
    code: &Code<'_, '_>,
    function: u32,
    end: u32,
    buffers: &mut Buffers,
) -> Result<Option<u32>, AllocError>
    requires code { (G : Table) × IsCode G code.now }
    requires extent { IsExtent (insts_of code.now) function end }
    requires count { length buffers.old.numbers.items ≡ length code.now.insts.now }
    requires most { AreFew code.now.insts.now }
    ensures count { OnOk result (length buffers.new.numbers.items ≡ length code.now.insts.now) }
    ensures first { IfOk result (λ o. (G : Table) → IsCode G code.now → IsFirstIn G (insts_of code.now) function o) }
{
    divide(
        code,
        function,
        end,
        &mut buffers.starts,
        &mut buffers.numbers,
    )?;
    let blocks = Blocks {
        function,
        end,
        starts: buffers.starts.as_slice(),
        numbers: buffers.numbers.as_slice(),
    };
    first_in_blocks(alloc, code, &blocks, &mut buffers.graph)
}
