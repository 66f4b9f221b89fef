//! The block that stands higher and is on the way to one which stands early.

ghost use Rattle.std.specs.Prelude.{◌≡◌, ◌<◌, ℕ, IfOk, length};
ghost use Rattle.spv_table.specs.Table.{Table};
ghost use Rattle.spv_layout.specs.Place.{AreFew};
ghost use Rattle.spv_flow.specs.walks.inner.Code.{insts_of, IsCode};
ghost use Rattle.spv_flow.specs.walks.inner.Leading.{AreBlocks};
ghost use Rattle.spv_flow.specs.walks.inner.Starts.{IsExtent};
ghost use Rattle.spv_block_order.specs.Early.{IsEarlyBlock, IsEarlyIn};
ghost use Rattle.spv_block_order.specs.inner.First.{IsEarlyBlockBy, IsEarlyBy};

use crate::blocks::Buffers;
use spv_flow::walks::code::Code;
use spv_flow::walks::divide::{divide, function_extent};
use spv_flow::walks::edges::{Blocks, build};
use spv_graph_order::higher_block;
use spv_graphs::Graph;
use std::alloc::{AllocError, Global};

/// The OpLabel of a higher block that is on the way to the block at `at`, in a function that is divided. `graph` is to
/// be used; what it holds is of no account.
fn higher_in_blocks(
    alloc: Global,
    code: &Code<'_, '_>,
    blocks: &Blocks<'_>,
    graph: &mut Graph,
    at: u32,
) -> Result<u32, AllocError>
    requires code { (G : Table) × IsCode G code.now }
    requires blocks { AreBlocks (insts_of code.now) blocks.now }
    requires most { AreFew code.now.insts.now }
    requires broken { (G : Table) × IsCode G code.now × IsEarlyIn G (insts_of code.now) blocks.now.function at }
    ensures { IfOk result (λ h. (G : Table) → IsCode G code.now
        → IsEarlyBy G (insts_of code.now) blocks.now.function at h) }
{
    build(code, blocks, graph)?;
    let block = blocks.numbers[at as usize];
    let higher = higher_block(alloc, graph, block)?;
    Ok(blocks.starts[higher as usize])
}

/// The same in a function.
fn higher_in_function(
    alloc: Global,
    code: &Code<'_, '_>,
    function: u32,
    end: u32,
    buffers: &mut Buffers,
    at: u32,
) -> Result<u32, AllocError>
    requires code { (G : Table) × IsCode G code.now }
    requires extent { IsExtent (insts_of code.now) function end }
    requires count { length buffers.old.numbers.items ≡ length code.now.insts.now }
    requires most { AreFew code.now.insts.now }
    requires broken { (G : Table) × IsCode G code.now × IsEarlyIn G (insts_of code.now) function at }
    ensures { IfOk result (λ h. (G : Table) → IsCode G code.now → IsEarlyBy G (insts_of code.now) function at h) }
{
    divide(
        code,
        function,
        end,
        &mut buffers.starts,
        &mut buffers.numbers,
    )?;
    let blocks = Blocks {
        function,
        end,
        starts: buffers.starts.as_slice(),
        numbers: buffers.numbers.as_slice(),
    };
    higher_in_blocks(alloc, code, &blocks, &mut buffers.graph, at)
}

/// The OpLabel of a block that stands higher and is on the way to the block of an OpLabel which breaks O1.
///
/// An `AllocError` comes only where a growth of memory was refused.
pub fn higher_early_block(alloc: Global, code: &Code<'_, '_>, at: u32) -> Result<u32, AllocError>
    requires most { AreFew code.now.insts.now }
    requires broken { (G : Table) × IsCode G code.now × IsEarlyBlock G (insts_of code.now) at }
    ensures { IfOk result (λ h. (G : Table) → IsCode G code.now → IsEarlyBlockBy G (insts_of code.now) at h) }
{
    let mut buffers = Buffers::new(alloc, code.insts.len())?;
    let Some(function) = code.function_of(at) else {
        unreachable!();
    };
    let end = function_extent(code, function).end;
    higher_in_function(alloc, code, function, end, &mut buffers, at)
}
