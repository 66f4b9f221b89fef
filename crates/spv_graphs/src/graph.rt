//! A graph of blocks.

ghost use Rattle.std.specs.Prelude.{◌≡◌, ◌↔◌, ◌≤◌, ◌<◌, All, IsTrue, length};
ghost use Rattle.spv_graphs.specs.declared.graph.Block as declared;
ghost use Rattle.spv_graphs.specs.Graph.{block_count, targets_of, IsGraph};

/// A block: where its targets stand among all targets, and which values it defines.
#[derive(Clone, Copy)]
pub struct Block {
    /// The place of its first target, and the one after its last.
    pub first_target: usize,
    pub end_target: usize,
    /// The first value that it defines, and the one after its last.
    pub first_value: u32,
    pub end_value: u32,
}

/// How many blocks a graph may have.
const MOST_BLOCKS: usize = 4_194_304;

/// Blocks, by number. Every path begins with block 0. A block's targets are those that may come after it.
#[derive(Drop)]
pub struct Graph {
    pub blocks: Vec<Block>,
    /// The numbers of the targets of all blocks.
    pub targets: Vec<u32>,
}

impl Graph {
    pub fn block_count(&self) -> usize
        ensures { result ≡ block_count self.now }
    {
        self.blocks.len()
    }

    /// The blocks that may come after a block.
    pub fn targets(&self, block: usize) -> &[u32]
        requires graph { IsGraph self.now }
        requires block { block < block_count self.now }
        ensures { result.now ≡ targets_of self.now block }
    {
        let block = &self.blocks[block];
        &self.targets[block.first_target..block.end_target]
    }

    /// Whether this is a graph, as `first_unavailable` asks: there is a block, there are at most 4,194,304, and all
    /// targets are blocks.
    pub fn is_graph(&self) -> bool
        ensures { IsTrue result ↔ IsGraph self.now }
    {
        let count = self.blocks.len();
        0 < count
            && count <= MOST_BLOCKS
            && are_ranges(self.blocks.as_slice(), self.targets.len())
            && are_below(self.targets.as_slice(), count)
    }
}

/// Whether each block's targets stand among so many.
fn are_ranges(blocks: &[Block], targets: usize) -> bool
    ensures { IsTrue result ↔ All (λ (s : declared.Block). (s.first_target ≤ s.end_target)
        × (s.end_target ≤ targets)) blocks.now }
{
    blocks.iter().all(|block| block.first_target <= block.end_target && block.end_target <= targets)
}

/// Whether each number is below a limit.
fn are_below(numbers: &[u32], limit: usize) -> bool
    ensures { IsTrue result ↔ All (λ n. n < limit) numbers.now }
{
    numbers.iter().all(|number| (*number as usize) < limit)
}
