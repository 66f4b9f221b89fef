//! What is marked in the picture of a function's blocks.
ghost use Rattle.std.specs.Prelude.{◌≡◌, ℕ, IfOk, nat_eq};
ghost use Rattle.std.specs.List.{list_any};
ghost use Rattle.std.specs.BTreeSet.{contains};
ghost use Rattle.std.specs.Ordering.{nat_cmp};
ghost use Rattle.spv_pictures.specs.Blocks as blocks;
ghost use Rattle.spv_pictures.specs.Blocks.{goes, walk_of};
ghost use Rattle.spv_pictures.specs.inner.Marks.{AreMarks, pair_cmp};

use std::alloc::{AllocError, Global};
use std::collections::BTreeSet;

/// What is to be marked: where a fault is, and the blocks that show it.
#[derive(Clone, Copy)]
pub struct Finding<'f> {
    /// The number of the fault's instruction, from 0.
    pub inst: u32,
    /// The ids of the blocks of a walk, in order. May be empty.
    pub walk: &'f [u32],
}

/// A finding, and what is looked up of it.
#[derive(Drop)]
pub struct Marks<'f> {
    /// What is to be marked, if anything is.
    pub finding: Option<Finding<'f>>,
    /// The blocks of its walk.
    blocks: BTreeSet<u32>,
    /// The pairs of blocks that follow each other on its walk.
    steps: BTreeSet<(u32, u32)>,
}

/// The blocks of a walk.
fn blocks_of(alloc: Global, walk: &[u32]) -> Result<BTreeSet<u32>, AllocError>
    ensures { IfOk result (λ s. (x : ℕ) → contains nat_cmp s x ≡ list_any (nat_eq x) walk.now) }
{
    let mut blocks = BTreeSet::new(alloc);
    for block in walk {
        blocks.insert(*block)?;
    }
    Ok(blocks)
}

/// The pairs of blocks that follow each other on a walk.
fn steps_of(alloc: Global, walk: &[u32]) -> Result<BTreeSet<(u32, u32)>, AllocError>
    ensures { IfOk result (λ s. (a b : ℕ) → contains pair_cmp s (a, b) ≡ goes walk.now a b) }
{
    let mut steps = BTreeSet::new(alloc);
    for at in 1..walk.len() {
        steps.insert((walk[at - 1], walk[at]))?;
    }
    Ok(steps)
}

/// The walk of a finding; none where there is no finding.
fn walk_in<'f>(finding: Option<Finding<'f>>) -> &'f [u32]
    ensures { result.now ≡ walk_of finding.entry }
{
    match finding {
        Some(finding) => finding.walk,
        None => &[],
    }
}

impl<'f> Marks<'f> {
    /// What is to be marked of a finding.
    pub fn of(alloc: Global, finding: Option<Finding<'f>>) -> Result<Marks<'f>, AllocError>
        ensures marks { IfOk result (λ m. AreMarks m) }
        ensures finding { IfOk result (λ m. m.finding ≡ finding.entry) }
    {
        let walk = walk_in(finding);
        let blocks = blocks_of(alloc, walk)?;
        let steps = steps_of(alloc, walk)?;
        Ok(Marks {
            finding,
            blocks,
            steps,
        })
    }

    /// Whether the fault is at an instruction.
    pub fn is_fault(&self, inst: u32) -> bool
        ensures { result ≡ blocks.is_fault self.now.finding inst }
    {
        match self.finding {
            Some(finding) => finding.inst == inst,
            None => false,
        }
    }

    /// Whether a block is on the walk.
    pub fn is_on(&self, block: Option<u32>) -> bool
        requires { AreMarks self.now }
        ensures { result ≡ blocks.is_on (walk_of self.now.finding) block }
    {
        match block {
            Some(block) => self.blocks.contains(&block),
            None => false,
        }
    }

    /// Whether the walk goes from one block to the next.
    pub fn goes(&self, from: Option<u32>, to: u32) -> bool
        requires { AreMarks self.now }
        ensures { result ≡ blocks.goes_from (walk_of self.now.finding) from to }
    {
        match from {
            Some(from) => self.steps.contains(&(from, to)),
            None => false,
        }
    }
}
