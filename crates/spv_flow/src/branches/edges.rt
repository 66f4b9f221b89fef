//! Which blocks lead to which.

use std::alloc::{AllocError, Global};

/// An edge from a block, and where the other edges to the same block go on.
#[derive(Clone, Copy)]
pub struct Link {
    pub source: u32,
    /// One more than the place of the next link, or 0.
    pub next: usize,
}

/// Edges from block to block, each once. Of each target a chain of links has the sources, the last one added first.
#[derive(Drop)]
pub struct Edges {
    /// Of each target one more than the place of its first link, or 0.
    pub heads: Vec<usize>,
    pub links: Vec<Link>,
}

impl Edges {
    ghost use Rattle.std.specs.Prelude.{◌≡◌, ◌<◌, ◌⊎◌, ℕ, true, false, length, IfOk, OnOk, MatchBool};
    ghost use Rattle.spv_flow.specs.branches.inner.Edges.{IsEdges, HasEdge, AddsEdge, marked};

    /// No edges, among so many instructions.
    pub fn new(alloc: Global, count: usize) -> Result<Edges, AllocError>
        ensures edges { IfOk result IsEdges }
        ensures count { IfOk result (λ e. length e.heads.items ≡ count) }
        ensures none { IfOk result (λ e. (p b : ℕ) → ¬ (HasEdge e p b)) }
    {
        Ok(Edges {
            heads: vec![in alloc; 0usize; count]?,
            links: Vec::new(alloc),
        })
    }

    /// Adds an edge. The edges of one source come one after the other.
    pub fn add(&mut self, source: u32, target: u32) -> Result<(), AllocError>
        requires edges { IsEdges self.old }
        requires source { source < length self.old.heads.items }
        requires target { target < length self.old.heads.items }
        ensures { OnOk result (AddsEdge self.old self.new source target) }
    {
        let head = self.heads[target as usize];
        if head != 0 {
            if self.links[head - 1].source == source {
                return Ok(());
            }
        }
        self.links.push(Link { source, next: head })?;
        self.heads[target as usize] = self.links.len();
        Ok(())
    }

    /// Marks each source of edges to a target.
    pub fn mark(&self, target: u32, marks: &mut [bool])
        requires edges { IsEdges self.now }
        requires target { target < length self.now.heads.items }
        requires marks { length marks.old ≡ length self.now.heads.items }
        ensures kept { (p : ℕ) → marked marks.old p ≡ true → marked marks.new p ≡ true }
        ensures added { (p : ℕ) → HasEdge self.now p target → marked marks.new p ≡ true }
        ensures only { (p : ℕ) → marked marks.new p ≡ true → (marked marks.old p ≡ true)
            ⊎ HasEdge self.now p target }
    {
        let mut head = self.heads[target as usize];
        while head != 0 {
            let link = self.links[head - 1];
            marks[link.source as usize] = true;
            head = link.next;
        }
    }

    /// Whether a source of edges to a target is marked.
    pub fn has_marked(&self, target: u32, marks: &[bool]) -> bool
        requires edges { IsEdges self.now }
        requires target { target < length self.now.heads.items }
        requires marks { length marks.now ≡ length self.now.heads.items }
        ensures { MatchBool result ((p : ℕ) × HasEdge self.now p target × (marked marks.now p ≡ true))
            ((p : ℕ) → HasEdge self.now p target → marked marks.now p ≡ false) }
    {
        let mut head = self.heads[target as usize];
        while head != 0 {
            let link = self.links[head - 1];
            if marks[link.source as usize] {
                return true;
            }
            head = link.next;
        }
        false
    }
}
