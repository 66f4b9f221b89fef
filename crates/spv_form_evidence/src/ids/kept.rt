//! What is kept of ids.

ghost use Rattle.std.specs.Prelude.{◌≡◌, ◌<◌, ◌↔◌, ℕ, IfOk, IsTrue, OnOk, None};
ghost use Rattle.spv_form_evidence.specs.ids.inner.Known.{kept, Puts};

use std::alloc::{AllocError, Global};
use std::collections::BTreeMap;

/// Of each id below a bound the number of an instruction, if one is kept. Ids are mostly small, so a list has a place
/// for each of the first ones, and a map what is kept of others: memory grows with the room that is asked for and the
/// ids of which an instruction is kept, and not with the bound.
#[derive(Drop)]
pub struct Kept {
    bound: u32,
    /// At an id's place what is kept of it.
    near: Vec<Option<u32>>,
    /// What is kept of ids past the list.
    far: BTreeMap<u32, u32>,
}

impl Kept {
    /// Nothing is kept of any id. There is room for so many instructions whose ids are about as many.
    ///
    /// An `AllocError` comes only where a growth of memory was refused.
    pub fn new(alloc: Global, bound: u32, count: usize) -> Result<Kept, AllocError>
        ensures bound { IfOk result (λ k. k.bound ≡ bound) }
        ensures none { IfOk result (λ k. (x : ℕ) → kept k x ≡ None) }
    {
        let places = count.saturating_mul(2).min(bound as usize);
        let near = vec![in alloc; None; places]?;
        Ok(Kept {
            bound,
            near,
            far: BTreeMap::new(alloc),
        })
    }

    /// The instruction that is kept of an id, if one is.
    pub fn get(&self, id: u32) -> Option<u32>
        ensures { result ≡ kept self.now id }
    {
        if id >= self.bound {
            return None;
        }
        match self.near.get(id as usize) {
            Some(kept) => *kept,
            None => self.far.get(&id).copied(),
        }
    }

    /// Whether an id is below the bound and nothing is kept of it.
    pub fn is_free(&self, id: u32) -> bool
        ensures { IsTrue result ↔ ((id < self.now.bound) × (kept self.now id ≡ None)) }
    {
        id < self.bound && self.get(id).is_none()
    }

    /// Keeps an instruction of an id, in place of what was kept of it. Nothing is kept of an id that is not below the
    /// bound.
    ///
    /// An `AllocError` comes only where a growth of memory was refused.
    pub fn put(&mut self, id: u32, inst: u32) -> Result<(), AllocError>
        ensures { OnOk result (Puts self.old self.new id inst) }
    {
        if id >= self.bound {
            return Ok(());
        }
        let place = id as usize;
        if place < self.near.len() {
            self.near[place] = Some(inst);
            return Ok(());
        }
        self.far.insert(id, inst)?;
        Ok(())
    }
}
