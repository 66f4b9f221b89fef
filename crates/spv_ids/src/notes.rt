//! Numbers that are kept of ids.

ghost use Rattle.std.specs.Prelude.{◌≡◌, ◌<◌, ◌≤◌, length, ℕ, Some, None, nat_eq};
ghost use Rattle.std.specs.Prelude.{if◌then◌else◌, OnOk, IfOk};
ghost use Rattle.std.specs.Ordering.{nat_cmp};
ghost use Rattle.std.specs.BTreeMap.{get};
ghost use Rattle.spv_ranks.specs.Rank.{at_rank};
ghost use Rattle.spv_ids.specs.inner.Notes.{kept, kept_far, number_in};

use spv_ranks::Ranks;
use std::alloc::{AllocError, Global};
use std::collections::BTreeMap;

/// In place of a number: there is none. Numbers that are kept are less.
pub const NONE: u32 = u32::MAX;

/// At most one number of each id.
///
/// Ids are mostly small and dense, so a list with a place for each small id serves most of them. Others have places by
/// their ranks, where it is known beforehand which they are, and a map has what is left: so the memory taken grows with
/// the ids that something is kept of, and not with the ids themselves.
#[derive(Drop)]
pub struct Notes {
    /// At an id's place 0, or one more than what is kept of it.
    near: Vec<u32>,
    /// The ranks of ids past the list, and at each rank the same as in the list.
    ranks: Ranks,
    ranked: Vec<u32>,
    /// What is kept of the ids that have no such place.
    far: BTreeMap<u32, u32>,
}

/// What a place of the list says.
#[inline(always)]
fn number_at(place: u32) -> Option<u32>
    ensures { result ≡ number_in place }
{
    match place {
        0 => None,
        more => Some(more - 1),
    }
}

/// What a place of the list says, or `NONE`.
#[inline(always)]
pub fn mark_at(place: u32) -> u32
    ensures { result < 4294967295 → number_in place ≡ Some result }
{
    match place {
        0 => NONE,
        more => more - 1,
    }
}

/// A map of no ids.
fn empty_map(alloc: Global) -> BTreeMap<u32, u32>
    ensures { (x : ℕ) → get nat_cmp result x ≡ None }
{
    BTreeMap::new(alloc)
}

impl Notes {
    /// Nothing is kept of any id. The list has a place for each id below `places`.
    ///
    /// An `AllocError` comes only where a growth of memory was refused.
    pub fn new(alloc: Global, places: usize) -> Result<Notes, AllocError>
        ensures { IfOk result (λ notes. (x : ℕ) → kept notes x ≡ None) }
    {
        Notes::of(alloc, places, Ranks::none(alloc))
    }

    /// Nothing is kept of any id. The list has a place for each id below `places`, and there is one for each rank.
    ///
    /// An `AllocError` comes only where a growth of memory was refused.
    pub fn of(alloc: Global, places: usize, ranks: Ranks) -> Result<Notes, AllocError>
        ensures { IfOk result (λ notes. (x : ℕ) → kept notes x ≡ None) }
    {
        let near = vec![in alloc; 0; places]?;
        let ranked = vec![in alloc; 0; ranks.len()]?;
        let far = empty_map(alloc);
        Ok(Notes {
            near,
            ranks,
            ranked,
            far,
        })
    }

    /// What is kept of an id. It takes no memory.
    #[inline(always)]
    pub fn get(&self, id: u32) -> Option<u32>
        ensures { result ≡ kept self.now id }
    {
        let place = id as usize;
        if place < self.near.len() {
            number_at(self.near[place])
        } else {
            self.get_far(id)
        }
    }

    /// What is kept of an id past the list.
    #[cold]
    #[inline(never)]
    fn get_far(&self, id: u32) -> Option<u32>
        ensures { result ≡ kept_far self.now id }
    {
        match self.at_rank(id) {
            0 => self.far.get(&id).copied(),
            more => Some(more - 1),
        }
    }

    /// What the place of an id's rank says: 0, or one more than what is kept of the id.
    #[inline(always)]
    fn at_rank(&self, id: u32) -> u32
        ensures { result ≡ at_rank 0 self.now.ranked.items self.now.ranks id }
    {
        match self.ranks.rank(id) {
            Some(rank) if rank < self.ranked.len() => self.ranked[rank],
            _ => 0,
        }
    }

    /// The list: at an id's place 0, or one more than what is kept of it.
    #[inline(always)]
    pub fn near(&self) -> &[u32]
        ensures { result.now ≡ self.now.near.items }
    {
        self.near.as_slice()
    }

    /// What is kept of an id, or `NONE` where nothing is. `near` is the list. It takes no memory.
    #[inline(always)]
    pub fn mark(&self, near: &[u32], id: u32) -> u32
        requires { near.now ≡ self.now.near.items }
        ensures { result < 4294967295 → kept self.now id ≡ Some result }
    {
        let place = id as usize;
        if place < near.len() {
            mark_at(near[place])
        } else {
            self.mark_far(id)
        }
    }

    /// What is kept of an id past the list, or `NONE`.
    #[cold]
    #[inline(never)]
    fn mark_far(&self, id: u32) -> u32
        ensures { result < 4294967295 → kept_far self.now id ≡ Some result }
    {
        match self.get_far(id) {
            Some(number) => number,
            None => NONE,
        }
    }

    /// Keeps a number of an id, in place of the one before.
    ///
    /// An `AllocError` comes only where a growth of memory was refused, and then nothing is said of what is left.
    #[inline(always)]
    pub fn put(&mut self, id: u32, number: u32) -> Result<(), AllocError>
        requires { number < 4294967295 }
        ensures { OnOk result ((x : ℕ) → kept self.new x
            ≡ (if nat_eq id x then Some number else kept self.old x)) }
    {
        let place = id as usize;
        if place < self.near.len() {
            self.near[place] = number + 1;
            return Ok(());
        }
        self.put_far(id, number)
    }

    /// Keeps a number of an id past the list.
    #[cold]
    #[inline(never)]
    fn put_far(&mut self, id: u32, number: u32) -> Result<(), AllocError>
        requires number { number < 4294967295 }
        requires past { length self.old.near.items ≤ id }
        ensures { OnOk result ((x : ℕ) → kept self.new x
            ≡ (if nat_eq id x then Some number else kept self.old x)) }
    {
        match self.ranks.rank(id) {
            Some(rank) if rank < self.ranked.len() => {
                self.ranked[rank] = number + 1;
                Ok(())
            }
            _ => {
                self.far.insert(id, number)?;
                Ok(())
            }
        }
    }
}
