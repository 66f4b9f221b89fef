//! Numbers that are kept of ids.

ghost use Rattle.std.specs.Prelude.{◌≡◌, ◌<◌, ℕ, None, Some, nat_eq, if◌then◌else◌, IfOk, OnOk, length};
ghost use Rattle.std.specs.Ordering.{nat_cmp};
ghost use Rattle.std.specs.BTreeMap.{get};
ghost use Rattle.spv_annotate.specs.inner.Numbers.{kept, number_in};

use std::alloc::{AllocError, Global};
use std::collections::BTreeMap;

/// How many ids have a place in the list however few things there are to keep.
const LEAST_PLACES: usize = 1024;

/// At most one number of each id.
///
/// Ids are mostly small and dense, so a list with a place for each small id serves most of them. A map has the others,
/// so that the memory taken grows with what is kept, and not with the ids.
#[derive(Drop)]
pub struct Numbers {
    /// At an id's place 0, or one more than what is kept of it.
    near: Vec<u32>,
    /// What is kept of the ids past the list.
    far: BTreeMap<u32, u32>,
}

/// What a place of the list says.
fn number_at(place: u32) -> Option<u32>
    ensures { result ≡ number_in place }
{
    match place {
        0 => None,
        more => Some(more - 1),
    }
}

/// A map of no ids.
fn empty_map(alloc: Global) -> BTreeMap<u32, u32>
    ensures { (x : ℕ) → get nat_cmp result x ≡ None }
{
    BTreeMap::new(alloc)
}

impl Numbers {
    /// Nothing is kept of any id. So many things are to be kept, about.
    ///
    /// An `AllocError` comes only where a growth of memory was refused.
    pub fn new(alloc: Global, count: u32) -> Result<Numbers, AllocError>
        ensures { IfOk result (λ numbers. (x : ℕ) → kept numbers x ≡ None) }
    {
        let places = 2 * count as usize + LEAST_PLACES;
        let near = vec![in alloc; 0; places]?;
        let far = empty_map(alloc);
        Ok(Numbers { near, far })
    }

    /// What is kept of an id. It takes no memory.
    #[inline(always)]
    pub fn get(&self, id: u32) -> Option<u32>
        ensures { result ≡ kept self.now id }
    {
        let place = id as usize;
        if place < self.near.len() {
            number_at(self.near[place])
        } else {
            self.far.get(&id).copied()
        }
    }

    /// Keeps a number of an id, in place of the one before.
    ///
    /// An `AllocError` comes only where a growth of memory was refused, and then nothing is said of what is left.
    #[inline(always)]
    pub fn put(&mut self, id: u32, number: u32) -> Result<(), AllocError>
        requires { number < 4294967295 }
        ensures { OnOk result ((x : ℕ) → kept self.new x
            ≡ (if nat_eq id x then Some number else kept self.old x)) }
    {
        let place = id as usize;
        if place < self.near.len() {
            self.near[place] = number + 1;
            return Ok(());
        }
        self.far.insert(id, number)?;
        Ok(())
    }
}
