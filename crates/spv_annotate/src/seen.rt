//! Ids that were seen.

ghost use Rattle.std.specs.Prelude.{◌≡◌, ◌≤◌, ◌<◌, ◌||◌, ℕ, IfOk, OnOk, false, nat_eq, not};
ghost use Rattle.std.specs.List.{list_any};
ghost use Rattle.std.specs.Ordering.{nat_cmp};
ghost use Rattle.std.specs.BTreeSet.{contains};
ghost use Rattle.spv_table.specs.Lookups.{is_number};
ghost use Rattle.spv_annotate.specs.declared.seen.TheConstants.{FEW};

use std::alloc::{AllocError, Global};
use std::collections::BTreeSet;

/// How many ids stand in a row before a set has the others.
const FEW: usize = 8;

/// Ids that were seen.
///
/// The first few stand in a row, which takes no memory. A set has the others, so that one more of many takes about as
/// long as one more of few.
#[derive(Drop)]
pub struct Seen {
    /// The first few.
    few: [u32; FEW],
    /// How many these are.
    count: usize,
    /// The others.
    more: BTreeSet<u32>,
    ghost within: { count ≤ FEW },
    ghost full: { count < FEW → (x : ℕ) → contains nat_cmp more x ≡ false },
}

/// Whether an id is one of some.
fn is_among(ids: &[u32], id: u32) -> bool
    ensures { result ≡ list_any (nat_eq id) ids.now }
{
    for other in ids {
        if id == *other {
            return true;
        }
    }
    false
}

impl Seen {
    ghost use Rattle.spv_annotate.specs.inner.Seen.{is_seen};

    /// No id but this one, if there is one. It takes no memory.
    pub fn new(alloc: Global, first: Option<u32>) -> Seen
        ensures { (x : ℕ) → is_seen result x ≡ is_number x first }
    {
        let (id, count) = match first {
            Some(id) => (id, 1),
            None => (0, 0),
        };
        Seen {
            few: [id; FEW],
            count,
            more: BTreeSet::new(alloc),
        }
    }

    /// Adds an id, and answers whether it was not seen before.
    ///
    /// An `AllocError` comes only where a growth of memory was refused.
    pub fn add(&mut self, id: u32) -> Result<bool, AllocError>
        ensures unseen { IfOk result (λ unseen. unseen ≡ not (is_seen self.old id)) }
        ensures added { OnOk result ((x : ℕ) → is_seen self.new x ≡ (nat_eq id x || is_seen self.old x)) }
    {
        if is_among(&self.few[..self.count], id) {
            return Ok(false);
        }
        if self.count == FEW {
            return Ok(self.more.insert(id)?);
        }
        self.few[self.count] = id;
        self.count += 1;
        Ok(true)
    }
}
