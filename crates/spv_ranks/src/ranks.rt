//! The ranks of ids.

ghost use Rattle.std.specs.Prelude.{◌≡◌, ◌≤◌, [], length, IfOk, IsTrue};
ghost use Rattle.spv_ranks.specs.Rank.{rank_in};
ghost use Rattle.spv_ranks.specs.inner.Rising.{AreRising, IsGap};

use crate::sorted::sorted;
use std::alloc::{AllocError, Global};
use std::marker::Model;

/// Ids, each with its rank: how many of them are below it. Contracts see the ids in order.
///
/// Memory is 8 bytes for each id at most. A look-up takes about the same time for all, if they are spread evenly: ids
/// are divided by their first bits into about as many rows as there are ids. However they lie, it takes no more than a
/// search by halves in a row, which has no more ids than differ in the bits that are left.
#[derive(Drop)]
pub struct Ranks {
    /// The ids in order.
    ids: Vec<u32>,
    /// The rank at which each row begins, and then the number of ids. Nothing is proved of them.
    starts: Vec<u32>,
    /// By how many bits an id is shifted to the right for the number of its row.
    shift: u32,
}

impl Model for Ranks {
    ghost use Rattle.std.specs.Prelude.{List, ℕ};
    ghost use Rattle.spv_ranks.specs.inner.Rising.{AreRising};

    ghost Value = { List ℕ };

    ghost view = { λ r. r.ids.items };

    ghost invariant = { λ r. AreRising r.ids.items };
}

/// Those of some ids from one on that are above all before them.
fn rising(alloc: Global, ids: &[u32], from: u32) -> Result<Vec<u32>, AllocError>
    ensures { IfOk result (λ v. AreRising v.items) }
{
    let mut all = Vec::with_capacity(alloc, ids.len())?;
    let mut above = u64::from(from);
    for id in ids {
        if above <= u64::from(*id) {
            all.push(*id)?;
            above = u64::from(*id) + 1;
        }
    }
    Ok(all)
}

/// By how many bits ids are shifted to the right for their rows: for about as many rows as there are ids.
fn shift_for(count: usize, greatest: u32) -> u32 {
    let bits = (count as u64).max(1).ilog2();
    greatest.max(1).ilog2().wrapping_add(1).saturating_sub(bits)
}

/// The place at which the row of each id begins, and then the number of ids.
fn starts_of(alloc: Global, ids: &[u32], shift: u32) -> Result<Vec<u32>, AllocError> {
    let mut starts = Vec::new(alloc);
    for (rank, id) in ids.iter().enumerate() {
        let row = id.wrapping_shr(shift) as usize;
        for _ in starts.len()..row + 1 {
            starts.push((rank & 0xffff_ffff) as u32)?;
        }
    }
    starts.push((ids.len() & 0xffff_ffff) as u32)?;
    Ok(starts)
}

impl Ranks {
    /// No ids. It takes no memory.
    pub fn none(alloc: Global) -> Ranks
        ensures { result ≡ [] }
    {
        Ranks {
            ids: Vec::new(alloc),
            starts: Vec::new(alloc),
            shift: 0,
        }
    }

    /// The ids from one on that are in a list, in whatever order and number. None is promised: whoever keeps something
    /// of an id without a rank has another place for that.
    ///
    /// An `AllocError` comes only where a growth of memory was refused.
    pub fn of(alloc: Global, ids: Vec<u32>, from: u32) -> Result<Ranks, AllocError> {
        let ordered = sorted(alloc, ids)?;
        let ids = rising(alloc, ordered.as_slice(), from)?;
        let greatest = match ids.last() {
            Some(id) => *id,
            None => 0,
        };
        let shift = shift_for(ids.len(), greatest);
        let starts = starts_of(alloc, ids.as_slice(), shift)?;
        Ok(Ranks { ids, starts, shift })
    }

    /// How many ids have a rank.
    pub fn len(&self) -> usize
        ensures { result ≡ length self.now }
    {
        self.ids.len()
    }

    /// The rank of an id, if it has one.
    #[inline(always)]
    pub fn rank(&self, id: u32) -> Option<usize>
        ensures { result ≡ rank_in self.now id }
    {
        let at = self.guess(id);
        let ids = self.ids.as_slice();
        if at < ids.len() && ids[at] == id {
            return Some(at);
        }
        if is_gap(ids, id, at) {
            return None;
        }
        self.search(id)
    }

    /// Where an id stands, or would stand: by its row. It is looked at by whoever asks.
    #[inline(always)]
    fn guess(&self, id: u32) -> usize {
        let count = self.ids.len();
        let row = id.wrapping_shr(self.shift) as usize;
        let starts = self.starts.as_slice();
        if starts.len() <= row.wrapping_add(1) {
            return count;
        }
        let low = starts[row] as usize;
        let high = (starts[row + 1] as usize).min(count);
        halved(self.ids.as_slice(), id, low, high)
    }

    /// The rank of an id, by halves of all.
    #[cold]
    #[inline(never)]
    fn search(&self, id: u32) -> Option<usize>
        ensures { result ≡ rank_in self.now id }
    {
        match self.ids.binary_search(&id) {
            Ok(at) => Some(at),
            Err(_) => None,
        }
    }
}

/// Where an id stands, or would stand, among ids from one place to before another, found by halves.
#[inline(always)]
fn halved(ids: &[u32], id: u32, from: usize, to: usize) -> usize
    requires { to ≤ length ids.now }
{
    let mut low = from;
    let mut high = to;
    'halve: while low < high {
        let middle = low + (high - low) / 2;
        if ids[middle] < id {
            low = middle + 1;
        } else {
            high = middle;
        }
    }
    low
}

/// Whether an id would stand at a place: the one before is lower, and the one there is greater.
#[inline(always)]
fn is_gap(ids: &[u32], id: u32, at: usize) -> bool
    ensures { IsTrue result → IsGap ids.now id at }
{
    if at < ids.len() && ids[at] <= id {
        return false;
    }
    at == 0 || (at <= ids.len() && ids[at - 1] < id)
}
