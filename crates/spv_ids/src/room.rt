//! Room for what is kept of the results of instructions whose ids are sparse.

ghost use Rattle.std.specs.Prelude.{◌≡◌, ℕ, IfOk, None};
ghost use Rattle.spv_ids.specs.inner.Notes.{kept};

use crate::notes::Notes;
use crate::uses::result_of;
use spv_module::Inst;
use spv_ranks::{Ranks, dense_bound};
use std::alloc::{AllocError, Global};

/// How many instructions have a result.
fn count_results(insts: &[Inst<'_>]) -> usize {
    let mut count: usize = 0;
    for inst in insts {
        if result_of(inst).is_some() {
            count = count.wrapping_add(1);
        }
    }
    count
}

/// The results of instructions.
fn results(alloc: Global, insts: &[Inst<'_>]) -> Result<Vec<u32>, AllocError> {
    let mut ids = Vec::with_capacity(alloc, count_results(insts))?;
    for inst in insts {
        if let Some(id) = result_of(inst) {
            ids.push(id)?;
        }
    }
    Ok(ids)
}

/// Room for the results of instructions, in 12 bytes a result: a list of the small ids of which at least half are
/// results, and a place by its rank for each of the others. Nothing is kept of any id.
///
/// An `AllocError` comes only where a growth of memory was refused.
#[inline(never)]
pub fn sparse_room(alloc: Global, insts: &[Inst<'_>]) -> Result<Notes, AllocError>
    ensures { IfOk result (λ notes. (x : ℕ) → kept notes x ≡ None) }
{
    let ids = results(alloc, insts)?;
    let bound = dense_bound(ids.as_slice());
    let ranks = Ranks::of(alloc, ids, bound)?;
    Notes::of(alloc, bound as usize, ranks)
}
