//! The walk that shows a fault.

ghost use Rattle.std.specs.Prelude.{◌≡◌, ◌||◌, ℕ, nat_eq, is_some, IfOk, OnOk};
ghost use Rattle.std.specs.List.{list_any};
ghost use Rattle.spv_annotate.specs.Page as page;
ghost use Rattle.spv_annotate.specs.inner.Numbers.{kept};

use crate::finding::Finding;
use crate::numbers::Numbers;
use std::alloc::{AllocError, Global};

/// Keeps ids.
fn keep_all(walk: &mut Numbers, ids: &[u32]) -> Result<(), AllocError>
    ensures { OnOk result ((x : ℕ) → is_some (kept walk.new x)
        ≡ (list_any (nat_eq x) ids.now || is_some (kept walk.old x))) }
{
    for id in ids {
        walk.put(*id, 0)?;
    }
    Ok(())
}

/// The ids of the blocks of the walk that shows a fault: these are kept, and no others.
///
/// An `AllocError` comes only where a growth of memory was refused.
pub fn walk_of(alloc: Global, finding: Option<Finding<'_>>) -> Result<Numbers, AllocError>
    ensures { IfOk result (λ walk. (x : ℕ) → is_some (kept walk x)
        ≡ list_any (nat_eq x) (page.walk_of finding.entry)) }
{
    let mut walk = Numbers::new(alloc, 0)?;
    if let Some(finding) = finding {
        keep_all(&mut walk, finding.walk)?;
    }
    Ok(walk)
}
