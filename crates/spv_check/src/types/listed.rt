//! The list of what the ids of a module stand for.

ghost use Rattle.std.specs.Prelude.{IfOk};
ghost use Rattle.spv_layout.specs.Place.{AreFew};
ghost use Rattle.spv_type_forms.specs.inner.Meaning.{AreMeant};

use spv_layout::Plan;
use spv_table::Memory;
use spv_type_forms::{Definitions, Meaning};
use std::alloc::Global;

/// How many instructions a module has at most for a list of what its ids stand for, which takes 8 bytes for each.
const MOST_LISTED: usize = 1 << 20;

/// Whether a list with a place for each of so many instructions is small beside their module: they are not too many,
/// and take three words each or more.
fn are_listed(plan: &Plan, count: usize) -> bool {
    if count == 0 || count > MOST_LISTED {
        return false;
    }
    match plan.at(count as u32 - 1) {
        Some(last) => last.word as usize >= 3 * count,
        None => false,
    }
}

/// What each id of a module stands for; nothing is noted where a list of it would be large beside the module. `plan` is
/// that of the module, of so many instructions.
///
/// `Memory` comes only where a growth of memory was refused.
pub fn meanings_of(
    alloc: Global,
    definitions: &Definitions<'_, '_>,
    plan: &Plan,
    count: usize,
) -> Result<Vec<Meaning>, Memory>
    requires { AreFew definitions.now }
    ensures { IfOk result (λ meanings. AreMeant definitions.now meanings.items) }
{
    if !are_listed(plan, count) {
        return Ok(Vec::new(alloc));
    }
    let meanings = definitions.meanings(alloc)?;
    Ok(meanings)
}
