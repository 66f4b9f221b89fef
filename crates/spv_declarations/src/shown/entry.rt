//! O9: the entry point whose function has linkage.

ghost use Rattle.std.specs.Prelude.{◌≡◌, ◌↔◌, ℕ, IfOk, IsTrue, length};
ghost use Rattle.spv_module.specs.Module.{plain_inst};
ghost use Rattle.spv_declarations.specs.Decorated.{HasBy, IsEntered, IsLinkedEntry};
ghost use Rattle.spv_declarations.specs.Given.{At};
ghost use Rattle.spv_declarations.specs.inner.Sets.{IsSaid};
ghost use Rattle.spv_declarations.specs.inner.Shown.{Enters};

use crate::linked::entered_by;
use crate::shown::ids::decorated_ids;
use spv_module::Inst;
use spv_type_forms::Definitions;
use std::alloc::{AllocError, Global};
use std::collections::BTreeSet;

/// Whether an instruction is an OpEntryPoint of one of some functions.
fn enters(functions: &BTreeSet<u32>, inst: &Inst<'_>) -> bool
    ensures { IsTrue result ↔ Enters functions.now (plain_inst inst.now) }
{
    match entered_by(inst) {
        Some(f) => functions.contains(&f),
        None => false,
    }
}

/// The first OpEntryPoint of one of some functions.
fn first_entry(definitions: &Definitions, functions: &BTreeSet<u32>, total: u32) -> u32
    requires total { total ≡ length definitions.now }
    requires entered { IsSaid definitions.now (Enters functions.now) }
    ensures { At definitions.now (Enters functions.now) result }
{
    for number in 0..total {
        if enters(functions, definitions.inst(number)) {
            return number;
        }
    }
    unreachable!()
}

/// An OpEntryPoint, the first, of a function that has LinkageAttributes (41) by an instruction that breaks O9. `total`
/// is how many instructions there are.
///
/// Time is near-linear in their words. An `AllocError` comes only where a growth of memory was refused.
pub fn linking_entry(
    alloc: Global,
    definitions: &Definitions,
    total: u32,
    inst: u32,
) -> Result<u32, AllocError>
    requires total { total ≡ length definitions.now }
    requires broken { IsLinkedEntry definitions.now inst }
    ensures { IfOk result (λ m. (x : ℕ) × (e : IsEntered definitions.now x) × HasBy definitions.now x 41 inst
        × (e.place ≡ m)) }
{
    let functions = decorated_ids(alloc, definitions.inst(inst))?;
    Ok(first_entry(definitions, &functions, total))
}
