//! O10: what imports a variable that has an initializer.

ghost use Rattle.std.specs.Prelude.{◌≡◌, ◌↔◌, ℕ, IfOk, IsTrue, MatchOption, length};
ghost use Rattle.spv_module.specs.Module.{plain_inst};
ghost use Rattle.spv_declarations.specs.Decorated.{Has, Imports, IsInitialized};
ghost use Rattle.spv_declarations.specs.Given.{At};
ghost use Rattle.spv_declarations.specs.inner.Said.{AreSaid, HasAt, ImportsBy};
ghost use Rattle.spv_declarations.specs.inner.Sets.{IsOf, IsSaid};
ghost use Rattle.spv_declarations.specs.inner.Shown.{IsDecorated};

use crate::decorated::{group_of, is_group};
use crate::initialized::{INPUT, initialized_by};
use crate::said::{Said, imported_by};
use crate::shown::ids::decorates;
use spv_module::{Inst, opcode};
use spv_table::Table;
use spv_type_forms::Definitions;
use std::alloc::{AllocError, Global};

/// Whether the ids that an instruction of the module decorates are imported by it, where the kind LinkageType has that
/// number.
fn imports(definitions: &Definitions, linkage: Option<u32>, said: &Said, inst: &Inst<'_>) -> bool
    requires said { AreSaid linkage definitions.now said.now }
    requires inst { IsOf definitions.now (plain_inst inst.now) }
    ensures { (x : ℕ) → IsDecorated (plain_inst inst.now) x
        → IsTrue result ↔ HasAt definitions.now (ImportsBy linkage) x (plain_inst inst.now) }
{
    if let Some(x) = imported_by(linkage, inst) {
        return !is_group(definitions, x);
    }
    match group_of(inst, opcode::GROUP_DECORATE) {
        Some(group) => said.imports(group),
        None => false,
    }
}

/// Whether an id is imported by an instruction of the module.
fn is_imported(
    definitions: &Definitions,
    linkage: Option<u32>,
    said: &Said,
    inst: &Inst<'_>,
    x: u32,
) -> bool
    requires said { AreSaid linkage definitions.now said.now }
    requires inst { IsOf definitions.now (plain_inst inst.now) }
    ensures { IsTrue result ↔ HasAt definitions.now (ImportsBy linkage) x (plain_inst inst.now) }
{
    decorates(inst, x) && imports(definitions, linkage, said, inst)
}

/// The first instruction by which an id is imported.
fn first_import(
    definitions: &Definitions,
    linkage: Option<u32>,
    said: &Said,
    total: u32,
    x: u32,
) -> u32
    requires total { total ≡ length definitions.now }
    requires said { AreSaid linkage definitions.now said.now }
    requires imported { IsSaid definitions.now (HasAt definitions.now (ImportsBy linkage) x) }
    ensures { At definitions.now (HasAt definitions.now (ImportsBy linkage) x) result }
{
    for number in 0..total {
        if is_imported(definitions, linkage, said, definitions.inst(number), x) {
            return number;
        }
    }
    unreachable!()
}

/// What puts an OpVariable with an initializer outside at which O10 is broken: the first instruction by which it has
/// LinkageAttributes with the LinkageType Import, or none where its storage class does. `total` is how many
/// instructions there are.
///
/// Time is near-linear in their words. An `AllocError` comes only where a growth of memory was refused.
pub fn outside_inst(
    alloc: Global,
    table: &Table,
    definitions: &Definitions,
    total: u32,
    inst: u32,
) -> Result<Option<u32>, AllocError>
    requires total { total ≡ length definitions.now }
    requires broken { IsInitialized table.now definitions.now inst }
    ensures { IfOk result (λ o. MatchOption o
        ((e : IsInitialized table.now definitions.now inst) × (e.class ≡ 1))
        (λ m. (e : IsInitialized table.now definitions.now inst) × Has definitions.now (Imports table.now) e.id m)) }
{
    let Some((x, class)) = initialized_by(definitions.inst(inst)) else {
        unreachable!();
    };
    if class == INPUT {
        return Ok(None);
    }
    let linkage = table.kind_named("LinkageType");
    let said = Said::gather(alloc, definitions, linkage, total)?;
    Ok(Some(first_import(definitions, linkage, &said, total, x)))
}
