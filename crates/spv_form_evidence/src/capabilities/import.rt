//! The OpDecorate that imports a function.

ghost use Rattle.std.specs.Prelude.{◌≡◌, ◌↔◌, IsTrue, map};
ghost use Rattle.spv_table.specs.Lookups.{number_named};
ghost use Rattle.spv_module.specs.Module.{plain_inst, plain_operands};
ghost use Rattle.spv_layout.specs.Place.{AreFew};
ghost use Rattle.spv_ids.specs.Definition.{IsDefinedAt};
ghost use Rattle.spv_capabilities.specs.Entry as spec;
ghost use Rattle.spv_capabilities.specs.Asked.{IsImported};
ghost use Rattle.spv_form_evidence.specs.capabilities.inner.Imports.{Imports, IsImportAt};

use spv_capabilities::{Survey, linked_id};
use spv_module::{Inst, opcode};

/// What an instruction imports, where the kind LinkageType has that number.
fn imported(linkage: Option<u32>, inst: &Inst<'_>) -> Option<u32>
    ensures { result ≡ spec.imported_by linkage (plain_inst inst.now) }
{
    if inst.opcode != opcode::DECORATE {
        return None;
    }
    linked_id(linkage, inst.operands.as_slice())
}

/// Whether an instruction of a number defines an id.
fn defines(survey: &Survey<'_, '_>, number: u32, id: u32) -> bool
    ensures { IsTrue result ↔ IsDefinedAt survey.now.insts id number }
{
    match survey.definition(id) {
        Some(own) => own == number,
        None => false,
    }
}

/// Whether an instruction imports what the instruction of a number defines.
fn imports(survey: &Survey<'_, '_>, linkage: Option<u32>, inst: &Inst<'_>, number: u32) -> bool
    ensures { IsTrue result ↔ Imports survey.now.insts linkage (plain_inst inst.now) number }
{
    match imported(linkage, inst) {
        Some(id) => defines(survey, number, id),
        None => false,
    }
}

/// The first instruction that imports the function of an OpFunction.
pub fn first_import(survey: &Survey<'_, '_>, insts: &[Inst<'_>], number: u32) -> u32
    requires most { AreFew insts.now }
    requires surveyed { survey.now.insts ≡ map plain_inst insts.now }
    requires imported { IsImported survey.now.table survey.now.insts number }
    ensures { IsImportAt survey.now.table survey.now.insts number result }
{
    let linkage = survey.table().kind_named("LinkageType");
    for k in 0..insts.len() as u32 {
        if imports(survey, linkage, &insts[k as usize], number) {
            return k;
        }
    }
    unreachable!();
}
