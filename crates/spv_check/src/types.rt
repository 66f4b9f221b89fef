//! The types of a module.

ghost use Rattle.std.specs.Prelude.{◌≡◌, ℕ, IfOk, IfErr, OnOk};
ghost use Rattle.spv_module.specs.Module.{plain_insts};
ghost use Rattle.spv_layout.specs.First.{IsUnbroken};
ghost use Rattle.spv_layout.specs.Place.{IsShort};
ghost use Rattle.spv_layout.specs.Plan.{IsPlan};
ghost use Rattle.spv_layout.specs.Stage.{of_roles, of_types};
ghost use Rattle.spv_ids.specs.Outcome.{IsDefinitionOf, definition_in};
ghost use Rattle.spv_check.specs.types.Broken.{Broken};
ghost use Rattle.spv_check.specs.types.Outcome.{AreTypes, IsRefusal, type_in};

pub mod laws;
mod listed;
mod pass;

use crate::types::listed::meanings_of;
use crate::types::pass::first_fault;
use spv_capabilities::{Capabilities, survey};
use spv_ids::Ids;
use spv_layout::Plan;
use spv_module::{Module, Stop};
use spv_table::Table;
use spv_type_forms::{Definitions, Meaning};
use spv_type_rules::Rules;
use spv_type_rules::roles::roles_check;
use std::alloc::Global;
use std::marker::Model;

/// The types that a module's ids are declared with (SPIR-V Specification 1.6, section 2.16), with what else was found
/// out of the module. They are read from the instructions that define the ids. Contracts see the grammar table and the
/// instructions.
#[derive(Drop)]
pub struct Types<'m, 'a> {
    definitions: Definitions<'m, 'a>,
    /// What the ids stand for, or nothing where a list of it would be large beside the module.
    meanings: Vec<Meaning>,
    /// The capabilities that the module has.
    capabilities: Capabilities<'m, 'a>,
}

impl<'m, 'a> Model for Types<'m, 'a> {
    ghost use Rattle.std.specs.Prelude.{◌≡◌};
    ghost use Rattle.spv_capabilities.specs.inner.Subject.{Subject};
    ghost use Rattle.spv_type_forms.specs.inner.Meaning.{AreMeant};

    ghost Value = { Subject };

    ghost view = { λ t. t.capabilities };

    ghost invariant = { λ t. (t.definitions ≡ t.capabilities.insts) × AreMeant t.definitions t.meanings.items };
}

impl<'m, 'a> Types<'m, 'a> {
    /// The type that an id is declared with: the `Type` of the instruction whose result it is. None where that has
    /// none, or there is no such instruction. It takes no memory, and constant time where the id is a small one.
    #[inline(always)]
    pub fn of(&self, id: u32) -> Option<u32>
        ensures { result ≡ type_in self.now id }
    {
        self.definitions.type_of(id)
    }

    /// The instructions that define the ids of the module, with what the ids stand for. It takes no memory.
    pub(crate) fn definitions(&self) -> Definitions<'_, 'a>
        ensures { result ≡ self.now.insts }
    {
        self.definitions.noted(self.meanings.as_slice())
    }

    /// The capabilities that the module has. It takes no memory.
    pub(crate) fn capabilities(&self) -> &Capabilities<'m, 'a>
        ensures { result.now ≡ self.now }
    {
        &self.capabilities
    }
}

/// Whether a module keeps the rules of roles, capabilities, entry points and types. `plan` and `ids` are what `lay_out`
/// and `number` answered of that module, by that table.
///
/// Time is near-linear in the words of the module, besides what the capabilities take that are declared.
///
/// A `Fault` tells the first rule that is broken, with its instruction and that instruction's first word (words and
/// instructions from 0). Y1 is looked for first, in all instructions:
/// - Y1: a use of an id that does not play the role which the use's shape asks for (2.16, own).
///
/// Where it is broken nowhere, the first instruction is told at which one of these is, and at it the first of these:
/// - C1, C2, M1, E1 and E2: capabilities, the memory model and entry points (2.4, 2.16.1, 3.31).
/// - Y2: a type declaration that is not such as there may be (3.49.6, widths and counts own).
/// - Y3: a type, other than an array, a struct or a pointer, that is declared again (2.8).
/// - Y4: a constant that is not of its type, or not of constants of the types at their places (3.49.7).
/// - Y5: an operation whose operands or result have not the types that it asks for.
/// - Y6: a function whose type is not that of its result and its parameters, or a parameter whose type is not the one
///   at its
///   place (3.49.9).
/// - Y7: a return without a value in a function that does not return void, or a returned value of another type
///   (3.49.17).
/// - Y8: a call whose result or arguments have not the types, in number and order, of the callee's function type
///   (3.49.9).
///
/// `Memory` comes only where a growth of memory was refused.
#[tactic(none)]
pub fn type_check<'m, 'a>(
    alloc: Global,
    table: &'m Table,
    module: &'m Module<'a>,
    plan: &'m Plan,
    ids: &'m Ids,
) -> Result<Types<'m, 'a>, Stop>
    // The condition of `lay_out`, and that the plan and the ids are what was answered of the module.
    requires words { IsShort (plain_insts «module».now) }
    requires plan { IsPlan table.now (plain_insts «module».now) plan.now }
    requires ids { (x : ℕ) → IsDefinitionOf (plain_insts «module».now) x (definition_in ids.now x) }
    // Each rule is kept at each instruction, so none is broken.
    ensures types { IfOk result (λ types. AreTypes table.now (plain_insts «module».now) types) }
    ensures unbroken { OnOk result (IsUnbroken (Broken table.now (plain_insts «module».now)) of_roles
        × IsUnbroken (Broken table.now (plain_insts «module».now)) of_types) }
    ensures refused { IfErr result (λ s. IsRefusal table.now (plain_insts «module».now) s) }
{
    let insts = module.insts.as_slice();
    let definitions = Definitions::new(insts, plan, ids);
    let Ok(meanings) = meanings_of(alloc, &definitions, plan, insts.len()) else {
        return Err(Stop::Memory);
    };
    let noted = definitions.noted(meanings.as_slice());
    if let Err(fault) = roles_check(module, &noted) {
        return Err(Stop::Fault(fault));
    }
    let Ok(mut entries) = survey(alloc, table, module, plan, ids) else {
        return Err(Stop::Memory);
    };
    let rules = Rules::new(module, plan, ids, noted);
    match first_fault(alloc, insts, &mut entries, &rules) {
        Ok(None) => {}
        Ok(Some(found)) => return Err(plan.stop_at(found.rule, found.inst)),
        Err(_) => return Err(Stop::Memory),
    }
    Ok(Types {
        definitions,
        meanings,
        capabilities: entries.into_capabilities(),
    })
}
