//! A module that is surveyed: which capabilities it has, and which of its functions are called, entered and imported.

ghost use Rattle.std.specs.Prelude.{◌≡◌, ◌↔◌, ◌<◌, ℕ, List, Option, IsTrue, IfOk, Some, codes};
ghost use Rattle.std.specs.Prelude.{length, map, slice_get};
ghost use Rattle.spv_table.specs.Table.{Table};
ghost use Rattle.spv_table.specs.Lookups.{number_named};
ghost use Rattle.spv_module.specs.Operand.{PlainInst};
ghost use Rattle.spv_module.specs.Module.{plain_inst};
ghost use Rattle.spv_module.specs.declared.opcode.TheConstants as opcode;
ghost use Rattle.spv_layout.specs.Place.{IsDefinition};
ghost use Rattle.spv_layout.specs.Plan.{IsPlan, IsPlaceOf};
ghost use Rattle.spv_layout.specs.Rows.{row_of};
ghost use Rattle.spv_layout.specs.inner.Unkinded.{is_unkinded_row};
ghost use Rattle.spv_ids.specs.Order.{HasOpcode};
ghost use Rattle.spv_ids.specs.Outcome.{IsDefinitionOf, definition_in};
ghost use Rattle.spv_capabilities.specs.Capable.{Has};
ghost use Rattle.spv_capabilities.specs.Entry.{IsNamed};
ghost use Rattle.spv_capabilities.specs.Asked.{IsImported};
ghost use Rattle.spv_capabilities.specs.inner.Entry.{IsCalled, IsEntered};
ghost use Rattle.spv_capabilities.specs.inner.Survey.{AreMarked};
ghost use Rattle.spv_capabilities.specs.inner.Unkinded.{HasNoKinds};

use crate::gather::{Gathered, gather};
use crate::having::Capabilities;
use spv_ids::Ids;
use spv_layout::{DEFINITIONS, Place, Plan, is_unkinded};
use spv_module::Inst;
use spv_table::{Memory, Table};
use std::alloc::Global;
use std::collections::BTreeSet;
use std::marker::Model;

/// A module and what is gathered of it. Contracts see the grammar table and the instructions.
#[derive(Drop)]
pub struct Survey<'m, 'a> {
    table: &'m Table,
    insts: &'m [Inst<'a>],
    plan: &'m Plan,
    ids: &'m Ids,
    /// The capabilities that the module has.
    implied: BTreeSet<u32>,
    /// The number of the kind named Capability.
    capability: Option<u32>,
    gathered: Gathered,
}

impl<'m, 'a> Model for Survey<'m, 'a> {
    ghost use Rattle.std.specs.Prelude.{map};
    ghost use Rattle.spv_module.specs.Module.{plain_inst};
    ghost use Rattle.spv_capabilities.specs.inner.Subject.{Subject};
    ghost use Rattle.spv_capabilities.specs.inner.Survey.{IsSurvey};

    ghost Value = { Subject };

    ghost view = { λ s. record { table = s.table.now; insts = map plain_inst s.insts.now } };

    ghost invariant = { λ s. IsSurvey s };
}

impl<'m, 'a> Survey<'m, 'a> {
    /// Surveys a module. `Memory` comes only where a growth of memory was refused.
    pub fn new(
        alloc: Global,
        table: &'m Table,
        insts: &'m [Inst<'a>],
        plan: &'m Plan,
        ids: &'m Ids,
    ) -> Result<Survey<'m, 'a>, Memory>
        requires plan { (G : Table) × IsPlan G (map plain_inst insts.now) plan.now }
        requires ids { (x : ℕ) → IsDefinitionOf (map plain_inst insts.now) x (definition_in ids.now x) }
        ensures { IfOk result (λ s. s ≡ record { table = table.now; insts = map plain_inst insts.now }) }
    {
        let gathered = gather(alloc, insts, ids, table.kind_named("LinkageType"))?;
        let implied = table.implied(alloc, gathered.declared.as_slice())?;
        Ok(Survey {
            table,
            insts,
            plan,
            ids,
            implied,
            capability: table.kind_named("Capability"),
            gathered,
        })
    }

    /// The capabilities of the module, without what else was gathered of it. It takes no memory.
    pub fn into_capabilities(self) -> Capabilities<'m, 'a>
        ensures { result ≡ self.entry }
    {
        let Survey {
            table,
            insts,
            implied,
            ..
        } = self;
        Capabilities::of_implied(table, insts, implied)
    }

    /// The grammar table.
    pub fn table(&self) -> &'m Table
        ensures { result.now ≡ self.now.table }
    {
        self.table
    }

    /// The instruction of a number.
    #[inline(always)]
    pub fn inst(&self, number: u32) -> &'m Inst<'a>
        requires { number < length self.now.insts }
        ensures { slice_get self.now.insts number ≡ Some (plain_inst result.now) }
    {
        &self.insts[number as usize]
    }

    /// The number of the kind named Capability.
    #[inline(always)]
    pub fn capability_kind(&self) -> Option<u32>
        ensures { result ≡ number_named self.now.table (codes "Capability") }
    {
        self.capability
    }

    /// Whether the module has a capability.
    pub fn has(&self, capability: u32) -> bool
        ensures { IsTrue result ↔ Has self.now.table self.now.insts capability }
    {
        self.implied.contains(&capability)
    }

    /// Whether there is an OpEntryPoint.
    pub fn has_entry_point(&self) -> bool
        ensures { IsTrue result ↔ ((n : ℕ) × HasOpcode self.now.insts n opcode.ENTRY_POINT) }
    {
        self.gathered.entry
    }

    /// The instruction that defines an id.
    pub fn definition(&self, id: u32) -> Option<u32>
        ensures { IsDefinitionOf self.now.insts id result }
    {
        self.ids.definition(id)
    }

    /// Whether an instruction is the OpFunction of a function that is a definition.
    #[inline(always)]
    pub fn is_definition(&self, function: u32) -> bool
        requires { function < length self.now.insts }
        ensures { IsTrue result ↔ IsDefinition self.now.insts function }
    {
        let Some(place) = self.plan.at(function) else {
            unreachable!();
        };
        is_defined(place, function)
    }

    /// Whether no instruction of an opcode has a value or a mask.
    pub fn is_unkinded(&self, number: u16) -> bool
        ensures told { result ≡ is_unkinded_row (row_of number) }
        ensures operands { IsTrue result → HasNoKinds self.now.insts number }
    {
        let _insts = self.insts;
        is_unkinded(number)
    }

    /// Whether an instruction defines a function that is called.
    pub fn is_called(&self, function: u32) -> bool
        ensures { IsTrue result ↔ IsCalled self.now.insts function }
    {
        is_marked(self.gathered.called.as_slice(), function)
    }

    /// Whether an instruction defines the function of an entry point.
    pub fn is_entered(&self, function: u32) -> bool
        ensures { IsTrue result ↔ IsEntered self.now.insts function }
    {
        is_marked(self.gathered.entered.as_slice(), function)
    }

    /// Whether an instruction defines what is imported.
    #[inline(always)]
    pub fn is_imported(&self, function: u32) -> bool
        ensures { IsTrue result ↔ IsImported self.now.table self.now.insts function }
    {
        is_marked(self.gathered.imported.as_slice(), function)
    }
}

/// Whether a place is that of the OpFunction of a number, and of section 11.
#[inline(always)]
fn is_defined(place: Place, function: u32) -> bool
    ensures { (is : List PlainInst) → IsPlaceOf is function place → IsTrue result ↔ IsDefinition is function }
{
    match place.function {
        Some(own) => own == function && place.section == DEFINITIONS,
        None => false,
    }
}

/// Whether an instruction is marked.
#[inline(always)]
fn is_marked(marks: &[bool], inst: u32) -> bool
    ensures { (names : PlainInst → Option ℕ) (is : List PlainInst) → AreMarked names is (length is) marks.now
        → IsTrue result ↔ IsNamed names is inst }
{
    match marks.get(inst as usize) {
        Some(mark) => *mark,
        None => false,
    }
}
