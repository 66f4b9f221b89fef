//! What facts are about, and the parts of the texts that tell them.
ghost use Rattle.std.specs.Prelude.{◌≡◌, ◌++◌, decimal, option_map};
ghost use Rattle.std.specs.Prelude.{slice_get, string_bytes, OnOk};
ghost use Rattle.spv_module.specs.Module.{plain_inst, plain_insts, plain_operand};
ghost use Rattle.spv_facts.specs.Texts as texts;
ghost use Rattle.spv_facts.specs.Texts.{capability_name, id_part};
ghost use Rattle.spv_facts.specs.Texts.{operand_at, result_part, value_text};

use crate::fact::Detail;
use itoa::Buffer;
use spv_module::{Inst, Module, Operand};
use spv_table::Table;
use std::alloc::{AllocError, Global};

/// What lines are about: a module, under the table of a grammar.
#[derive(Clone, Copy)]
pub struct About<'m, 'a> {
    /// Where texts are kept.
    pub alloc: Global,
    /// The table of the grammar.
    pub table: &'m Table,
    /// How much is told.
    pub detail: Detail,
    /// The module.
    pub module: &'m Module<'a>,
}

/// Adds a number in decimal.
pub fn push_number(out: &mut String, number: u32) -> Result<(), AllocError>
    ensures { OnOk result (string_bytes out.new ≡ string_bytes out.old ++ decimal number) }
{
    let mut buffer = Buffer::new();
    out.push_str(buffer.format(number))
}

/// Adds a space and an id, as ` %7`.
pub fn push_id(out: &mut String, id: u32) -> Result<(), AllocError>
    ensures { OnOk result (string_bytes out.new ≡ string_bytes out.old ++ id_part id) }
{
    out.push(' ')?;
    out.push('%')?;
    push_number(out, id)
}

/// Adds the name of a value of a kind, or its number where the grammar has none.
pub fn push_value(out: &mut String, table: &Table, kind: u32, value: u32) -> Result<(), AllocError>
    ensures { OnOk result (string_bytes out.new ≡ string_bytes out.old ++ value_text table.now kind value) }
{
    match table.enumerant(kind, value) {
        Some(enumerant) => out.push_str(enumerant.name()),
        None => push_number(out, value),
    }
}

/// Adds the name of a capability, or its number where the grammar has none.
pub fn push_capability(out: &mut String, table: &Table, capability: u32) -> Result<(), AllocError>
    ensures { OnOk result (string_bytes out.new ≡ string_bytes out.old ++ capability_name table.now capability) }
{
    match table.kind_named("Capability") {
        Some(kind) => push_value(out, table, kind, capability),
        None => push_number(out, capability),
    }
}

impl<'m, 'a> About<'m, 'a> {
    /// The instruction of that number.
    pub fn inst(&self, inst: u32) -> Option<&'m Inst<'a>>
        ensures { option_map (λ i. plain_inst i.now) result ≡ slice_get (plain_insts self.now.«module».now) inst }
    {
        self.module.insts.as_slice().get(inst as usize)
    }

    /// The result of an instruction, if it has one.
    pub fn result_of(&self, inst: u32) -> Option<u32>
        ensures { result ≡ texts.result_of (plain_insts self.now.«module».now) inst }
    {
        match self.inst(inst) {
            Some(inst) => inst.result_id(),
            None => None,
        }
    }

    /// The operand of that number of an instruction.
    pub fn operand_of(&self, inst: u32, number: u32) -> Option<Operand<'a>>
        ensures { option_map plain_operand result ≡ operand_at (plain_insts self.now.«module».now) inst number }
    {
        match self.inst(inst) {
            Some(inst) => inst.operands.as_slice().get(number as usize).copied(),
            None => None,
        }
    }

    /// Adds a space and the result of an instruction, if it has one.
    pub fn push_result(&self, out: &mut String, inst: u32) -> Result<(), AllocError>
        ensures { OnOk result (string_bytes out.new ≡ string_bytes out.old ++ result_part
            (plain_insts self.now.«module».now) inst) }
    {
        match self.result_of(inst) {
            Some(id) => push_id(out, id),
            None => Ok(()),
        }
    }
}
