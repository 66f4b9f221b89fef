//! The texts that lines and members of JSON share.
ghost use Rattle.std.specs.Prelude.{◌≡◌, ◌++◌, Some, option_map};
ghost use Rattle.std.specs.Prelude.{string_bytes, Option, OnOk};
ghost use Rattle.spv_table.specs.Table.{entry_of};
ghost use Rattle.spv_module.specs.Module.{plain_inst, plain_insts, plain_operand};
ghost use Rattle.spv_facts.specs.Texts as texts;
ghost use Rattle.spv_facts.specs.Texts.{bit_name};
ghost use Rattle.spv_facts.specs.Texts.{operand_at};

use crate::about::{About, push_number, push_value};
use crate::fact::{Place, Thing};
use spv_evidence::{EntryPart, Lister, Side};
use spv_module::{Inst, Operand};
use spv_names::function_name;
use spv_table::{NameListRef, Table};
use std::alloc::AllocError;

/// Adds the kind that is due, if one is.
pub fn push_due(out: &mut String, table: &Table, kind: Option<u32>) -> Result<(), AllocError>
    ensures { OnOk result (string_bytes out.new ≡ string_bytes out.old ++ texts.due_text table.now kind) }
{
    let Some(number) = kind else {
        return out.push_str("nothing");
    };
    match table.kind(number) {
        Some(kind) => out.push_str(kind.name()),
        None => push_number(out, number),
    }
}

/// The capabilities that the enumerant of an operand's value lists.
fn value_lists<'t>(table: &'t Table, operand: Option<&Operand<'_>>) -> Option<NameListRef<'t>>
    ensures { result ≡ texts.value_lists table.now (option_map
        (λ o. plain_operand o.now) operand.entry) }
{
    match operand {
        Some(Operand::Value { kind, value }) => listed_by(table, *kind, *value),
        _ => None,
    }
}

/// The capabilities that a bit of an operand that is a mask lists.
fn bit_lists<'t>(
    table: &'t Table,
    operand: Option<&Operand<'_>>,
    bit: u32,
) -> Option<NameListRef<'t>>
    ensures { result ≡ texts.bit_lists table.now (option_map
        (λ o. plain_operand o.now) operand.entry) bit }
{
    match operand {
        Some(Operand::Mask { kind, .. }) => listed_by(table, *kind, bit),
        _ => None,
    }
}

/// The capabilities that the enumerant of a kind lists, the first with the value.
fn listed_by(table: &Table, kind: u32, value: u32) -> Option<NameListRef<'_>>
    ensures { result ≡ texts.listed_by table.now kind value }
{
    match table.enumerant(kind, value) {
        Some(enumerant) => Some(enumerant.capabilities()),
        None => None,
    }
}

/// The capabilities that an instruction's opcode lists.
fn entry_lists(table: &Table, opcode: u16) -> Option<NameListRef<'_>>
    ensures { result ≡ option_map (λ e. e.capabilities) (entry_of table.now opcode) }
{
    match table.entry(opcode) {
        Some(entry) => Some(entry.capabilities()),
        None => None,
    }
}

/// The names that are listed: those of an entry, a value or a bit. What a type needs has no such list.
pub fn listed_names<'t>(
    table: &'t Table,
    inst: &Inst<'_>,
    lister: Lister,
) -> Option<NameListRef<'t>>
    ensures { result ≡ texts.listed_names table.now (plain_inst inst.now) lister }
{
    let operands = inst.operands.as_slice();
    match lister {
        Lister::Entry => entry_lists(table, inst.opcode),
        Lister::Value { operand } => value_lists(table, operands.get(operand as usize)),
        Lister::Bit { operand, bit } => bit_lists(table, operands.get(operand as usize), bit),
        Lister::Width | Lister::Type | Lister::Access => None,
    }
}

impl<'m, 'a> About<'m, 'a> {
    /// Adds the result of an instruction, if there is one.
    pub fn push_function(&self, out: &mut String, inst: Option<u32>) -> Result<(), AllocError>
        ensures { OnOk result (string_bytes out.new ≡ string_bytes out.old ++ texts.function_part
            (plain_insts self.now.«module».now) inst) }
    {
        match inst {
            Some(inst) => self.push_result(out, inst),
            None => Ok(()),
        }
    }

    /// The name of the function that an OpFunction of that number begins, if it has one.
    pub fn name_at(&self, inst: Option<u32>) -> Option<&'a str>
        ensures { option_map (λ t. t.now) result ≡ texts.name_at (plain_insts self.now.«module».now) inst }
    {
        let id = self.result_of(inst?)?;
        function_name(self.module.insts.as_slice(), id)
    }

    /// Adds that what is open before an instruction has no end.
    pub fn push_unended(&self, out: &mut String, place: Place) -> Result<(), AllocError>
        ensures { OnOk result (string_bytes out.new ≡ string_bytes out.old ++ texts.unended_text
            (plain_insts self.now.«module».now) place) }
    {
        match place.block {
            Some(block) => {
                out.push_str("the end of block")?;
                self.push_result(out, block)
            }
            None => {
                out.push_str("the end of function")?;
                self.push_function(out, place.function)
            }
        }
    }

    /// Adds a bit of an operand that is a mask, by its name.
    pub fn push_bit(
        &self,
        out: &mut String,
        inst: u32,
        number: u32,
        bit: u32,
    ) -> Result<(), AllocError>
        ensures { OnOk result (string_bytes out.new ≡ string_bytes out.old ++ bit_name self.now.table.now
            (operand_at (plain_insts self.now.«module».now) inst number) bit) }
    {
        match self.operand_of(inst, number) {
            Some(Operand::Mask { kind, .. }) => push_value(out, self.table, kind, bit),
            _ => push_number(out, bit),
        }
    }

    /// The id of a type that is told, if it is one.
    pub fn thing_id(&self, thing: Thing) -> Option<u32>
        ensures { result ≡ texts.thing_id (plain_insts self.now.«module».now) thing }
    {
        match thing {
            Thing::Nothing | Thing::Count { .. } => None,
            Thing::Inst { inst } => self.result_of(inst),
            Thing::Id { id } => Some(id),
        }
    }
}

/// A broken part of E2, in words.
pub fn entry_part_words(part: EntryPart) -> &'static str
    ensures { result.now ≡ texts.entry_part_text part }
{
    match part {
        EntryPart::Model => "the execution model is not Kernel",
        EntryPart::Declared => "the function is a declaration",
        EntryPart::Returns => "the function does not return void",
        EntryPart::Called { .. } => "the function is called",
        EntryPart::Unnamed => "the function is that of no OpEntryPoint",
        EntryPart::Imported { .. } => "a definition is imported",
        EntryPart::Missing => "a declaration is not imported",
    }
}

/// The place where two things are to be the same, in words.
pub fn side_words(side: Side) -> &'static str
    ensures { result.now ≡ texts.side_text side }
{
    match side {
        Side::Function => "function type",
        Side::Return => "return type",
        Side::Number => "number of parameters or arguments",
        Side::Parameter { .. } => "parameter",
        Side::Argument { .. } => "argument",
    }
}
