//! The parts that are put together in lines.
ghost use Rattle.std.specs.Prelude.{◌≡◌, ◌++◌, ℕ, List, [], flat_map, option_map};
ghost use Rattle.std.specs.Prelude.{string_bytes, OnOk};
ghost use Rattle.spv_module.specs.Module.{plain_insts, plain_operand};
ghost use Rattle.spv_lines.specs.Text.{ShownLines, inst_line};
ghost use Rattle.spv_fault_lines.specs.Lines as lines;
ghost use Rattle.spv_facts.specs.Texts.{capability_name};
ghost use Rattle.spv_fault_lines.specs.Lines.{may_come_part, name_part, number_part};
ghost use Rattle.spv_fault_lines.specs.Lines.{opcode_part, operand_part};
ghost use Rattle.spv_facts.specs.Texts.{operand_at, result_part};
ghost use Rattle.spv_facts.specs.Versions.{extensions_of};
ghost use Rattle.spv_fault_lines.specs.inner.Parts.{spaced};

use spv_facts::{About, extensions, push_capability, push_id, push_number, push_value};
use spv_module::Operand;
use spv_printer::show_inst;
use spv_table::{NameListRef, Table};
use std::alloc::AllocError;

/// Adds a space and a number.
pub fn push_spaced(out: &mut String, number: u32) -> Result<(), AllocError>
    ensures { OnOk result (string_bytes out.new ≡ string_bytes out.old ++ number_part number) }
{
    out.push_str(" ")?;
    push_number(out, number)
}

/// Adds names, each after a space.
pub fn push_names(out: &mut String, names: &NameListRef<'_>) -> Result<(), AllocError>
    ensures { OnOk result (string_bytes out.new ≡ string_bytes out.old ++ flat_map name_part names.now) }
{
    for place in 0..names.len() {
        out.push_str(" ")?;
        out.push_str(names.name(place))?;
    }
    Ok(())
}

/// Adds texts, each after a space.
fn push_texts(out: &mut String, texts: &[&str]) -> Result<(), AllocError>
    ensures { OnOk result (string_bytes out.new ≡ string_bytes out.old ++ flat_map spaced texts.now) }
{
    for text in texts {
        out.push_str(" ")?;
        out.push_str(text)?;
    }
    Ok(())
}

/// Adds the names of the extensions that a line of the table of versions has, each after a space.
pub fn push_extensions(out: &mut String, line: u32) -> Result<(), AllocError>
    ensures { OnOk result (string_bytes out.new ≡ string_bytes out.old ++ flat_map name_part (extensions_of line)) }
{
    push_texts(out, extensions(line))
}

/// Adds the names of capabilities, each after a space.
pub fn push_capabilities(
    out: &mut String,
    table: &Table,
    capabilities: &[u32],
) -> Result<(), AllocError>
    ensures { OnOk result (string_bytes out.new ≡ string_bytes out.old ++ flat_map
        (λ c. name_part (capability_name table.now c)) capabilities.now) }
{
    for capability in capabilities {
        out.push_str(" ")?;
        push_capability(out, table, *capability)?;
    }
    Ok(())
}

/// Adds a space and the name of an opcode. Nothing where the grammar has none.
pub fn push_opcode(out: &mut String, table: &Table, opcode: u16) -> Result<(), AllocError>
    ensures { OnOk result (string_bytes out.new ≡ string_bytes out.old ++ opcode_part table.now opcode) }
{
    match table.entry(opcode) {
        Some(entry) => {
            out.push_str(" ")?;
            out.push_str(entry.name())
        }
        None => Ok(()),
    }
}

/// The same of an opcode that may come.
fn push_may_come(out: &mut String, table: &Table, opcode: u32) -> Result<(), AllocError>
    ensures { OnOk result (string_bytes out.new ≡ string_bytes out.old ++ may_come_part table.now opcode) }
{
    if opcode < 65536 {
        return push_opcode(out, table, opcode as u16);
    }
    Ok(())
}

/// Adds the names of opcodes, each after a space, but for those of which the grammar has none.
pub fn push_opcodes(out: &mut String, table: &Table, opcodes: &[u32]) -> Result<(), AllocError>
    ensures { OnOk result (string_bytes out.new ≡ string_bytes out.old ++ flat_map
        (may_come_part table.now) opcodes.now) }
{
    for opcode in opcodes {
        push_may_come(out, table, *opcode)?;
    }
    Ok(())
}

/// Adds a space and an operand, if there is one that is an id, a number or a value.
fn push_operand(
    out: &mut String,
    table: &Table,
    operand: Option<Operand<'_>>,
) -> Result<(), AllocError>
    ensures { OnOk result (string_bytes out.new ≡ string_bytes out.old ++ operand_part table.now
        (option_map plain_operand operand.entry)) }
{
    match operand {
        Some(
            Operand::OfType(id)
            | Operand::Result(id)
            | Operand::Id(id)
            | Operand::Argument(id)
            | Operand::Mention(id),
        ) => push_id(out, id),
        Some(Operand::Word(number)) => push_spaced(out, number),
        Some(Operand::Value { kind, value }) => {
            out.push_str(" ")?;
            push_value(out, table, kind, value)
        }
        Some(Operand::Mask { value, .. }) => push_spaced(out, value),
        _ => Ok(()),
    }
}

/// Adds the results of instructions, each after a space.
pub fn push_results(
    out: &mut String,
    about: &About<'_, '_>,
    insts: &[u32],
) -> Result<(), AllocError>
    ensures { OnOk result (string_bytes out.new ≡ string_bytes out.old ++ flat_map
        (result_part (plain_insts about.now.«module».now)) insts.now) }
{
    for inst in insts {
        about.push_result(out, *inst)?;
    }
    Ok(())
}

/// Adds a block's id, if its OpLabel has one.
pub fn push_block(
    out: &mut String,
    about: &About<'_, '_>,
    block: Option<u32>,
) -> Result<(), AllocError>
    ensures { OnOk result (string_bytes out.new ≡ string_bytes out.old ++ lines.block_part
        (plain_insts about.now.«module».now) block) }
{
    let Some(label) = block else {
        return Ok(());
    };
    match about.result_of(label) {
        Some(id) => {
            out.push_str(", block")?;
            push_id(out, id)
        }
        None => Ok(()),
    }
}

/// Adds an instruction as it stands in the text of the whole module.
pub fn push_inst(out: &mut String, about: &About<'_, '_>, inst: u32) -> Result<(), AllocError>
    ensures { (shown : List (List ℕ)) → ShownLines about.now.table.now [] (plain_insts about.now.«module».now) shown
        → OnOk result (string_bytes out.new ≡ string_bytes out.old ++ inst_line shown inst) }
{
    let line = show_inst(about.alloc, about.table, about.module, inst)?;
    out.push_str(line.as_str())
}

/// Adds an instruction, with its number.
pub fn push_numbered(out: &mut String, about: &About<'_, '_>, inst: u32) -> Result<(), AllocError>
    ensures { (shown : List (List ℕ)) → ShownLines about.now.table.now [] (plain_insts about.now.«module».now) shown
        → OnOk result (string_bytes out.new ≡ string_bytes out.old ++ lines.inst_part shown inst) }
{
    out.push_str(" inst ")?;
    push_number(out, inst)?;
    out.push_str(", ")?;
    push_inst(out, about, inst)
}

/// Adds a space and an operand of an instruction, if it has such a one that is an id, a number or a value.
pub fn push_operand_of(
    out: &mut String,
    about: &About<'_, '_>,
    inst: u32,
    number: u32,
) -> Result<(), AllocError>
    ensures { OnOk result (string_bytes out.new ≡ string_bytes out.old ++ operand_part about.now.table.now
        (operand_at (plain_insts about.now.«module».now) inst number)) }
{
    push_operand(out, about.table, about.operand_of(inst, number))
}
