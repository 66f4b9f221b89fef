//! Arrays: of ids, of names, of words and of types.
ghost use Rattle.std.specs.Prelude.{◌≡◌, ◌++◌, ℕ, List, [], Option, OnOk, flat_map, option_map, slice_get};
ghost use Rattle.spv_module.specs.Module.{plain_inst, plain_insts};
ghost use Rattle.spv_lines.specs.Text.{ShownLines};
ghost use Rattle.spv_facts.specs.inner.Owned.{AreOwners};
ghost use Rattle.spv_fault_json.specs.Tokens.{array};
ghost use Rattle.spv_fault_json.specs.Members as members;
ghost use Rattle.spv_fault_json.specs.inner.Texts.{text_token};
ghost use Rattle.spv_facts.specs.Versions.{extensions_of};

use crate::objects::{push_owned, push_thing};
use crate::output::Output;
use spv_evidence::Lister;
use spv_facts::{About, Owners, Thing, extensions, listed_names, needs_of, push_capability};
use spv_module::Inst;
use spv_table::{NameListRef, Table};
use std::alloc::AllocError;

/// Adds the result of an instruction, if it has one.
fn push_result(out: &mut Output, about: &About<'_, '_>, inst: u32) -> Result<(), AllocError>
    ensures { OnOk result (out.new ≡ out.old ++ members.result_token (plain_insts about.now.«module».now) inst) }
{
    match about.result_of(inst) {
        Some(id) => out.number(id),
        None => Ok(()),
    }
}

/// Adds the results of instructions.
fn push_ids(out: &mut Output, about: &About<'_, '_>, insts: &[u32]) -> Result<(), AllocError>
    ensures { OnOk result (out.new ≡ out.old ++ flat_map (members.result_token
        (plain_insts about.now.«module».now)) insts.now) }
{
    for inst in insts {
        push_result(out, about, *inst)?;
    }
    Ok(())
}

/// Adds an array of the results of instructions.
pub fn push_results(
    out: &mut Output,
    about: &About<'_, '_>,
    insts: &[u32],
) -> Result<(), AllocError>
    ensures { OnOk result (out.new ≡ out.old ++ members.results_tokens (plain_insts about.now.«module».now) insts.now) }
{
    out.begin_array()?;
    push_ids(out, about, insts)?;
    out.end_array()
}

/// Adds an array of the functions of a cycle, and before them the last of them, the caller.
pub fn push_cycle(out: &mut Output, about: &About<'_, '_>, cycle: &[u32]) -> Result<(), AllocError>
    ensures { OnOk result (out.new ≡ out.old ++ members.cycle_tokens (plain_insts about.now.«module».now) cycle.now) }
{
    out.begin_array()?;
    let caller = cycle.len().saturating_sub(1);
    push_ids(out, about, &cycle[caller..])?;
    push_ids(out, about, cycle)?;
    out.end_array()
}

/// Adds an array of words.
pub fn push_words(out: &mut Output, words: &[u32]) -> Result<(), AllocError>
    ensures { OnOk result (out.new ≡ out.old ++ array (flat_map members.number_tokens words.now)) }
{
    out.begin_array()?;
    for word in words {
        out.number(*word)?;
    }
    out.end_array()
}

/// Adds an array of types.
pub fn push_things(
    out: &mut Output,
    about: &About<'_, '_>,
    things: &[Thing],
) -> Result<(), AllocError>
    ensures { (shown : List (List ℕ)) → ShownLines about.now.table.now [] (plain_insts about.now.«module».now) shown
        → OnOk result (out.new ≡ out.old ++ array (flat_map (members.thing_tokens shown) things.now)) }
{
    out.begin_array()?;
    for thing in things {
        push_thing(out, about, *thing)?;
    }
    out.end_array()
}

/// Adds a type that is read, and the numbers of the operands that are of it.
fn push_read_type(
    out: &mut Output,
    about: &About<'_, '_>,
    owners: &Owners,
    thing: Thing,
) -> Result<(), AllocError>
    ensures { (operands : List (Option ℕ)) (shown : List (List ℕ)) → AreOwners owners.now operands
        → ShownLines about.now.table.now [] (plain_insts about.now.«module».now) shown
        → OnOk result (out.new ≡ out.old ++ members.read_tokens (plain_insts about.now.«module».now) shown operands
        thing) }
{
    push_owned(out, about, thing, owners.places(about.thing_id(thing)))
}

/// Adds types that are read.
fn push_read_types(
    out: &mut Output,
    about: &About<'_, '_>,
    owners: &Owners,
    things: &[Thing],
) -> Result<(), AllocError>
    ensures { (operands : List (Option ℕ)) (shown : List (List ℕ)) → AreOwners owners.now operands
        → ShownLines about.now.table.now [] (plain_insts about.now.«module».now) shown
        → OnOk result (out.new ≡ out.old ++ flat_map (members.read_tokens (plain_insts about.now.«module».now)
        shown operands) things.now) }
{
    for thing in things {
        push_read_type(out, about, owners, *thing)?;
    }
    Ok(())
}

/// Adds an array of types that are read, where these are the types of the operands.
pub fn push_read(
    out: &mut Output,
    about: &About<'_, '_>,
    operands: &[Option<u32>],
    things: &[Thing],
) -> Result<(), AllocError>
    ensures { (shown : List (List ℕ)) → ShownLines about.now.table.now [] (plain_insts about.now.«module».now) shown
        → OnOk result (out.new ≡ out.old ++ array (flat_map (members.read_tokens (plain_insts about.now.«module».now)
        shown operands.now) things.now)) }
{
    let owners = Owners::of(about.alloc, operands)?;
    out.begin_array()?;
    push_read_types(out, about, &owners, things)?;
    out.end_array()
}

/// Adds the name of an opcode. Nothing where the grammar has none.
fn push_opcode(out: &mut Output, table: &Table, opcode: u16) -> Result<(), AllocError>
    ensures { OnOk result (out.new ≡ out.old ++ members.opcode_token table.now opcode) }
{
    match table.entry(opcode) {
        Some(entry) => out.text(entry.name()),
        None => Ok(()),
    }
}

/// The same of an opcode that may come.
fn push_coming(out: &mut Output, table: &Table, opcode: u32) -> Result<(), AllocError>
    ensures { OnOk result (out.new ≡ out.old ++ members.coming_token table.now opcode) }
{
    if opcode < 65536 {
        return push_opcode(out, table, opcode as u16);
    }
    Ok(())
}

/// Adds an array of the names of opcodes that may come.
pub fn push_opcodes(out: &mut Output, table: &Table, opcodes: &[u32]) -> Result<(), AllocError>
    ensures { OnOk result (out.new ≡ out.old ++ array (flat_map (members.coming_token table.now) opcodes.now)) }
{
    out.begin_array()?;
    for opcode in opcodes {
        push_coming(out, table, *opcode)?;
    }
    out.end_array()
}

/// Adds names.
fn push_names(out: &mut Output, names: &NameListRef<'_>) -> Result<(), AllocError>
    ensures { OnOk result (out.new ≡ out.old ++ flat_map members.name_token names.now) }
{
    for place in 0..names.len() {
        out.text(names.name(place))?;
    }
    Ok(())
}

/// Adds texts.
fn push_texts(out: &mut Output, texts: &[&str]) -> Result<(), AllocError>
    ensures { OnOk result (out.new ≡ out.old ++ flat_map text_token texts.now) }
{
    for text in texts {
        out.text(text)?;
    }
    Ok(())
}

/// Adds an array of the names of the extensions that a line of the table of versions has.
pub fn push_extensions(out: &mut Output, line: u32) -> Result<(), AllocError>
    ensures { OnOk result (out.new ≡ out.old ++ array (flat_map members.name_token (extensions_of line))) }
{
    out.begin_array()?;
    push_texts(out, extensions(line))?;
    out.end_array()
}

/// Adds the name of a capability, or its number where the grammar has none.
pub fn push_capability_name(
    out: &mut Output,
    about: &About<'_, '_>,
    capability: u32,
) -> Result<(), AllocError>
    ensures { OnOk result (out.new ≡ out.old ++ members.capability_token about.now.table.now capability) }
{
    let mut text = String::new(about.alloc);
    push_capability(&mut text, about.table, capability)?;
    out.text(text.as_str())
}

/// Adds the names of capabilities.
fn push_capabilities(
    out: &mut Output,
    about: &About<'_, '_>,
    capabilities: &[u32],
) -> Result<(), AllocError>
    ensures { OnOk result (out.new ≡ out.old
        ++ flat_map (members.capability_token about.now.table.now) capabilities.now) }
{
    for capability in capabilities {
        push_capability_name(out, about, *capability)?;
    }
    Ok(())
}

/// Adds the names of the capabilities of which one is needed by an instruction.
fn push_needed(
    out: &mut Output,
    about: &About<'_, '_>,
    inst: Option<&Inst<'_>>,
    lister: Lister,
) -> Result<(), AllocError>
    ensures { OnOk result (out.new ≡ out.old ++ members.needed_tokens about.now.table.now
        (option_map (λ i. plain_inst i.now) inst.entry) lister) }
{
    let Some(inst) = inst else {
        return Ok(());
    };
    match listed_names(about.table, inst, lister) {
        Some(names) => push_names(out, &names),
        None => push_capabilities(
            out,
            about,
            needs_of(lister, inst.opcode, inst.operands.as_slice()),
        ),
    }
}

/// Adds an array of the names of the capabilities of which one is needed by an instruction.
pub fn push_needs(
    out: &mut Output,
    about: &About<'_, '_>,
    inst: u32,
    lister: Lister,
) -> Result<(), AllocError>
    ensures { OnOk result (out.new ≡ out.old ++ array (members.needed_tokens about.now.table.now
        (slice_get (plain_insts about.now.«module».now) inst) lister)) }
{
    out.begin_array()?;
    push_needed(out, about, about.inst(inst), lister)?;
    out.end_array()
}
