//! The lines of facts.
ghost use Rattle.std.specs.Prelude.{◌≡◌, ◌++◌, ℕ, List, [], Some, codes, flat_map, slice_get};
ghost use Rattle.std.specs.Prelude.{string_bytes, take, Option, OnOk};
ghost use Rattle.spv_module.specs.Module.{plain_insts};
ghost use Rattle.spv_lines.specs.Text.{ShownLines};
ghost use Rattle.spv_lines.specs.Operand.{quoted};
ghost use Rattle.spv_facts.specs.Texts as texts;
ghost use Rattle.spv_fault_lines.specs.Lines as lines;
ghost use Rattle.spv_facts.specs.Keys.{line_name};
ghost use Rattle.spv_fault_lines.specs.Lines.{line_of, name_part, needed_part, number_part};
ghost use Rattle.spv_fault_lines.specs.Lines.{plain_line, raw_of, read_line, rest_of, text_of, thing_text};
ghost use Rattle.spv_fault_lines.specs.Lines.{type_line};
ghost use Rattle.spv_facts.specs.inner.Owned.{listed_of, AreOwners};
ghost use Rattle.spv_fault_lines.specs.inner.Parts.{named_text};

use crate::classes::push_coming_classes;
use crate::parts::{
    push_block, push_capabilities, push_extensions, push_inst, push_names, push_numbered,
    push_opcode, push_opcodes, push_operand_of, push_results, push_spaced,
};
use itoa::Buffer;
use spv_evidence::{EntryPart, Lister, Side};
use spv_facts::{
    About, Detail, Fact, Key, Owners, Place, Thing, condition_words, entry_part_words,
    listed_names, needs_of, push_capability, push_due, push_number, push_row_of, push_since,
    role_name, side_words,
};
use spv_lines::{push_hex, push_plain};
use spv_printer::push_quoted;
use spv_table::Table;
use std::alloc::AllocError;

/// Adds a space and a text.
fn push_name(out: &mut String, text: &str) -> Result<(), AllocError>
    ensures { OnOk result (string_bytes out.new ≡ string_bytes out.old ++ name_part text.now) }
{
    out.push_str(" ")?;
    out.push_str(text)
}

/// The first eight operands, or all of fewer.
fn first_eight(operands: &[u32]) -> &[u32]
    ensures { result.now ≡ take 8 operands.now }
{
    if operands.len() > 8 {
        return &operands[..8];
    }
    operands
}

/// Adds how many operands there are beyond eight, if there are more.
fn push_more(out: &mut String, count: usize) -> Result<(), AllocError>
    ensures { OnOk result (string_bytes out.new ≡ string_bytes out.old ++ lines.more_part count) }
{
    if count <= 8 {
        return Ok(());
    }
    let mut buffer = Buffer::new();
    out.push_str(", and ")?;
    out.push_str(buffer.format(count - 8))?;
    out.push_str(" more")
}

/// Adds a space and a text in quotes.
fn push_quoted_name(out: &mut String, text: &str) -> Result<(), AllocError>
    ensures { OnOk result (string_bytes out.new ≡ string_bytes out.old ++ name_part (quoted text.now)) }
{
    out.push_str(" ")?;
    push_quoted(out, text)
}

/// Adds the number of an opcode, and its name if the grammar has one.
fn push_named_opcode(out: &mut String, table: &Table, opcode: u16) -> Result<(), AllocError>
    ensures { OnOk result (string_bytes out.new ≡ string_bytes out.old ++ lines.named_opcode_part table.now opcode) }
{
    push_spaced(out, u32::from(opcode))?;
    push_opcode(out, table, opcode)
}

/// Whether the names of opcodes that may come are told.
fn tells_names(detail: Detail, opcodes: &[u32]) -> bool
    ensures { result ≡ lines.tells_names detail opcodes.now }
{
    match detail {
        Detail::Short => opcodes.len() <= 8,
        Detail::Full => true,
    }
}

/// Adds the names of opcodes that may come, and whether the module may end.
fn push_coming_names(
    out: &mut String,
    table: &Table,
    opcodes: &[u32],
    end: bool,
) -> Result<(), AllocError>
    ensures { OnOk result (string_bytes out.new ≡ string_bytes out.old ++ lines.names_text
        table.now opcodes.now end) }
{
    push_opcodes(out, table, opcodes)?;
    if end {
        return out.push_str(" end of module");
    }
    Ok(())
}

/// Adds `..` for words that are left out.
fn push_dots(out: &mut String, left_out: bool) -> Result<(), AllocError>
    ensures { OnOk result (string_bytes out.new ≡ string_bytes out.old ++ lines.dots left_out) }
{
    if left_out {
        return out.push_str(" ..");
    }
    Ok(())
}

/// Adds words of an instruction in hexadecimal, each after a space.
fn push_words(out: &mut String, before: bool, words: &[u32], after: bool) -> Result<(), AllocError>
    ensures { OnOk result (string_bytes out.new ≡ string_bytes out.old ++ lines.words_rest before words.now after) }
{
    push_dots(out, before)?;
    for word in words {
        out.push_str(" ")?;
        push_hex(out, *word)?;
    }
    push_dots(out, after)
}

/// Adds the word that fails, and its value if the module has it.
fn push_failing(out: &mut String, offset: u32, word: Option<u32>) -> Result<(), AllocError>
    ensures { OnOk result (string_bytes out.new ≡ string_bytes out.old ++ (number_part offset
        ++ lines.word_value word)) }
{
    push_spaced(out, offset)?;
    let Some(word) = word else {
        return Ok(());
    };
    out.push_str(", 0x")?;
    push_hex(out, word)
}

/// Adds a space and the name of a function in quotes, if it has one.
fn push_function_name(
    out: &mut String,
    about: &About<'_, '_>,
    inst: Option<u32>,
) -> Result<(), AllocError>
    ensures { OnOk result (string_bytes out.new ≡ string_bytes out.old ++ lines.named_part (texts.name_at
        (plain_insts about.now.«module».now) inst)) }
{
    match about.name_at(inst) {
        Some(name) => push_quoted_name(out, name),
        None => Ok(()),
    }
}

/// Adds a function, its name and a block.
fn push_place(out: &mut String, about: &About<'_, '_>, place: Place) -> Result<(), AllocError>
    ensures { OnOk result (string_bytes out.new ≡ string_bytes out.old ++ lines.place_part
        (plain_insts about.now.«module».now) place) }
{
    out.push_str(" function")?;
    about.push_function(out, place.function)?;
    push_function_name(out, about, place.function)?;
    push_block(out, about, place.block)
}

/// Adds the opcodes that may come, by their names in the grammar or by their classes, and whether the module may
/// end.
fn push_may_come(
    out: &mut String,
    about: &About<'_, '_>,
    opcodes: &[u32],
    end: bool,
) -> Result<(), AllocError>
    ensures { OnOk result (string_bytes out.new ≡ string_bytes out.old ++ lines.coming_part about.now.detail
        about.now.table.now opcodes.now end) }
{
    if tells_names(about.detail, opcodes) {
        return push_coming_names(out, about.table, opcodes, end);
    }
    push_coming_classes(out, about.alloc, opcodes, end)
}

/// Adds the number of an operand of an instruction, and what stands there.
fn push_operand_text(
    out: &mut String,
    about: &About<'_, '_>,
    inst: u32,
    number: u32,
) -> Result<(), AllocError>
    ensures { OnOk result (string_bytes out.new ≡ string_bytes out.old ++ lines.numbered_part about.now.table.now
        (plain_insts about.now.«module».now) inst number) }
{
    push_spaced(out, number)?;
    push_operand_of(out, about, inst, number)
}

/// Adds the names of the capabilities of which one is needed by an instruction, each after a space.
fn push_needed_of(
    out: &mut String,
    about: &About<'_, '_>,
    inst: u32,
    lister: Lister,
) -> Result<(), AllocError>
    ensures { OnOk result (string_bytes out.new ≡ string_bytes out.old ++ needed_part about.now.table.now
        (slice_get (plain_insts about.now.«module».now) inst) lister) }
{
    let Some(inst) = about.inst(inst) else {
        return Ok(());
    };
    match listed_names(about.table, inst, lister) {
        Some(names) => push_names(out, &names),
        None => push_capabilities(
            out,
            about.table,
            needs_of(lister, inst.opcode, inst.operands.as_slice()),
        ),
    }
}

/// Adds a broken part of E2: the instruction by which it is, or words.
fn push_part(out: &mut String, about: &About<'_, '_>, part: EntryPart) -> Result<(), AllocError>
    ensures { (shown : List (List ℕ)) → ShownLines about.now.table.now [] (plain_insts about.now.«module».now) shown
        → OnOk result (string_bytes out.new ≡ string_bytes out.old ++ lines.entry_rest shown part) }
{
    match part {
        EntryPart::Called { inst } | EntryPart::Imported { inst } => push_numbered(
            out, about, inst,
        ),
        _ => push_name(out, entry_part_words(part)),
    }
}

/// Adds a type, or one of two things that are to be the same.
fn push_thing_text(out: &mut String, about: &About<'_, '_>, thing: Thing) -> Result<(), AllocError>
    ensures { (shown : List (List ℕ)) → ShownLines about.now.table.now [] (plain_insts about.now.«module».now) shown
        → OnOk result (string_bytes out.new ≡ string_bytes out.old ++ thing_text shown thing) }
{
    match thing {
        Thing::Nothing => out.push_str("nothing"),
        Thing::Count { count } => push_number(out, count),
        Thing::Inst { inst } => push_inst(out, about, inst),
        Thing::Id { id } => {
            out.push_str("%")?;
            push_number(out, id)
        }
    }
}

/// Adds a space and that.
fn push_thing(out: &mut String, about: &About<'_, '_>, thing: Thing) -> Result<(), AllocError>
    ensures { (shown : List (List ℕ)) → ShownLines about.now.table.now [] (plain_insts about.now.«module».now) shown
        → OnOk result (string_bytes out.new ≡ string_bytes out.old ++ name_part (thing_text shown thing)) }
{
    out.push_str(" ")?;
    push_thing_text(out, about, thing)
}

/// Adds an operand that is of a type.
fn push_owner(
    out: &mut String,
    about: &About<'_, '_>,
    inst: u32,
    operand: u32,
) -> Result<(), AllocError>
    ensures { OnOk result (string_bytes out.new ≡ string_bytes out.old ++ lines.owner_part about.now.table.now
        (plain_insts about.now.«module».now) inst operand) }
{
    out.push_str(", of operand")?;
    push_operand_text(out, about, inst, operand)
}

/// Adds each of these operands of an instruction, which are of a type.
fn push_each_owner(
    out: &mut String,
    about: &About<'_, '_>,
    inst: u32,
    operands: &[u32],
) -> Result<(), AllocError>
    ensures { OnOk result (string_bytes out.new ≡ string_bytes out.old ++ flat_map (lines.owner_part
        about.now.table.now (plain_insts about.now.«module».now) inst) operands.now) }
{
    for operand in operands {
        push_owner(out, about, inst, *operand)?;
    }
    Ok(())
}

/// Adds the operands of an instruction that are of a type: the first eight, and how many more there are.
fn push_owners(
    out: &mut String,
    about: &About<'_, '_>,
    inst: u32,
    operands: &[u32],
) -> Result<(), AllocError>
    ensures { OnOk result (string_bytes out.new ≡ string_bytes out.old ++ lines.owners_part about.now.table.now
        (plain_insts about.now.«module».now) inst operands.now) }
{
    push_each_owner(out, about, inst, first_eight(operands))?;
    push_more(out, operands.len())
}

/// Adds a space and a type, and the operands of an instruction that are of it.
fn push_owned(
    out: &mut String,
    about: &About<'_, '_>,
    inst: u32,
    thing: Thing,
    operands: &[u32],
) -> Result<(), AllocError>
    ensures { (shown : List (List ℕ)) → ShownLines about.now.table.now [] (plain_insts about.now.«module».now) shown
        → OnOk result (string_bytes out.new ≡ string_bytes out.old ++ name_part (lines.owned_text
        about.now.table.now (plain_insts about.now.«module».now) shown inst thing operands.now)) }
{
    push_thing(out, about, thing)?;
    push_owners(out, about, inst, operands)
}

/// Adds the operands of an instruction that are of a type, or that none is.
fn push_owners_or_none(
    out: &mut String,
    about: &About<'_, '_>,
    inst: u32,
    operands: &[u32],
) -> Result<(), AllocError>
    ensures { OnOk result (string_bytes out.new ≡ string_bytes out.old ++ lines.whose_part about.now.table.now
        (plain_insts about.now.«module».now) inst operands.now) }
{
    match operands {
        [_, ..] => push_owners(out, about, inst, operands),
        _ => out.push_str(", part of a type above"),
    }
}

/// Adds the operands of an instruction that are of a type, or that none is.
fn push_whose(
    out: &mut String,
    about: &About<'_, '_>,
    inst: u32,
    owners: &Owners,
    thing: Thing,
) -> Result<(), AllocError>
    ensures { OnOk result (string_bytes out.new ≡ string_bytes out.old ++ lines.whose_part about.now.table.now
        (plain_insts about.now.«module».now) inst (listed_of owners.now (texts.thing_id
        (plain_insts about.now.«module».now) thing))) }
{
    push_owners_or_none(out, about, inst, owners.places(about.thing_id(thing)))
}

/// Adds the functions of a cycle, and before them the last of them, the caller.
fn push_cycle(out: &mut String, about: &About<'_, '_>, cycle: &[u32]) -> Result<(), AllocError>
    ensures { OnOk result (string_bytes out.new ≡ string_bytes out.old ++ lines.cycle_part
        (plain_insts about.now.«module».now) cycle.now) }
{
    let caller = cycle.len().saturating_sub(1);
    push_results(out, about, &cycle[caller..])?;
    push_results(out, about, cycle)
}

/// Adds what a fact tells behind its key and a space, with control characters as they are. Nothing of others.
fn push_named(out: &mut String, about: &About<'_, '_>, fact: &Fact) -> Result<(), AllocError>
    ensures { (shown : List (List ℕ)) → ShownLines about.now.table.now [] (plain_insts about.now.«module».now) shown
        → OnOk result (string_bytes out.new ≡ string_bytes out.old ++ named_text about.now.table.now
        (plain_insts about.now.«module».now) shown fact.now) }
{
    match fact {
        Fact::At { inst } => push_inst(out, about, *inst),
        Fact::Row { opcode, known } => push_row_of(out, *opcode, *known),
        Fact::Unended { place } => about.push_unended(out, *place),
        Fact::Failing { operand: number }
        | Fact::Bound { bound: number }
        | Fact::Number { number }
        | Fact::Operands { count: number }
        | Fact::Size { count: number } => push_number(out, *number),
        Fact::Due { kind } => push_due(out, about.table, *kind),
        Fact::Role { role } => out.push_str(role_name(*role)),
        Fact::Capability { capability, .. } => push_capability(out, about.table, *capability),
        Fact::Bit { inst, operand, bit } => about.push_bit(out, *inst, *operand, *bit),
        Fact::NoEntry => out.push_str("OpEntryPoint"),
        Fact::Condition { condition } => out.push_str(condition_words(*condition)),
        Fact::Wanted { thing } | Fact::Found { thing } => push_thing_text(out, about, *thing),
        Fact::Since { minor } => push_since(out, *minor),
        _ => Ok(()),
    }
}

/// Adds what a fact tells behind its key, with control characters as they are. Nothing of types.
fn push_rest(out: &mut String, about: &About<'_, '_>, fact: &Fact) -> Result<(), AllocError>
    ensures { (shown : List (List ℕ)) → ShownLines about.now.table.now [] (plain_insts about.now.«module».now) shown
        → OnOk result (string_bytes out.new ≡ string_bytes out.old ++ rest_of about.now.detail about.now.table.now
        (plain_insts about.now.«module».now) shown fact.now) }
{
    match fact {
        Fact::In { place } | Fact::Open { place } => push_place(out, about, *place),
        Fact::Words {
            before,
            words,
            after,
        } => push_words(out, *before, words.as_slice(), *after),
        Fact::Word { offset, word } => push_failing(out, *offset, *word),
        Fact::Opcode { opcode } => push_named_opcode(out, about.table, *opcode),
        Fact::MayCome { opcodes, end } => push_may_come(out, about, opcodes.as_slice(), *end),
        Fact::Operand { inst, operand } | Fact::OtherOperand { inst, operand } => {
            push_operand_text(out, about, *inst, *operand)
        }
        Fact::Defined { inst }
        | Fact::Earlier { inst }
        | Fact::Given { inst }
        | Fact::UsedBy { inst } => push_numbered(out, about, *inst),
        Fact::LocalTo { function: inst }
        | Fact::MissingParent { block: inst }
        | Fact::OnTheWay { block: inst } => about.push_result(out, *inst),
        Fact::NeedsOneOf { inst, lister } => push_needed_of(out, about, *inst, *lister),
        Fact::Part { part } => push_part(out, about, *part),
        Fact::Types { .. } | Fact::ReadTypes { .. } => Ok(()),
        Fact::WantedOf {
            inst,
            thing,
            operands,
        }
        | Fact::FoundOf {
            inst,
            thing,
            operands,
        } => push_owned(out, about, *inst, *thing, operands.as_slice()),
        Fact::Differs { side } => push_side(out, *side),
        Fact::NoPredecessor { inst, operand } | Fact::Twice { inst, operand } => {
            push_operand_of(out, about, *inst, *operand)
        }
        Fact::Predecessors { blocks } | Fact::Walk { blocks } | Fact::Calls { functions: blocks } =>
            push_results(out, about, blocks.as_slice()),
        Fact::Cycle { functions } => push_cycle(out, about, functions.as_slice()),
        Fact::Least { count } | Fact::Most { count } => push_count(out, *count),
        Fact::Extensions { line } => push_extensions(out, *line),
        _ => {
            out.push_str(" ")?;
            push_named(out, about, fact)
        }
    }
}

/// Adds the line of a fact that is not of types.
fn push_one_line(out: &mut String, about: &About<'_, '_>, fact: &Fact) -> Result<(), AllocError>
    ensures { (shown : List (List ℕ)) → ShownLines about.now.table.now [] (plain_insts about.now.«module».now) shown
        → OnOk result (string_bytes out.new ≡ string_bytes out.old ++ plain_line (raw_of about.now.detail
        about.now.table.now (plain_insts about.now.«module».now) shown fact.now)) }
{
    let mut raw = String::new(about.alloc);
    push_key(&mut raw, fact.key())?;
    push_rest(&mut raw, about, fact)?;
    push_raw(out, raw.as_str())
}

/// Adds the line of a type.
fn push_type_line(out: &mut String, about: &About<'_, '_>, thing: Thing) -> Result<(), AllocError>
    ensures { (shown : List (List ℕ)) → ShownLines about.now.table.now [] (plain_insts about.now.«module».now) shown
        → OnOk result (string_bytes out.new ≡ string_bytes out.old ++ type_line shown thing) }
{
    let mut raw = String::new(about.alloc);
    push_key(&mut raw, Key::Type)?;
    push_thing(&mut raw, about, thing)?;
    push_raw(out, raw.as_str())
}

/// Adds the lines of types, one each.
fn push_type_lines(
    out: &mut String,
    about: &About<'_, '_>,
    things: &[Thing],
) -> Result<(), AllocError>
    ensures { (shown : List (List ℕ)) → ShownLines about.now.table.now [] (plain_insts about.now.«module».now) shown
        → OnOk result (string_bytes out.new ≡ string_bytes out.old ++ flat_map (type_line shown) things.now) }
{
    for thing in things {
        push_type_line(out, about, *thing)?;
    }
    Ok(())
}

/// Adds the line of a type that is read at an instruction.
fn push_read_line(
    out: &mut String,
    about: &About<'_, '_>,
    inst: u32,
    owners: &Owners,
    thing: Thing,
) -> Result<(), AllocError>
    ensures { (operands : List (Option ℕ)) (shown : List (List ℕ)) → AreOwners owners.now operands
        → ShownLines about.now.table.now [] (plain_insts about.now.«module».now) shown
        → OnOk result (string_bytes out.new ≡ string_bytes out.old ++ read_line about.now.table.now
        (plain_insts about.now.«module».now) shown inst operands thing) }
{
    let mut raw = String::new(about.alloc);
    push_key(&mut raw, Key::Type)?;
    push_thing(&mut raw, about, thing)?;
    push_whose(&mut raw, about, inst, owners, thing)?;
    push_raw(out, raw.as_str())
}

/// Adds the lines of types that are read at an instruction, one each.
fn push_each_read_line(
    out: &mut String,
    about: &About<'_, '_>,
    inst: u32,
    owners: &Owners,
    things: &[Thing],
) -> Result<(), AllocError>
    ensures { (operands : List (Option ℕ)) (shown : List (List ℕ)) → AreOwners owners.now operands
        → ShownLines about.now.table.now [] (plain_insts about.now.«module».now) shown
        → OnOk result (string_bytes out.new ≡ string_bytes out.old ++ flat_map (read_line about.now.table.now
        (plain_insts about.now.«module».now) shown inst operands) things.now) }
{
    for thing in things {
        push_read_line(out, about, inst, owners, *thing)?;
    }
    Ok(())
}

/// Adds the lines of types that are read at an instruction, whose operands are of these types, one each.
fn push_read_lines(
    out: &mut String,
    about: &About<'_, '_>,
    inst: u32,
    operands: &[Option<u32>],
    things: &[Thing],
) -> Result<(), AllocError>
    ensures { (shown : List (List ℕ)) → ShownLines about.now.table.now [] (plain_insts about.now.«module».now) shown
        → OnOk result (string_bytes out.new ≡ string_bytes out.old ++ flat_map (read_line about.now.table.now
        (plain_insts about.now.«module».now) shown inst operands.now) things.now) }
{
    let owners = Owners::of(about.alloc, operands)?;
    push_each_read_line(out, about, inst, &owners, things)
}

/// Adds the line of a fact, or the lines of its types.
pub fn push_line(out: &mut String, about: &About<'_, '_>, fact: &Fact) -> Result<(), AllocError>
    ensures { (shown : List (List ℕ)) → ShownLines about.now.table.now [] (plain_insts about.now.«module».now) shown
        → OnOk result (string_bytes out.new ≡ string_bytes out.old ++ line_of about.now.detail about.now.table.now
        (plain_insts about.now.«module».now) shown fact.now) }
{
    match fact {
        Fact::Types { things } => push_type_lines(out, about, things.as_slice()),
        Fact::ReadTypes {
            inst,
            operands,
            things,
        } => push_read_lines(out, about, *inst, operands.as_slice(), things.as_slice()),
        _ => push_one_line(out, about, fact),
    }
}

/// Adds the lines of facts, in order.
///
/// An `AllocError` comes only where a growth of memory was refused.
pub fn push_lines(out: &mut String, about: &About<'_, '_>, facts: &[Fact]) -> Result<(), AllocError>
    ensures { (shown : List (List ℕ)) → ShownLines about.now.table.now [] (plain_insts about.now.«module».now) shown
        → OnOk result (string_bytes out.new ≡ string_bytes out.old ++ text_of about.now.detail about.now.table.now
        (plain_insts about.now.«module».now) shown facts.now) }
{
    for fact in facts {
        push_line(out, about, fact)?;
    }
    Ok(())
}

/// Adds the line of a raw text.
fn push_raw(out: &mut String, raw: &str) -> Result<(), AllocError>
    ensures { OnOk result (string_bytes out.new ≡ string_bytes out.old ++ plain_line raw.now) }
{
    push_plain(out, raw)?;
    out.push_str("\n")
}

/// Adds a key and a colon.
fn push_key(out: &mut String, key: Key) -> Result<(), AllocError>
    ensures { OnOk result (string_bytes out.new ≡ string_bytes out.old ++ (line_name key ++ codes ":")) }
{
    out.push_str(key.line_name())?;
    out.push_str(":")
}

/// Adds the place where two things are to be the same: the number of a parameter or an argument, or words.
fn push_side(out: &mut String, side: Side) -> Result<(), AllocError>
    ensures { OnOk result (string_bytes out.new ≡ string_bytes out.old ++ lines.side_rest side) }
{
    match side {
        Side::Parameter { number } | Side::Argument { number } => push_spaced(out, number),
        _ => push_name(out, side_words(side)),
    }
}

/// Adds a space and a count, or that there is none.
fn push_count(out: &mut String, count: Option<u32>) -> Result<(), AllocError>
    ensures { OnOk result (string_bytes out.new ≡ string_bytes out.old ++ lines.count_part count) }
{
    match count {
        Some(count) => push_spaced(out, count),
        None => out.push_str(" none"),
    }
}
