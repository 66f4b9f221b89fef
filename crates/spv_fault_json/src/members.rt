//! The member of a fact.
ghost use Rattle.std.specs.Prelude.{◌≡◌, ◌++◌, ◌∷◌, ℕ, List, [], OnOk, option_map, string_bytes};
ghost use Rattle.json.specs.Token.{string};
ghost use Rattle.spv_module.specs.Module.{plain_insts};
ghost use Rattle.spv_lines.specs.Text.{ShownLines};
ghost use Rattle.spv_facts.specs.Texts.{unended_text};
ghost use Rattle.spv_facts.specs.Shapes.{row_text};
ghost use Rattle.spv_facts.specs.Versions.{since_text};
ghost use Rattle.spv_fault_json.specs.Members as members;
ghost use Rattle.spv_fault_json.specs.Members.{member_of, members_of, value_of};
ghost use Rattle.spv_facts.specs.declared.key.Key.TheVariants as keys;

use crate::arrays::{
    push_capability_name, push_cycle, push_extensions, push_needs, push_opcodes, push_read,
    push_results, push_things,
};
use crate::objects::{
    push_bit, push_failing, push_inst, push_opcode, push_operand, push_owned, push_some_words,
    push_thing, push_word,
};
use crate::output::Output;
use spv_evidence::{EntryPart, Side};
use spv_facts::{
    About, Fact, Front, Key, Place, condition_words, entry_part_words, found_in, help_for,
    push_due, push_row_of, push_since, role_name, side_words,
};
use spv_table::Table;
use spv_words::WordError;
use std::alloc::{AllocError, Global};

/// Adds a member for the block of a place, if there is one.
fn push_block(out: &mut Output, about: &About<'_, '_>, block: Option<u32>) -> Result<(), AllocError>
    ensures { OnOk result (out.new ≡ out.old ++ members.block_member (plain_insts about.now.«module».now) block) }
{
    let Some(label) = block else {
        return Ok(());
    };
    out.key(Key::Block)?;
    out.maybe_number(about.result_of(label))
}

/// The result of an instruction, if there is one.
fn result_in(about: &About<'_, '_>, inst: Option<u32>) -> Option<u32>
    ensures { result ≡ members.result_in (plain_insts about.now.«module».now) inst }
{
    match inst {
        Some(inst) => about.result_of(inst),
        None => None,
    }
}

/// Adds the function of a place, and members for its name and for its block, if there are such.
fn push_place(out: &mut Output, about: &About<'_, '_>, place: Place) -> Result<(), AllocError>
    ensures { OnOk result (out.new ≡ out.old ++ members.place_tokens (plain_insts about.now.«module».now) place) }
{
    out.maybe_number(result_in(about, place.function))?;
    push_piece(out, Key::Name, about.name_at(place.function))?;
    push_block(out, about, place.block)
}

/// Adds a member that tells that the module may end, if it may.
fn push_end(out: &mut Output, end: bool) -> Result<(), AllocError>
    ensures { OnOk result (out.new ≡ out.old ++ members.end_member end) }
{
    if end {
        out.key(Key::MayEnd)?;
        return out.truth(true);
    }
    Ok(())
}

/// Adds the opcodes that may come, and a member that tells that the module may end, if it may.
fn push_may_come(
    out: &mut Output,
    table: &Table,
    opcodes: &[u32],
    end: bool,
) -> Result<(), AllocError>
    ensures { OnOk result (out.new ≡ out.old ++ members.coming_tokens table.now opcodes.now end) }
{
    push_opcodes(out, table, opcodes)?;
    push_end(out, end)
}

/// Adds the operands that the row of an opcode asks for, if it is known.
fn push_row(out: &mut Output, alloc: Global, opcode: u16, known: bool) -> Result<(), AllocError>
    ensures { OnOk result (out.new ≡ out.old ++ string (row_text opcode known) ∷ []) }
{
    let mut text = String::new(alloc);
    push_row_of(&mut text, opcode, known)?;
    out.text(text.as_str())
}

/// Adds a version by its minor number.
fn push_version(out: &mut Output, alloc: Global, minor: u8) -> Result<(), AllocError>
    ensures { OnOk result (out.new ≡ out.old ++ string (since_text minor) ∷ []) }
{
    let mut text = String::new(alloc);
    push_since(&mut text, minor)?;
    out.text(text.as_str())
}

/// Adds that what is open has no end.
fn push_unended(out: &mut Output, about: &About<'_, '_>, place: Place) -> Result<(), AllocError>
    ensures { OnOk result (out.new ≡ out.old ++ string (unended_text (plain_insts about.now.«module».now) place) ∷ []) }
{
    let mut text = String::new(about.alloc);
    about.push_unended(&mut text, place)?;
    out.text(text.as_str())
}

/// Adds the name of the kind that is due, or that none is.
fn push_due_kind(
    out: &mut Output,
    alloc: Global,
    table: &Table,
    kind: Option<u32>,
) -> Result<(), AllocError>
    ensures { OnOk result (out.new ≡ out.old ++ members.due_tokens table.now kind) }
{
    let Some(number) = kind else {
        return out.null();
    };
    let mut text = String::new(alloc);
    push_due(&mut text, table, Some(number))?;
    out.text(text.as_str())
}

/// Adds a part of E2 that is broken.
fn push_part(out: &mut Output, about: &About<'_, '_>, part: EntryPart) -> Result<(), AllocError>
    ensures { (shown : List (List ℕ)) → ShownLines about.now.table.now [] (plain_insts about.now.«module».now) shown
        → OnOk result (out.new ≡ out.old ++ members.part_tokens shown part) }
{
    match part {
        EntryPart::Called { inst } | EntryPart::Imported { inst } => push_inst(out, about, inst),
        _ => out.text(entry_part_words(part)),
    }
}

/// Adds the place where two things are to be the same.
fn push_side(out: &mut Output, side: Side) -> Result<(), AllocError>
    ensures { OnOk result (out.new ≡ out.old ++ members.side_tokens side) }
{
    match side {
        Side::Parameter { number } | Side::Argument { number } => out.number(number),
        _ => out.text(side_words(side)),
    }
}

/// Adds the value of a fact's member, and of a place and of opcodes that may come further members.
fn push_value(out: &mut Output, about: &About<'_, '_>, fact: &Fact) -> Result<(), AllocError>
    ensures { (shown : List (List ℕ)) → ShownLines about.now.table.now [] (plain_insts about.now.«module».now) shown
        → OnOk result (out.new ≡ out.old ++ value_of about.now.table.now (plain_insts about.now.«module».now) shown
        fact.now) }
{
    match fact {
        Fact::At { inst }
        | Fact::Defined { inst }
        | Fact::Earlier { inst }
        | Fact::Given { inst }
        | Fact::UsedBy { inst } => push_inst(out, about, *inst),
        Fact::In { place } | Fact::Open { place } => push_place(out, about, *place),
        Fact::Words {
            before,
            words,
            after,
        } => push_some_words(out, *before, words.as_slice(), *after),
        Fact::Word { offset, word } => push_word(out, *offset, *word),
        Fact::Opcode { opcode } => push_opcode(out, about.table, *opcode),
        Fact::Row { opcode, known } => push_row(out, about.alloc, *opcode, *known),
        Fact::MayCome { opcodes, end } => push_may_come(out, about.table, opcodes.as_slice(), *end),
        Fact::Unended { place } => push_unended(out, about, *place),
        Fact::Operand { inst, operand }
        | Fact::OtherOperand { inst, operand }
        | Fact::NoPredecessor { inst, operand }
        | Fact::Twice { inst, operand } => push_operand(out, about, *inst, *operand),
        Fact::Failing { operand } => push_failing(out, about.alloc, about.table, *operand),
        Fact::Due { kind } => push_due_kind(out, about.alloc, about.table, *kind),
        Fact::Bound { bound: number }
        | Fact::Number { number }
        | Fact::Operands { count: number }
        | Fact::Size { count: number } => out.number(*number),
        Fact::LocalTo { function } => out.maybe_number(about.result_of(*function)),
        Fact::Role { role } => out.text(role_name(*role)),
        Fact::Capability { capability, .. } => push_capability_name(out, about, *capability),
        Fact::Bit { inst, operand, bit } => push_bit(out, about, *inst, *operand, *bit),
        Fact::NeedsOneOf { inst, lister } => push_needs(out, about, *inst, *lister),
        Fact::NoEntry => out.text("OpEntryPoint"),
        Fact::Part { part } => push_part(out, about, *part),
        Fact::Condition { condition } => out.text(condition_words(*condition)),
        Fact::Types { things } => push_things(out, about, things.as_slice()),
        Fact::Differs { side } => push_side(out, *side),
        Fact::Wanted { thing } | Fact::Found { thing } => push_thing(out, about, *thing),
        Fact::ReadTypes {
            operands,
            things,
            ..
        } => push_read(out, about, operands.as_slice(), things.as_slice()),
        Fact::WantedOf {
            thing,
            operands,
            ..
        }
        | Fact::FoundOf {
            thing,
            operands,
            ..
        } => push_owned(out, about, *thing, operands.as_slice()),
        Fact::MissingParent { block } | Fact::OnTheWay { block } => {
            out.maybe_number(about.result_of(*block))
        }
        Fact::Predecessors { blocks } | Fact::Walk { blocks } | Fact::Calls { functions: blocks } =>
            push_results(out, about, blocks.as_slice()),
        Fact::Cycle { functions } => push_cycle(out, about, functions.as_slice()),
        Fact::Least { count } | Fact::Most { count } => out.maybe_number(*count),
        Fact::Since { minor } => push_version(out, about.alloc, *minor),
        Fact::Extensions { line } => push_extensions(out, *line),
    }
}

/// Adds the member of a fact.
fn push_member(out: &mut Output, about: &About<'_, '_>, fact: &Fact) -> Result<(), AllocError>
    ensures { (shown : List (List ℕ)) → ShownLines about.now.table.now [] (plain_insts about.now.«module».now) shown
        → OnOk result (out.new ≡ out.old ++ member_of about.now.table.now (plain_insts about.now.«module».now) shown
        fact.now) }
{
    out.key(fact.key())?;
    push_value(out, about, fact)
}

/// Adds the members of facts, in order: they tell what the lines tell, but for opcodes that may come, which have all
/// their names.
///
/// An `AllocError` comes only where a growth of memory was refused.
pub fn push_members(
    out: &mut Output,
    about: &About<'_, '_>,
    facts: &[Fact],
) -> Result<(), AllocError>
    ensures { (shown : List (List ℕ)) → ShownLines about.now.table.now [] (plain_insts about.now.«module».now) shown
        → OnOk result (out.new ≡ out.old ++ members_of about.now.table.now (plain_insts about.now.«module».now) shown
        facts.now) }
{
    for fact in facts {
        push_member(out, about, fact)?;
    }
    Ok(())
}

/// Adds the member of a key, where there is something to tell.
fn push_piece(out: &mut Output, key: Key, text: Option<&str>) -> Result<(), AllocError>
    ensures { OnOk result (out.new ≡ out.old ++ members.piece_member key (option_map (λ t. t.now) text.entry)) }
{
    let Some(text) = text else {
        return Ok(());
    };
    out.key(key)?;
    out.text(text)
}

/// Adds the member of what is found, where there is something to tell.
fn push_found(out: &mut Output, found: Option<String>) -> Result<(), AllocError>
    ensures { OnOk result (out.new ≡ out.old ++ members.piece_member keys.Found
        (option_map (λ t. string_bytes t) found)) }
{
    match found {
        Some(text) => push_piece(out, Key::Found, Some(text.as_str())),
        None => Ok(()),
    }
}

/// Adds the members of what is found in bytes that break a code, by what stands in front of them.
///
/// An `AllocError` comes only where a growth of memory was refused.
pub fn push_refused_members(
    out: &mut Output,
    alloc: Global,
    code: WordError,
    front: Front,
) -> Result<(), AllocError>
    ensures { OnOk result (out.new ≡ out.old ++ members.refused_members code front) }
{
    let found = found_in(alloc, code, front)?;
    push_found(out, found)?;
    push_piece(out, Key::Help, help_for(code, front))
}
