//! Objects: an instruction, an operand, an opcode, a bit and a word.
ghost use Rattle.std.specs.Prelude.{◌≡◌, ◌++◌, ◌∷◌, ℕ, List, [], None, OnOk, codes, option_map};
ghost use Rattle.json.specs.Token.{begin_object, end_object};
ghost use Rattle.spv_module.specs.Module.{plain_insts, plain_operand};
ghost use Rattle.spv_lines.specs.Text.{ShownLines};
ghost use Rattle.spv_facts.specs.Texts.{bit_name, operand_at, value_text};
ghost use Rattle.spv_fault_json.specs.Tokens.{number_member, text_member};
ghost use Rattle.spv_facts.specs.declared.fact.Thing.TheVariants as things;
ghost use Rattle.spv_fault_json.specs.Members as members;

use crate::arrays::push_words;
use crate::output::Output;
use spv_facts::{About, Thing, push_value};
use spv_module::Operand;
use spv_printer::show_inst;
use spv_table::Table;
use std::alloc::{AllocError, Global};

/// Adds an object of a number and a text.
fn push_pair(
    out: &mut Output,
    number_name: &str,
    number: u32,
    text_name: &str,
    text: &str,
) -> Result<(), AllocError>
    ensures { OnOk result (out.new ≡ out.old ++ (begin_object ∷ number_member number_name.now number
        ++ text_member text_name.now text.now ++ end_object ∷ [])) }
{
    out.begin_object()?;
    out.number_member(number_name, number)?;
    out.text_member(text_name, text)?;
    out.end_object()
}

/// Adds an instruction: its number, and its line.
pub fn push_inst(out: &mut Output, about: &About<'_, '_>, inst: u32) -> Result<(), AllocError>
    ensures { (shown : List (List ℕ)) → ShownLines about.now.table.now [] (plain_insts about.now.«module».now) shown
        → OnOk result (out.new ≡ out.old ++ members.inst_tokens shown inst) }
{
    let line = show_inst(about.alloc, about.table, about.module, inst)?;
    push_pair(out, "inst", inst, "text", line.as_str())
}

/// Adds an id in an object of its own.
fn push_id(out: &mut Output, id: u32) -> Result<(), AllocError>
    ensures { OnOk result (out.new ≡ out.old ++ members.id_tokens id) }
{
    out.begin_object()?;
    out.number_member("id", id)?;
    out.end_object()
}

/// Adds a type, or one of two things that are to be the same.
pub fn push_thing(out: &mut Output, about: &About<'_, '_>, thing: Thing) -> Result<(), AllocError>
    ensures { (shown : List (List ℕ)) → ShownLines about.now.table.now [] (plain_insts about.now.«module».now) shown
        → OnOk result (out.new ≡ out.old ++ members.thing_tokens shown thing) }
{
    match thing {
        Thing::Nothing => out.null(),
        Thing::Count { count } => out.number(count),
        Thing::Inst { inst } => push_inst(out, about, inst),
        Thing::Id { id } => push_id(out, id),
    }
}

/// Adds a member for the numbers of operands.
fn push_operands(out: &mut Output, operands: &[u32]) -> Result<(), AllocError>
    ensures { OnOk result (out.new ≡ out.old ++ members.owners_member operands.now) }
{
    out.name("operands")?;
    push_words(out, operands)
}

/// Adds an instruction with its number and its line, and the numbers of operands.
fn push_owned_inst(
    out: &mut Output,
    about: &About<'_, '_>,
    inst: u32,
    operands: &[u32],
) -> Result<(), AllocError>
    ensures { (shown : List (List ℕ)) → ShownLines about.now.table.now [] (plain_insts about.now.«module».now) shown
        → OnOk result (out.new ≡ out.old ++ members.owned_tokens shown (things.Inst inst) operands.now) }
{
    let line = show_inst(about.alloc, about.table, about.module, inst)?;
    out.begin_object()?;
    out.number_member("inst", inst)?;
    out.text_member("text", line.as_str())?;
    push_operands(out, operands)?;
    out.end_object()
}

/// Adds an id in an object, and the numbers of operands.
fn push_owned_id(out: &mut Output, id: u32, operands: &[u32]) -> Result<(), AllocError>
    ensures { (shown : List (List ℕ)) → OnOk result (out.new ≡ out.old
        ++ members.owned_tokens shown (things.Id id) operands.now) }
{
    out.begin_object()?;
    out.number_member("id", id)?;
    push_operands(out, operands)?;
    out.end_object()
}

/// Adds a type, and the numbers of the operands that are of it.
pub fn push_owned(
    out: &mut Output,
    about: &About<'_, '_>,
    thing: Thing,
    operands: &[u32],
) -> Result<(), AllocError>
    ensures { (shown : List (List ℕ)) → ShownLines about.now.table.now [] (plain_insts about.now.«module».now) shown
        → OnOk result (out.new ≡ out.old ++ members.owned_tokens shown thing operands.now) }
{
    match thing {
        Thing::Nothing => out.null(),
        Thing::Count { count } => out.number(count),
        Thing::Inst { inst } => push_owned_inst(out, about, inst, operands),
        Thing::Id { id } => push_owned_id(out, id, operands),
    }
}

/// Adds a member for the name of a value of a kind.
fn push_value_name(
    out: &mut Output,
    alloc: Global,
    table: &Table,
    kind: u32,
    value: u32,
) -> Result<(), AllocError>
    ensures { OnOk result (out.new ≡ out.old ++ text_member (codes "name") (value_text table.now kind value)) }
{
    let mut text = String::new(alloc);
    push_value(&mut text, table, kind, value)?;
    out.text_member("name", text.as_str())
}

/// Adds the members that tell what an operand is.
fn push_operand_members(
    out: &mut Output,
    alloc: Global,
    table: &Table,
    operand: Option<Operand<'_>>,
) -> Result<(), AllocError>
    ensures { OnOk result (out.new ≡ out.old ++ members.operand_members table.now
        (option_map plain_operand operand.entry)) }
{
    match operand {
        Some(
            Operand::OfType(id)
            | Operand::Result(id)
            | Operand::Id(id)
            | Operand::Argument(id)
            | Operand::Mention(id),
        ) => out.number_member("id", id),
        Some(Operand::Word(number)) => out.number_member("number", number),
        Some(Operand::Value { kind, value }) => {
            out.number_member("number", value)?;
            push_value_name(out, alloc, table, kind, value)
        }
        Some(Operand::Mask { value, .. }) => out.number_member("number", value),
        _ => Ok(()),
    }
}

/// Adds an operand by its number, and what it is.
fn push_numbered(
    out: &mut Output,
    alloc: Global,
    table: &Table,
    number: u32,
    operand: Option<Operand<'_>>,
) -> Result<(), AllocError>
    ensures { OnOk result (out.new ≡ out.old ++ members.operand_tokens table.now number
        (option_map plain_operand operand.entry)) }
{
    out.begin_object()?;
    out.number_member("index", number)?;
    push_operand_members(out, alloc, table, operand)?;
    out.end_object()
}

/// Adds an operand of an instruction.
pub fn push_operand(
    out: &mut Output,
    about: &About<'_, '_>,
    inst: u32,
    number: u32,
) -> Result<(), AllocError>
    ensures { OnOk result (out.new ≡ out.old ++ members.operand_tokens about.now.table.now number
        (operand_at (plain_insts about.now.«module».now) inst number)) }
{
    push_numbered(
        out,
        about.alloc,
        about.table,
        number,
        about.operand_of(inst, number),
    )
}

/// Adds an operand of words that spell no instruction.
pub fn push_failing(
    out: &mut Output,
    alloc: Global,
    table: &Table,
    number: u32,
) -> Result<(), AllocError>
    ensures { OnOk result (out.new ≡ out.old ++ members.operand_tokens table.now number None) }
{
    push_numbered(out, alloc, table, number, None)
}

/// Adds a member for the name of an opcode, if the grammar has one.
fn push_opcode_name(out: &mut Output, table: &Table, opcode: u16) -> Result<(), AllocError>
    ensures { OnOk result (out.new ≡ out.old ++ members.opcode_name table.now opcode) }
{
    match table.entry(opcode) {
        Some(entry) => out.text_member("name", entry.name()),
        None => Ok(()),
    }
}

/// Adds an opcode.
pub fn push_opcode(out: &mut Output, table: &Table, opcode: u16) -> Result<(), AllocError>
    ensures { OnOk result (out.new ≡ out.old ++ members.opcode_tokens table.now opcode) }
{
    out.begin_object()?;
    out.number_member("value", u32::from(opcode))?;
    push_opcode_name(out, table, opcode)?;
    out.end_object()
}

/// Adds a bit of an operand that is a mask.
pub fn push_bit(
    out: &mut Output,
    about: &About<'_, '_>,
    inst: u32,
    number: u32,
    bit: u32,
) -> Result<(), AllocError>
    ensures { OnOk result (out.new ≡ out.old ++ members.bit_tokens about.now.table.now
        (operand_at (plain_insts about.now.«module».now) inst number) bit) }
{
    let mut text = String::new(about.alloc);
    about.push_bit(&mut text, inst, number, bit)?;
    push_pair(out, "value", bit, "name", text.as_str())
}

/// Adds a member that is true or false.
fn push_truth(out: &mut Output, name: &str, truth: bool) -> Result<(), AllocError>
    ensures { OnOk result (out.new ≡ out.old ++ members.truth_member name.now truth) }
{
    out.name(name)?;
    out.truth(truth)
}

/// Adds a member for words.
fn push_values(out: &mut Output, words: &[u32]) -> Result<(), AllocError>
    ensures { OnOk result (out.new ≡ out.old ++ members.values_member words.now) }
{
    out.name("values")?;
    push_words(out, words)
}

/// Adds words of an instruction, and whether it has others before or after these.
pub fn push_some_words(
    out: &mut Output,
    before: bool,
    words: &[u32],
    after: bool,
) -> Result<(), AllocError>
    ensures { OnOk result (out.new ≡ out.old ++ members.words_tokens before words.now after) }
{
    out.begin_object()?;
    push_truth(out, "before", before)?;
    push_values(out, words)?;
    push_truth(out, "after", after)?;
    out.end_object()
}

/// Adds a word by its place in the instruction, and its value if the module has it.
pub fn push_word(out: &mut Output, offset: u32, word: Option<u32>) -> Result<(), AllocError>
    ensures { OnOk result (out.new ≡ out.old ++ members.word_tokens offset word) }
{
    out.begin_object()?;
    out.number_member("index", offset)?;
    out.name("value")?;
    out.maybe_number(word)?;
    out.end_object()
}
