ghost use Rattle.std.specs.Prelude.{◌≡◌, ◌≤◌, ◌<◌, ◌-◌, ℕ, None, length, IfOk, IfErr};
ghost use Rattle.spv_table.specs.Table.{kind_of};
ghost use Rattle.spv_table.specs.declared.form.Form.TheVariants.{Leaf as LeafForm};
ghost use Rattle.spv_table.specs.inner.Form.{form_at};
ghost use Rattle.spv_inst.specs.inner.Known.{IsNear};
ghost use Rattle.spv_module.specs.Operand.{Context};
ghost use Rattle.spv_inst.specs.inner.Reading.{between, TakesFront, RefusesFront};

use crate::definitions::Definitions;
use crate::enumerant::{take_mask, take_value};
use crate::number::{context_width, switch_width, take_number};
use crate::text::take_text;
use spv_module::{Operand, Rule, opcode};
use spv_table::{Form, Leaf, Table};
use spv_words::{Image, word};

/// What does not change while an instruction is decoded.
#[derive(Clone, Copy)]
pub struct Scene<'t, 'd, 'a> {
    pub table: &'t Table,
    /// The form of each kind.
    pub forms: &'d [Form],
    /// What the instructions before tell of ids.
    pub definitions: &'d Definitions,
    /// The whole module.
    pub image: &'a Image,
}

/// Where an instruction lies.
#[derive(Clone, Copy)]
pub struct Place {
    /// How many instructions come before.
    pub number: u32,
    pub opcode: u16,
    /// The number of its second word in the module, and that of the word after its last.
    pub first: u32,
    pub end: u32,
}

/// What the widths of numbers need of an instruction, as far as it was read or written.
#[derive(Clone, Copy)]
pub struct Known {
    pub opcode: u16,
    /// The id of the result's type, where there is one among the operands so far.
    pub type_id: Option<u32>,
    /// The id that the first operand is. None where there is none so far, or where it is no id.
    pub first: Option<u32>,
}

impl Known {
    /// What is known at the first operand of an instruction: its opcode, and nothing of operands.
    pub fn new(opcode: u16) -> Known
        ensures { result ≡ record { opcode = opcode; type_id = None; first = None } }
    {
        Known {
            opcode,
            type_id: None,
            first: None,
        }
    }
}

/// A kind that is due.
#[derive(Clone, Copy)]
pub struct Slot {
    /// The number of the kind in the grammar table, from 0.
    pub kind: u32,
    /// Whether it is due as a base of PairLiteralIntegerIdRef.
    pub paired: bool,
}

/// An operand that was taken, and how many words it takes.
#[derive(Clone, Copy)]
pub struct Taken<'a> {
    pub operand: Operand<'a>,
    pub words: u32,
}

/// The rule that the words left of an instruction break, and at which word, counted from the first of them.
#[derive(Clone, Copy)]
pub struct Refusal {
    pub rule: Rule,
    pub word: u32,
}

impl Refusal {
    /// The refusal by a rule, at a word counted from the first of those left.
    pub fn new(rule: Rule, word: u32) -> Refusal
        ensures rule { result.rule ≡ rule }
        ensures word { result.word ≡ word }
    {
        Refusal { rule, word }
    }
}

/// The operand with the one word that it takes.
fn one_word(operand: Operand) -> Taken
    ensures operand { result.operand ≡ operand.entry }
    ensures words { result.words ≡ 1 }
{
    Taken { operand, words: 1 }
}

/// Takes one operand of a kind at the front of the words from `at` up to `end`, both counted in words of the module
/// from 0. `leaf` is what the table's kind of the slot's number asks for.
///
/// An id or a literal of one word is the word itself; a number and a text take as many words as section 2.2.1
/// (Instructions) of the SPIR-V Specification 1.6 tells; a value or a mask is a word whose enumerants are known, and
/// the kinds of its parameters are due after it.
///
/// A `Refusal` counts its word from `at`. It is I4 at word 0 where no word is left, before all else, and at word 1
/// where one word is left of a number of two; I6 for an unknown value; I7 for a mask with a set bit that no enumerant
/// has; I8, I9 or I10 for a text (`take_text`); I11 for a number of unknown width; I12 for a kind that nothing spells.
#[inline(always)]
pub fn take_operand<'a>(
    scene: &Scene<'_, '_, 'a>,
    known: Known,
    slot: Slot,
    leaf: Leaf,
    at: u32,
    end: u32,
) -> Result<Taken<'a>, Refusal>
    requires order { at ≤ end }
    requires fits { end ≤ length scene.now.image.now }
    ensures taken { (c : Context) → IsNear scene.now.definitions.now known c
        → form_at (kind_of scene.now.table.now slot.kind) ≡ LeafForm leaf
        → IfOk result
        (λ t. TakesFront scene.now.table.now c (record { kind = slot.kind; paired = slot.paired }) t.operand t.words
        (between scene.now.image.now at end)) }
    ensures within { IfOk result (λ t. (0 < t.words) × (t.words ≤ end - at)) }
    ensures reached { IfErr result (λ e. e.word ≤ end - at) }
    ensures refused { (c : Context) → IsNear scene.now.definitions.now known c
        → form_at (kind_of scene.now.table.now slot.kind) ≡ LeafForm leaf
        → IfErr result
        (λ e. RefusesFront scene.now.table.now c (record { kind = slot.kind; paired = slot.paired }) e.rule e.word
        (between scene.now.image.now at end)) }
{
    if at == end {
        return Err(Refusal::new(Rule::I4, 0));
    }
    let first = word(scene.image, at);
    match leaf {
        Leaf::ResultType => Ok(one_word(Operand::OfType(first))),
        Leaf::Result => Ok(one_word(Operand::Result(first))),
        Leaf::Id => Ok(one_word(Operand::Id(first))),
        Leaf::Word => Ok(one_word(Operand::Word(first))),
        Leaf::Integer => {
            if slot.paired && known.opcode == opcode::SWITCH {
                return take_number(scene.image, switch_width(scene.definitions, known), at, end);
            }
            Ok(one_word(Operand::Word(first)))
        }
        Leaf::ContextNumber => take_number(
            scene.image,
            context_width(scene.definitions, known),
            at,
            end,
        ),
        Leaf::Text => take_text(scene.image, at, end),
        Leaf::Value => take_value(scene.table, slot.kind, first),
        Leaf::Mask => take_mask(scene.table, slot.kind, first),
        Leaf::Nothing => Err(Refusal::new(Rule::I12, 0)),
    }
}
