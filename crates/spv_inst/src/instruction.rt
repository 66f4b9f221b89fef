//! One instruction.

ghost use Rattle.std.specs.Prelude.{◌≡◌, ◌≤◌, ◌<◌, ◌+◌, ◌-◌, List, []};
ghost use Rattle.std.specs.Prelude.{false, length, map, take, drop, IfOk, IfErr, IsTrue, OnOk, vec_len, vec_capacity};
ghost use Rattle.spv_table.specs.Table.{Item, IsWhole};
ghost use Rattle.spv_inst.specs.inner.Pending.{due_first, items_of, settled};
ghost use Rattle.spv_inst.specs.Flat.{due};
ghost use Rattle.spv_table.specs.inner.Form.{form_of};
ghost use Rattle.spv_module.specs.Instruction.{IsInstruction};
ghost use Rattle.spv_inst.specs.inner.Known.{Knows};
ghost use Rattle.spv_module.specs.Module.{plain_operands};
ghost use Rattle.spv_module.specs.Operand.{PlainInst, start};
ghost use Rattle.spv_inst.specs.inner.Reading.{between};
ghost use Rattle.spv_inst.specs.inner.Sofar.{Sofar, SofarAt};
ghost use Rattle.spv_module.specs.Spelling.{Match};
ghost use Rattle.spv_inst.specs.inner.Step.{IsMisfit, IsDeadFrom};

use crate::front::read_front;
use crate::items::DueItems;
use crate::known::{known_after, known_of};
use crate::pairs::read_pairs;
use crate::pending::Pending;
use crate::plain::Rest;
use crate::reader::{Place, Scene, take_operand};
use crate::repeated::read_run;
use crate::singles::{read_head, read_parameters, read_singles};
use crate::words::read_words;
use spv_module::{Fault, Operand, Rule, Stop};
use spv_table::{Head, PatternRef};
use spv_words::word;

/// An instruction that was read.
#[derive(Clone, Copy)]
pub struct Read {
    pub opcode: u16,
    /// The place of its first operand in the list of operands, from 0.
    pub first: usize,
    /// The number of the word after its last, in the module from 0.
    pub end: u32,
}

/// The fault of the instruction of a number, told by a word.
fn fault_at(number: u32, rule: Rule, word: u32) -> Stop
    ensures { result ≡ Stop.Fault (record { rule = rule; inst = number; word = word }) }
{
    Stop::Fault(Fault {
        rule,
        inst: number,
        word,
    })
}

/// Reads what is left of an instruction after some operands, by the stack of pending operands, which is begun anew:
/// `begin` is the place of the instruction's first operand in the list, and `rest` what is still due and the word from
/// which on. It has a body of its own, so that the crates that read instructions share it. After an error nothing is
/// said of what is left of the list.
#[inline(never)]
fn read_rest<'t, 'a>(
    scene: &Scene<'t, '_, 'a>,
    pending: &mut Pending<'t>,
    operands: &mut Vec<Operand<'a>>,
    place: Place,
    begin: usize,
    rest: Rest<'t>,
) -> Result<(), Stop>
    requires forms { scene.now.forms.now ≡ map form_of scene.now.table.now.kinds }
    requires whole { IsWhole scene.now.table.now }
    requires within { (place.first ≤ rest.at) × (rest.at ≤ place.end) }
    requires fits { place.end ≤ length scene.now.image.now }
    requires room { begin ≤ length operands.now.items }
    // With the operands that stand there already, what is added is what the words from the first up to the end spell.
    ensures read { (before : List PlainInst) (pattern : List Item) → Knows scene.now.definitions.now before
        → Sofar scene.now.table.now (start before place.opcode) (map due pattern)
        (between scene.now.image.now place.first place.end) (plain_operands (drop begin operands.old.items))
        (due_first rest.entry.kinds.now rest.entry.items.left.now) (between scene.now.image.now rest.entry.at place.end)
        (rest.entry.at - place.first)
        → OnOk result
        (Match scene.now.table.now (start before place.opcode) pattern (plain_operands (drop begin operands.new.items))
        (between scene.now.image.now place.first place.end)) }
    ensures kept { OnOk result (take begin operands.new.items ≡ take begin operands.old.items) }
    ensures few { OnOk result (length operands.new.items + rest.entry.at ≤ length operands.old.items + place.end) }
    // A fault tells what refuses these words.
    ensures misfit { (before : List PlainInst) (pattern : List Item) → Knows scene.now.definitions.now before
        → Sofar scene.now.table.now (start before place.opcode) (map due pattern)
        (between scene.now.image.now place.first place.end) (plain_operands (drop begin operands.old.items))
        (due_first rest.entry.kinds.now rest.entry.items.left.now) (between scene.now.image.now rest.entry.at place.end)
        (rest.entry.at - place.first)
        → IfErr result
        (λ e. IsMisfit scene.now.table.now (start before place.opcode) pattern
        (between scene.now.image.now place.first place.end) place.number place.first e) }
{
    let mut known = known_of(place.opcode, &operands[begin..]);
    let mut at = rest.at;
    pending.resume(rest.kinds, rest.items)?;
    while at < place.end {
        let Some(asked) = pending.next_leaf(scene.table, scene.forms, true)? else {
            return Err(fault_at(place.number, Rule::I5, at));
        };
        match take_operand(scene, known, asked.slot, asked.leaf, at, place.end) {
            Ok(taken) => {
                pending.open(scene.table, &taken.operand)?;
                known = known_after(known, &operands[begin..], &taken.operand);
                operands.push(taken.operand)?;
                at += taken.words;
            }
            Err(refusal) => return Err(fault_at(place.number, refusal.rule, at + refusal.word)),
        }
    }
    match pending.next_leaf(scene.table, scene.forms, false)? {
        Some(_) => Err(fault_at(place.number, Rule::I4, at)),
        None => Ok(()),
    }
}

/// Whether no word of an instruction is left, and nothing more is due.
#[inline(always)]
fn is_read(place: Place, rest: Rest<'_>) -> bool
    ensures { IsTrue result → (place.end ≤ rest.entry.at)
        × (settled false (due_first rest.entry.kinds.now rest.entry.items.left.now) ≡ []) }
{
    if rest.at < place.end || !rest.kinds.is_empty() {
        return false;
    }
    rest.items.are_optional()
}

/// Reads what is left of an instruction after some operands: `begin` is the place of the instruction's first
/// operand in the list. After an error nothing is said of what is left of the list.
#[inline(never)]
fn read_further<'t, 'a>(
    scene: &Scene<'t, '_, 'a>,
    pending: &mut Pending<'t>,
    operands: &mut Vec<Operand<'a>>,
    place: Place,
    begin: usize,
    rest: Rest<'t>,
) -> Result<(), Stop>
    requires forms { scene.now.forms.now ≡ map form_of scene.now.table.now.kinds }
    requires whole { IsWhole scene.now.table.now }
    requires within { (place.first ≤ rest.at) × (rest.at ≤ place.end) }
    requires fits { place.end ≤ length scene.now.image.now }
    requires room { begin ≤ length operands.now.items }
    requires spare { vec_len operands.now + (place.end - rest.at) ≤ vec_capacity operands.now }
    // With the operands that stand there already, what is added is what the words from the first up to the end spell.
    ensures read { (before : List PlainInst) (pattern : List Item) → Knows scene.now.definitions.now before
        → SofarAt scene.now.table.now before place.opcode pattern scene.now.image.now place.first place.end
        (drop begin operands.old.items) (due_first rest.entry.kinds.now rest.entry.items.left.now) rest.entry.at
        → OnOk result
        (Match scene.now.table.now (start before place.opcode) pattern (plain_operands (drop begin operands.new.items))
        (between scene.now.image.now place.first place.end)) }
    ensures kept { OnOk result (take begin operands.new.items ≡ take begin operands.old.items) }
    ensures few { OnOk result (length operands.new.items + rest.entry.at ≤ length operands.old.items + place.end) }
    // A fault tells what refuses these words.
    ensures misfit { (before : List PlainInst) (pattern : List Item) → Knows scene.now.definitions.now before
        → SofarAt scene.now.table.now before place.opcode pattern scene.now.image.now place.first place.end
        (drop begin operands.old.items) (due_first rest.entry.kinds.now rest.entry.items.left.now) rest.entry.at
        → IfErr result
        (λ e. IsMisfit scene.now.table.now (start before place.opcode) pattern
        (between scene.now.image.now place.first place.end) place.number place.first e) }
{
    let rest = read_words(scene, operands, place, begin, rest);
    if is_read(place, rest) {
        return Ok(());
    }
    let rest = read_run(scene, operands, place, begin, rest);
    let rest = read_pairs(scene, operands, place, begin, rest);
    if is_read(place, rest) {
        return Ok(());
    }
    read_rest(scene, pending, operands, place, begin, rest)
}

/// The same as `read_further`. What the call takes is put together here, since most instructions do not come to it.
#[inline(always)]
fn read_left<'t, 'a>(
    scene: &Scene<'t, '_, 'a>,
    pending: &mut Pending<'t>,
    operands: &mut Vec<Operand<'a>>,
    place: Place,
    begin: usize,
    rest: Rest<'t>,
) -> Result<(), Stop>
    requires forms { scene.now.forms.now ≡ map form_of scene.now.table.now.kinds }
    requires whole { IsWhole scene.now.table.now }
    requires within { (place.first ≤ rest.at) × (rest.at ≤ place.end) }
    requires fits { place.end ≤ length scene.now.image.now }
    requires room { begin ≤ length operands.now.items }
    requires spare { vec_len operands.now + (place.end - rest.at) ≤ vec_capacity operands.now }
    // With the operands that stand there already, what is added is what the words from the first up to the end spell.
    ensures read { (before : List PlainInst) (pattern : List Item) → Knows scene.now.definitions.now before
        → SofarAt scene.now.table.now before place.opcode pattern scene.now.image.now place.first place.end
        (drop begin operands.old.items) (due_first rest.entry.kinds.now rest.entry.items.left.now) rest.entry.at
        → OnOk result
        (Match scene.now.table.now (start before place.opcode) pattern (plain_operands (drop begin operands.new.items))
        (between scene.now.image.now place.first place.end)) }
    ensures kept { OnOk result (take begin operands.new.items ≡ take begin operands.old.items) }
    ensures few { OnOk result (length operands.new.items + rest.entry.at ≤ length operands.old.items + place.end) }
    // A fault tells what refuses these words.
    ensures misfit { (before : List PlainInst) (pattern : List Item) → Knows scene.now.definitions.now before
        → SofarAt scene.now.table.now before place.opcode pattern scene.now.image.now place.first place.end
        (drop begin operands.old.items) (due_first rest.entry.kinds.now rest.entry.items.left.now) rest.entry.at
        → IfErr result
        (λ e. IsMisfit scene.now.table.now (start before place.opcode) pattern
        (between scene.now.image.now place.first place.end) place.number place.first e) }
{
    let scene = *scene;
    let place = Place {
        number: place.number,
        opcode: place.opcode,
        first: place.first,
        end: place.end,
    };
    read_further(&scene, pending, operands, place, begin, rest)
}

/// Adds the operands of an instruction to a list, by its pattern: all of its further words, and no fewer. `head` may tell
/// with what the pattern begins. After an error nothing is said of what is left of the list.
#[inline(always)]
fn read_operands<'t, 'a>(
    scene: &Scene<'t, '_, 'a>,
    pending: &mut Pending<'t>,
    operands: &mut Vec<Operand<'a>>,
    pattern: &PatternRef<'t>,
    place: Place,
    head: Head,
) -> Result<(), Stop>
    requires forms { scene.now.forms.now ≡ map form_of scene.now.table.now.kinds }
    requires whole { IsWhole scene.now.table.now }
    requires order { place.first ≤ place.end }
    requires fits { place.end ≤ length scene.now.image.now }
    // What is added is what the words from the first up to the end spell.
    ensures read { (before : List PlainInst) → Knows scene.now.definitions.now before
        → OnOk result
        (Match scene.now.table.now (start before place.opcode) (items_of pattern.now)
        (plain_operands (drop (length operands.old.items) operands.new.items))
        (between scene.now.image.now place.first place.end)) }
    ensures kept { OnOk result (take (length operands.old.items) operands.new.items ≡ operands.old.items) }
    ensures few { OnOk result (length operands.new.items + place.first ≤ length operands.old.items + place.end) }
    // A fault tells what refuses these words.
    ensures misfit { (before : List PlainInst) → Knows scene.now.definitions.now before
        → IfErr result
        (λ e. IsMisfit scene.now.table.now (start before place.opcode) (items_of pattern.now)
        (between scene.now.image.now place.first place.end) place.number place.first e) }
{
    let begin = operands.len();
    operands.reserve((place.end - place.first) as usize)?;
    let items = DueItems::of(pattern);
    let rest = read_head(scene, operands, place, begin, head, items);
    let rest = read_singles(scene, operands, place, begin, rest);
    if is_read(place, rest) {
        return Ok(());
    }
    let rest = read_parameters(scene, operands, place, begin, rest);
    if is_read(place, rest) {
        return Ok(());
    }
    let rest = read_run(scene, operands, place, begin, rest);
    if is_read(place, rest) {
        return Ok(());
    }
    read_left(scene, pending, operands, place, begin, rest)
}

/// Reads an instruction by the items of its pattern, as `read_instruction` says. `head` may tell with what the
/// pattern begins.
#[inline(always)]
fn read_by_pattern<'t, 'a>(
    scene: &Scene<'t, '_, 'a>,
    pending: &mut Pending<'t>,
    operands: &mut Vec<Operand<'a>>,
    number: u32,
    at: u32,
    head: Head,
) -> Result<Read, Stop>
    requires forms { scene.now.forms.now ≡ map form_of scene.now.table.now.kinds }
    requires whole { IsWhole scene.now.table.now }
    requires fits { at < length scene.now.image.now }
    // What is added is what the words from there on spell.
    ensures read { (before : List PlainInst) → Knows scene.now.definitions.now before
        → IfOk result
        (λ r. IsInstruction scene.now.table.now before
        (record { opcode = r.opcode; operands = plain_operands (drop r.first operands.new.items) })
        (between scene.now.image.now at r.end)) }
    ensures kept { IfOk result (λ r. (r.first ≡ length operands.old.items)
        × (take r.first operands.new.items ≡ operands.old.items)) }
    ensures few { IfOk result (λ r. length operands.new.items + at ≤ length operands.old.items + r.end) }
    ensures within { IfOk result (λ r. (at < r.end) × (r.end ≤ length scene.now.image.now)) }
    // A fault is the death of the instruction there.
    ensures dead { (before : List PlainInst) → Knows scene.now.definitions.now before
        → IfErr result (λ e. IsDeadFrom scene.now.table.now before scene.now.image.now number at e) }
{
    let told = word(scene.image, at);
    let count = told / 65536;
    let opcode = (told % 65536) as u16;
    if count == 0 {
        return Err(fault_at(number, Rule::I1, at));
    }
    if count > scene.image.len() - at {
        return Err(fault_at(number, Rule::I2, at));
    }
    let Some(pattern) = scene.table.pattern(opcode) else {
        return Err(fault_at(number, Rule::I3, at));
    };
    let place = Place {
        number,
        opcode,
        first: at + 1,
        end: at + count,
    };
    let first = operands.len();
    read_operands(scene, pending, operands, &pattern, place, head)?;
    Ok(Read {
        opcode,
        first,
        end: place.end,
    })
}

/// Reads the instruction whose first word is the module's word `at`, counted from 0, after so many instructions (SPIR-V
/// Specification 1.6, section 2.3), and adds its operands to a list. The stack of pending operands is begun anew.
///
/// A `Fault` tells the number of the instructions before, which is the instruction's own, and a word of the module. It
/// is told by the word `at` where the first word counts no words (I1) or more than are left of the module (I2), or
/// where the opcode has no entry in the table (I3); by the first word left where nothing more is due (I5); by the word
/// after the last where an operand is missing (I4); and else by the word at which an operand is refused
/// (`take_operand`). `Memory` comes only where a growth of memory was refused. After an error nothing is said of what
/// is left of the list.
#[inline(always)]
pub fn read_instruction<'t, 'a>(
    scene: &Scene<'t, '_, 'a>,
    pending: &mut Pending<'t>,
    operands: &mut Vec<Operand<'a>>,
    number: u32,
    at: u32,
) -> Result<Read, Stop>
    requires forms { scene.now.forms.now ≡ map form_of scene.now.table.now.kinds }
    requires whole { IsWhole scene.now.table.now }
    requires fits { at < length scene.now.image.now }
    // What is added is what the words from there on spell.
    ensures read { (before : List PlainInst) → Knows scene.now.definitions.now before
        → IfOk result
        (λ r. IsInstruction scene.now.table.now before
        (record { opcode = r.opcode; operands = plain_operands (drop r.first operands.new.items) })
        (between scene.now.image.now at r.end)) }
    ensures kept { IfOk result (λ r. (r.first ≡ length operands.old.items)
        × (take r.first operands.new.items ≡ operands.old.items)) }
    ensures few { IfOk result (λ r. length operands.new.items + at ≤ length operands.old.items + r.end) }
    ensures within { IfOk result (λ r. (at < r.end) × (r.end ≤ length scene.now.image.now)) }
    // A fault is the death of the instruction there.
    ensures dead { (before : List PlainInst) → Knows scene.now.definitions.now before
        → IfErr result (λ e. IsDeadFrom scene.now.table.now before scene.now.image.now number at e) }
{
    let head = word(scene.image, at);
    let count = head / 65536;
    let opcode = (head % 65536) as u16;
    let front = scene.table.front(opcode);
    if count > 0 && count <= scene.image.len() - at {
        if front.takes(count - 1) {
            let first = operands.len();
            let end = at + count;
            read_front(scene.image, operands, front.head, at + 1, end)?;
            return Ok(Read { opcode, first, end });
        }
    }
    read_by_pattern(scene, pending, operands, number, at, front.head)
}

/// The same as `read_operands`, in few steps of code.
fn read_operands_apart<'t, 'a>(
    scene: &Scene<'t, '_, 'a>,
    pending: &mut Pending<'t>,
    operands: &mut Vec<Operand<'a>>,
    pattern: &PatternRef<'t>,
    place: Place,
) -> Result<(), Stop>
    requires forms { scene.now.forms.now ≡ map form_of scene.now.table.now.kinds }
    requires whole { IsWhole scene.now.table.now }
    requires order { place.first ≤ place.end }
    requires fits { place.end ≤ length scene.now.image.now }
    // What is added is what the words from the first up to the end spell.
    ensures read { (before : List PlainInst) → Knows scene.now.definitions.now before
        → OnOk result
        (Match scene.now.table.now (start before place.opcode) (items_of pattern.now)
        (plain_operands (drop (length operands.old.items) operands.new.items))
        (between scene.now.image.now place.first place.end)) }
    ensures kept { OnOk result (take (length operands.old.items) operands.new.items ≡ operands.old.items) }
    ensures few { OnOk result (length operands.new.items + place.first ≤ length operands.old.items + place.end) }
    // A fault tells what refuses these words.
    ensures misfit { (before : List PlainInst) → Knows scene.now.definitions.now before
        → IfErr result
        (λ e. IsMisfit scene.now.table.now (start before place.opcode) (items_of pattern.now)
        (between scene.now.image.now place.first place.end) place.number place.first e) }
{
    let begin = operands.len();
    operands.reserve((place.end - place.first) as usize)?;
    let items = DueItems::of(pattern);
    let at = place.first;
    let rest = Rest {
        kinds: &[],
        items,
        at,
    };
    read_further(scene, pending, operands, place, begin, rest)
}

/// The same as `read_instruction`, for callers that read few instructions. It has a body of its own, so that the one of
/// `read_instruction` is in `decode` alone, where it has become part of the loop.
#[inline(never)]
pub fn read_apart<'t, 'a>(
    scene: &Scene<'t, '_, 'a>,
    pending: &mut Pending<'t>,
    operands: &mut Vec<Operand<'a>>,
    number: u32,
    at: u32,
) -> Result<Read, Stop>
    requires forms { scene.now.forms.now ≡ map form_of scene.now.table.now.kinds }
    requires whole { IsWhole scene.now.table.now }
    requires fits { at < length scene.now.image.now }
    // What is added is what the words from there on spell.
    ensures read { (before : List PlainInst) → Knows scene.now.definitions.now before
        → IfOk result
        (λ r. IsInstruction scene.now.table.now before
        (record { opcode = r.opcode; operands = plain_operands (drop r.first operands.new.items) })
        (between scene.now.image.now at r.end)) }
    ensures kept { IfOk result (λ r. (r.first ≡ length operands.old.items)
        × (take r.first operands.new.items ≡ operands.old.items)) }
    ensures few { IfOk result (λ r. length operands.new.items + at ≤ length operands.old.items + r.end) }
    ensures within { IfOk result (λ r. (at < r.end) × (r.end ≤ length scene.now.image.now)) }
    // A fault is the death of the instruction there.
    ensures dead { (before : List PlainInst) → Knows scene.now.definitions.now before
        → IfErr result (λ e. IsDeadFrom scene.now.table.now before scene.now.image.now number at e) }
{
    let head = word(scene.image, at);
    let count = head / 65536;
    let opcode = (head % 65536) as u16;
    if count == 0 {
        return Err(fault_at(number, Rule::I1, at));
    }
    if count > scene.image.len() - at {
        return Err(fault_at(number, Rule::I2, at));
    }
    let Some(pattern) = scene.table.pattern(opcode) else {
        return Err(fault_at(number, Rule::I3, at));
    };
    let place = Place {
        number,
        opcode,
        first: at + 1,
        end: at + count,
    };
    let first = operands.len();
    let end = place.end;
    read_operands_apart(scene, pending, operands, &pattern, place)?;
    Ok(Read { opcode, first, end })
}
