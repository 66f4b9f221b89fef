//! Operands of items that come once at most, and their parameters.

ghost use Rattle.std.specs.Prelude.{◌≡◌, ℕ, List, [], ◌≤◌, ◌<◌, ◌+◌, ◌-◌, length, map, take, drop};
ghost use Rattle.std.specs.Prelude.{Some, IfSome, IfNone, IsTrue, vec_len, vec_capacity};
ghost use Rattle.spv_table.specs.Table.{Item, Table, kind_of};
ghost use Rattle.spv_table.specs.declared.form.Form.TheVariants.{Leaf as LeafForm};
ghost use Rattle.spv_table.specs.declared.form.Leaf.TheVariants as due_leaf;
ghost use Rattle.spv_table.specs.inner.Form.{form_of, form_at};
ghost use Rattle.spv_module.specs.Operand.{Context, PlainInst, type_in};
ghost use Rattle.spv_module.specs.Module.{plain_operand, plain_operands};
ghost use Rattle.spv_module.specs.Shape.{alone, shape_of};
ghost use Rattle.spv_module.specs.Spelling.{Takes};
ghost use Rattle.spv_inst.specs.declared.definitions.Definitions.{Definitions as Known};
ghost use Rattle.spv_inst.specs.inner.Known.{Knows};
ghost use Rattle.spv_inst.specs.inner.Pending.{items_of, due_first};
ghost use Rattle.spv_inst.specs.inner.Pushed.{IsPushed};
ghost use Rattle.spv_inst.specs.inner.Reading.{between};
ghost use Rattle.spv_inst.specs.inner.Sofar.{SofarAt};
ghost use Rattle.spv_inst.specs.Flat.{due};

use crate::definitions::Definitions;
use crate::enumerant::{mask_kinds, value_kinds};
use crate::items::DueItems;
use crate::number::take_number;
use crate::plain::{Rest, bare_in_form};
use crate::reader::{Place, Scene, Taken};
use crate::text::{short_text, take_text};
use spv_module::Operand;
use spv_table::{Form, Head, Leaf, form_in};
use spv_words::{Image, word};

/// An operand that was added to a list: how many words it takes, and the kinds of its parameters, which are due after
/// it.
#[derive(Clone, Copy)]
pub struct Pushed<'t> {
    pub words: u32,
    pub kinds: &'t [u32],
}

/// The result's type, where that is the first of some operands.
fn first_type(operands: &[Operand<'_>]) -> Option<u32>
    ensures { IfSome result (λ id. type_in (plain_operands operands.now) ≡ Some id) }
{
    match operands {
        [Operand::OfType(id), ..] => Some(*id),
        _ => None,
    }
}

/// The number as wide as the result's type, at the front of the words from `at` up to `end`, of which there is one at
/// least. None where the words are refused, and where the first of `operands`, those of the instruction before it, is
/// not the result's type.
#[inline(always)]
fn context_number<'a>(
    definitions: &Definitions,
    image: &'a Image,
    operands: &[Operand<'a>],
    at: u32,
    end: u32,
) -> Option<Taken<'a>>
    requires order { at < end }
    requires fits { end ≤ length image.now }
    ensures taken { (G : Table) (c : Context) (kind : ℕ) → Knows definitions.now c.before
        → plain_operands operands.now ≡ c.operands → form_at (kind_of G kind) ≡ LeafForm due_leaf.ContextNumber
        → IfSome result (λ t. Takes kind (shape_of G c (alone kind)) (plain_operand t.operand)
        (take t.words (between image.now at end)) []) }
    ensures within { IfSome result (λ t. (0 < t.words) × (t.words ≤ end - at)) }
{
    let Some(type_id) = first_type(operands) else {
        return None;
    };
    let width = definitions.width(type_id);
    let Ok(taken) = take_number(image, width, at, end) else {
        return None;
    };
    Some(taken)
}

/// Adds that number to a list that has room for it, and answers how many words it takes; `begin` is the place of the
/// instruction's first operand in the list. None where it is refused. By a call: most operands are none.
#[inline(never)]
fn push_number<'a>(
    definitions: &Definitions,
    image: &'a Image,
    operands: &mut Vec<Operand<'a>>,
    begin: usize,
    at: u32,
    end: u32,
) -> Option<u32>
    requires order { at < end }
    requires fits { end ≤ length image.now }
    requires room { begin ≤ length operands.now.items }
    requires spare { vec_len operands.now < vec_capacity operands.now }
    ensures pushed { (G : Table) (kind : ℕ) → form_at (kind_of G kind) ≡ LeafForm due_leaf.ContextNumber
        → IfSome result
        (λ n. IsPushed G definitions.now image.now begin kind at end operands.old.items operands.new.items n []) }
    ensures within { IfSome result (λ n. (0 < n) × (n ≤ end - at)) }
    ensures none { IfNone result (operands.new.items ≡ operands.old.items) }
    ensures len { IfSome result (λ _. vec_len operands.new ≡ vec_len operands.old + 1) }
    ensures capacity { vec_capacity operands.new ≡ vec_capacity operands.old }
{
    let Some(taken) = context_number(definitions, image, &operands[begin..], at, end) else {
        return None;
    };
    operands.push_reserved(taken.operand);
    Some(taken.words)
}

/// Adds the text at the front of the words from `at` up to `end` to a list that has room for it, and answers how many
/// words it takes. None where it is refused. By a call: most texts are short.
#[inline(never)]
fn push_long_text<'a>(
    image: &'a Image,
    operands: &mut Vec<Operand<'a>>,
    at: u32,
    end: u32,
) -> Option<u32>
    requires order { at < end }
    requires fits { end ≤ length image.now }
    requires spare { vec_len operands.now < vec_capacity operands.now }
    ensures pushed { (G : Table) (known : Known) (begin kind : ℕ) → form_at (kind_of G kind) ≡ LeafForm due_leaf.Text
        → IfSome result
        (λ n. IsPushed G known image.now begin kind at end operands.old.items operands.new.items n []) }
    ensures within { IfSome result (λ n. (0 < n) × (n ≤ end - at)) }
    ensures none { IfNone result (operands.new.items ≡ operands.old.items) }
    ensures len { IfSome result (λ _. vec_len operands.new ≡ vec_len operands.old + 1) }
    ensures capacity { vec_capacity operands.new ≡ vec_capacity operands.old }
{
    let Ok(taken) = take_text(image, at, end) else {
        return None;
    };
    operands.push_reserved(taken.operand);
    Some(taken.words)
}

/// The same of a text. Short ones are looked at first.
#[inline(always)]
fn push_text<'a>(
    scene: &Scene<'_, '_, 'a>,
    operands: &mut Vec<Operand<'a>>,
    begin: usize,
    at: u32,
    end: u32,
) -> Option<u32>
    requires order { at < end }
    requires fits { end ≤ length scene.now.image.now }
    requires room { begin ≤ length operands.now.items }
    requires spare { vec_len operands.now < vec_capacity operands.now }
    ensures pushed { (kind : ℕ) → form_at (kind_of scene.now.table.now kind) ≡ LeafForm due_leaf.Text
        → IfSome result
        (λ n. IsPushed scene.now.table.now scene.now.definitions.now scene.now.image.now begin kind at end
        operands.old.items operands.new.items n []) }
    ensures within { IfSome result (λ n. (0 < n) × (n ≤ end - at)) }
    ensures none { IfNone result (operands.new.items ≡ operands.old.items) }
    ensures len { IfSome result (λ _. vec_len operands.new ≡ vec_len operands.old + 1) }
    ensures capacity { vec_capacity operands.new ≡ vec_capacity operands.old }
{
    if let Some(text) = short_text(scene.image, at, end) {
        operands.push_reserved(Operand::Text(text));
        return Some(end - at);
    }
    push_long_text(scene.image, operands, at, end)
}

/// Adds the operand at the front of the words from `at` up to `end`, of which there is one at least, to a list that has
/// room for it, where the kind of a number asks for an id, a literal, a text, a number, a known value, or a mask of
/// known bits of which no more than one has parameters. `begin` is the place of the instruction's first operand in the
/// list. None where it is refused, and then nothing is added.
#[inline(always)]
pub fn push_next<'t, 'a>(
    scene: &Scene<'t, '_, 'a>,
    operands: &mut Vec<Operand<'a>>,
    begin: usize,
    kind: u32,
    at: u32,
    end: u32,
) -> Option<Pushed<'t>>
    requires forms { scene.now.forms.now ≡ map form_of scene.now.table.now.kinds }
    requires order { at < end }
    requires fits { end ≤ length scene.now.image.now }
    requires room { begin ≤ length operands.now.items }
    requires spare { vec_len operands.now < vec_capacity operands.now }
    ensures pushed { IfSome result
        (λ p. IsPushed scene.now.table.now scene.now.definitions.now scene.now.image.now begin kind at end
        operands.old.items operands.new.items p.words p.kinds.now) }
    ensures within { IfSome result (λ p. (0 < p.words) × (p.words ≤ end - at)) }
    ensures none { IfNone result (operands.new.items ≡ operands.old.items) }
    ensures len { IfSome result (λ _. vec_len operands.new ≡ vec_len operands.old + 1) }
    ensures capacity { vec_capacity operands.new ≡ vec_capacity operands.old }
{
    let Form::Leaf(leaf) = form_in(scene.forms, kind) else {
        return None;
    };
    let first = word(scene.image, at);
    let mut words = 1;
    let mut kinds: &'t [u32] = &[];
    match leaf {
        Leaf::ResultType => operands.push_reserved(Operand::OfType(first)),
        Leaf::Result => operands.push_reserved(Operand::Result(first)),
        Leaf::Id => operands.push_reserved(Operand::Id(first)),
        Leaf::Integer | Leaf::Word => operands.push_reserved(Operand::Word(first)),
        Leaf::Value => {
            kinds = value_kinds(scene.table, kind, first)?;
            operands.push_reserved(Operand::Value { kind, value: first });
        }
        Leaf::Mask => {
            kinds = mask_kinds(scene.table, kind, first)?;
            operands.push_reserved(Operand::Mask { kind, value: first });
        }
        Leaf::Text => words = push_text(scene, operands, begin, at, end)?,
        Leaf::ContextNumber => words = push_number(
            scene.definitions,
            scene.image,
            operands,
            begin,
            at,
            end,
        )?,
        Leaf::Nothing => return None,
    }
    Some(Pushed { words, kinds })
}

/// Whether a kind of that form asks for the type of a result.
#[inline(always)]
fn is_type(form: Form) -> bool
    ensures { IsTrue result → form ≡ LeafForm due_leaf.ResultType }
{
    match form {
        Form::Leaf(Leaf::ResultType) => true,
        _ => false,
    }
}

/// Whether a kind of that form asks for a result.
#[inline(always)]
fn is_result(form: Form) -> bool
    ensures { IsTrue result → form ≡ LeafForm due_leaf.Result }
{
    match form {
        Form::Leaf(Leaf::Result) => true,
        _ => false,
    }
}

/// Takes the type of a result and the result at the front of an instruction's words, if the pattern begins with these
/// two, as `head` may tell, and adds them to a list, which has room for as many operands as there are words: `begin` is
/// the place of the first of them there. If it does not begin with them, nothing is taken.
#[inline(always)]
pub fn read_head<'t, 'a>(
    scene: &Scene<'t, '_, 'a>,
    operands: &mut Vec<Operand<'a>>,
    place: Place,
    begin: usize,
    head: Head,
    items: DueItems<'t>,
) -> Rest<'t>
    requires forms { scene.now.forms.now ≡ map form_of scene.now.table.now.kinds }
    requires order { place.first ≤ place.end }
    requires fits { place.end ≤ length scene.now.image.now }
    requires room { begin ≤ length operands.now.items }
    requires spare { vec_len operands.now + (place.end - place.first) ≤ vec_capacity operands.now }
    // The operands that are added bring the decoder from what was left to what is left.
    ensures sofar { (before : List PlainInst) (pattern : List Item)
        → SofarAt scene.now.table.now before place.opcode pattern scene.now.image.now place.first place.end
        (drop begin operands.old.items) (map due (items_of items.entry.left.now)) place.first
        → SofarAt scene.now.table.now before place.opcode pattern scene.now.image.now place.first place.end
        (drop begin operands.new.items) (due_first result.kinds.now result.items.left.now) result.at }
    ensures kept { take begin operands.new.items ≡ take begin operands.old.items }
    ensures room { begin ≤ length operands.new.items }
    ensures few { length operands.new.items + place.first ≤ length operands.old.items + result.at }
    ensures within { (place.first ≤ result.at) × (result.at ≤ place.end) }
    ensures spare { vec_len operands.new + (place.end - result.at) ≤ vec_capacity operands.new }
{
    let none = Rest {
        kinds: &[],
        items,
        at: place.first,
    };
    if !matches!(head, Head::TypeAndResult) || place.end - place.first < 2 {
        return none;
    }
    let Some((one, behind)) = items.next_single() else {
        return none;
    };
    let Some((two, left)) = behind.next_single() else {
        return none;
    };
    if !is_type(form_in(scene.forms, one)) || !is_result(form_in(scene.forms, two)) {
        return none;
    }
    operands.push_reserved(Operand::OfType(word(scene.image, place.first)));
    operands.push_reserved(Operand::Result(word(scene.image, place.first + 1)));
    Rest {
        kinds: &[],
        items: left,
        at: place.first + 2,
    }
}

/// Takes operands at the front of the words left of an instruction, by the items left of its pattern, and adds them to a
/// list, which has room for as many as words are left: `begin` is the place of the instruction's first operand there. It
/// stops behind the first that has parameters, and before the first that `push_next` does not take, before an item that
/// comes any number of times, or where no kind or no word is left.
#[inline(always)]
pub fn read_singles<'t, 'a>(
    scene: &Scene<'t, '_, 'a>,
    operands: &mut Vec<Operand<'a>>,
    place: Place,
    begin: usize,
    rest: Rest<'t>,
) -> Rest<'t>
    requires forms { scene.now.forms.now ≡ map form_of scene.now.table.now.kinds }
    requires within { (place.first ≤ rest.at) × (rest.at ≤ place.end) }
    requires fits { place.end ≤ length scene.now.image.now }
    requires room { begin ≤ length operands.now.items }
    requires spare { vec_len operands.now + (place.end - rest.at) ≤ vec_capacity operands.now }
    // The operands that are added bring the decoder from what was left to what is left.
    ensures sofar { (before : List PlainInst) (pattern : List Item) → Knows scene.now.definitions.now before
        → SofarAt scene.now.table.now before place.opcode pattern scene.now.image.now place.first place.end
        (drop begin operands.old.items) (due_first rest.entry.kinds.now rest.entry.items.left.now) rest.entry.at
        → SofarAt scene.now.table.now before place.opcode pattern scene.now.image.now place.first place.end
        (drop begin operands.new.items) (due_first result.kinds.now result.items.left.now) result.at }
    ensures kept { take begin operands.new.items ≡ take begin operands.old.items }
    ensures room { begin ≤ length operands.new.items }
    ensures few { length operands.new.items + rest.entry.at ≤ length operands.old.items + result.at }
    ensures within { (rest.entry.at ≤ result.at) × (result.at ≤ place.end) }
    ensures spare { vec_len operands.new + (place.end - result.at) ≤ vec_capacity operands.new }
{
    let mut left = rest;
    while left.at < place.end && left.kinds.is_empty() {
        let Some((kind, later)) = left.items.next_single() else {
            return left;
        };
        let Some(pushed) = push_next(scene, operands, begin, kind, left.at, place.end) else {
            return left;
        };
        left = Rest {
            kinds: pushed.kinds,
            items: later,
            at: left.at + pushed.words,
        };
    }
    left
}

/// Takes the parameters that are due, as far as they are ids and literals of one word, at the front of the words left
/// of an instruction, and adds them to a list, which has room for as many operands as words are left: `begin` is the
/// place of the instruction's first operand there.
#[inline(always)]
pub fn read_parameters<'t, 'a>(
    scene: &Scene<'t, '_, 'a>,
    operands: &mut Vec<Operand<'a>>,
    place: Place,
    begin: usize,
    rest: Rest<'t>,
) -> Rest<'t>
    requires forms { scene.now.forms.now ≡ map form_of scene.now.table.now.kinds }
    requires within { (place.first ≤ rest.at) × (rest.at ≤ place.end) }
    requires fits { place.end ≤ length scene.now.image.now }
    requires room { begin ≤ length operands.now.items }
    requires spare { vec_len operands.now + (place.end - rest.at) ≤ vec_capacity operands.now }
    // The operands that are added bring the decoder from what was left to what is left.
    ensures sofar { (before : List PlainInst) (pattern : List Item) → Knows scene.now.definitions.now before
        → SofarAt scene.now.table.now before place.opcode pattern scene.now.image.now place.first place.end
        (drop begin operands.old.items) (due_first rest.entry.kinds.now rest.entry.items.left.now) rest.entry.at
        → SofarAt scene.now.table.now before place.opcode pattern scene.now.image.now place.first place.end
        (drop begin operands.new.items) (due_first result.kinds.now result.items.left.now) result.at }
    ensures kept { take begin operands.new.items ≡ take begin operands.old.items }
    ensures room { begin ≤ length operands.new.items }
    ensures few { length operands.new.items + rest.entry.at ≤ length operands.old.items + result.at }
    ensures within { (rest.entry.at ≤ result.at) × (result.at ≤ place.end) }
    ensures spare { vec_len operands.new + (place.end - result.at) ≤ vec_capacity operands.new }
{
    let mut left = rest;
    while left.at < place.end {
        let Some((kind, kinds)) = left.kinds.split_first() else {
            return left;
        };
        let form = form_in(scene.forms, *kind);
        let Some(operand) = bare_in_form(form, word(scene.image, left.at)) else {
            return left;
        };
        operands.push_reserved(operand);
        left = Rest {
            kinds,
            items: left.items,
            at: left.at + 1,
        };
    }
    left
}
