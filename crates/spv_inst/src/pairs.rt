//! Pairs that come any number of times: those of OpPhi and of OpSwitch.

ghost use Rattle.std.specs.Prelude.{◌≡◌, List, ◌≤◌, ◌+◌, ◌-◌, Some};
ghost use Rattle.std.specs.Prelude.{length, take, drop, map, IfSome, vec_len, vec_capacity};
ghost use Rattle.spv_table.specs.Table.{Table, Item, kind_of};
ghost use Rattle.spv_table.specs.declared.form.Form.TheVariants.{Leaf as LeafForm};
ghost use Rattle.spv_table.specs.inner.Form.{form_of, form_at};
ghost use Rattle.spv_module.specs.Operand.{Context, PlainInst};
ghost use Rattle.spv_module.specs.Shape.{Slot, AsId, AsNumber, shape_of};
ghost use Rattle.spv_module.specs.Width as width;
ghost use Rattle.spv_inst.specs.Flat.{Due};
ghost use Rattle.spv_inst.specs.inner.Known.{Knows};
ghost use Rattle.spv_inst.specs.inner.Pairs.{IsPair, context_at};
ghost use Rattle.spv_inst.specs.inner.Pending.{due_first};
ghost use Rattle.spv_inst.specs.inner.Sofar.{SofarAt};

use crate::known::known_of;
use crate::number::{switch_width, take_number};
use crate::plain::Rest;
use crate::reader::{Place, Scene};
use crate::repeated::repeated_kind;
use spv_module::{Operand, opcode};
use spv_table::{Form, Leaf, form_in};
use spv_words::{Image, word};

/// Takes pairs of ids at the front of the words from `first` up to the end of an instruction, as many as there are, and
/// adds them to a list, which has room for as many operands as words are left. The answer is the number of the next
/// word in the module.
#[inline(always)]
fn read_id_pairs<'a>(
    image: &Image,
    operands: &mut Vec<Operand<'a>>,
    place: Place,
    begin: usize,
    first: u32,
) -> u32
    requires within { (place.first ≤ first) × (first ≤ place.end) }
    requires fits { place.end ≤ length image.now }
    requires room { begin ≤ length operands.now.items }
    requires spare { vec_len operands.now + (place.end - first) ≤ vec_capacity operands.now }
    ensures sofar { (G : Table) (before : List PlainInst) (pattern : List Item) (a b : Slot) (ds : List Due)
        → IsPair G ds a b → ((c : Context) → shape_of G c a ≡ AsId)
        → SofarAt G before place.opcode pattern image.now place.first place.end (drop begin operands.old.items) ds first
        → SofarAt G before place.opcode pattern image.now place.first place.end (drop begin operands.new.items) ds
        result }
    ensures kept { take begin operands.new.items ≡ take begin operands.old.items }
    ensures room { begin ≤ length operands.new.items }
    ensures few { length operands.new.items + first ≤ length operands.old.items + result }
    ensures within { (first ≤ result) × (result ≤ place.end) }
    ensures spare { vec_len operands.new + (place.end - result) ≤ vec_capacity operands.new }
{
    let mut at = first;
    while place.end - at >= 2 {
        operands.push_reserved(Operand::Id(word(image, at)));
        operands.push_reserved(Operand::Id(word(image, at + 1)));
        at += 2;
    }
    at
}

/// Takes the cases of OpSwitch at the front of the words from `first` up to the end of an instruction, as many as there
/// are whole ones, and adds them to a list, which has room for as many operands as words are left: each is a number of
/// `bits` bits, the width that the selector's type tells, and a label. The answer is the number of the next word in the
/// module.
#[inline(always)]
fn read_cases<'a>(
    image: &Image,
    operands: &mut Vec<Operand<'a>>,
    place: Place,
    begin: usize,
    first: u32,
    bits: u32,
) -> u32
    requires within { (place.first ≤ first) × (first ≤ place.end) }
    requires fits { place.end ≤ length image.now }
    requires room { begin ≤ length operands.now.items }
    requires spare { vec_len operands.now + (place.end - first) ≤ vec_capacity operands.now }
    ensures sofar { (G : Table) (before : List PlainInst) (pattern : List Item) (a b : Slot) (ds : List Due)
        → IsPair G ds a b
        → ((c : Context) → c.opcode ≡ place.opcode → shape_of G c a ≡ AsNumber (width.switch_width c))
        → width.switch_width (context_at before place.opcode (drop begin operands.old.items)) ≡ Some bits
        → SofarAt G before place.opcode pattern image.now place.first place.end (drop begin operands.old.items) ds first
        → SofarAt G before place.opcode pattern image.now place.first place.end (drop begin operands.new.items) ds
        result }
    ensures kept { take begin operands.new.items ≡ take begin operands.old.items }
    ensures room { begin ≤ length operands.new.items }
    ensures few { length operands.new.items + first ≤ length operands.old.items + result }
    ensures within { (first ≤ result) × (result ≤ place.end) }
    ensures spare { vec_len operands.new + (place.end - result) ≤ vec_capacity operands.new }
{
    let mut at = first;
    while at < place.end {
        let Ok(number) = take_number(image, Some(bits), at, place.end) else {
            return at;
        };
        let label = at + number.words;
        if label == place.end {
            return at;
        }
        operands.push_reserved(number.operand);
        operands.push_reserved(Operand::Id(word(image, label)));
        at = label + 1;
    }
    at
}

/// A pair that is due any number of times.
#[derive(Clone, Copy)]
struct Pair {
    /// The kinds of its two operands. The second is an id.
    first: u32,
    second: u32,
    /// Whether they are bases of PairLiteralIntegerIdRef.
    paired: bool,
    /// What the first of them asks for.
    leaf: Leaf,
}

/// The pair that is due next, where it comes any number of times and its second operand is an id.
#[inline(always)]
fn pair_due(scene: &Scene<'_, '_, '_>, rest: Rest<'_>) -> Option<Pair>
    requires forms { scene.now.forms.now ≡ map form_of scene.now.table.now.kinds }
    ensures due { IfSome result
        (λ p. IsPair scene.now.table.now (due_first rest.entry.kinds.now rest.entry.items.left.now)
        (record { kind = p.first; paired = p.paired }) (record { kind = p.second; paired = p.paired })) }
    ensures leaf { IfSome result (λ p. form_at (kind_of scene.now.table.now p.first) ≡ LeafForm p.leaf) }
{
    let Some(kind) = repeated_kind(rest) else {
        return None;
    };
    let Form::Parts { paired } = form_in(scene.forms, kind) else {
        return None;
    };
    let Some(composite) = scene.table.kind(kind) else {
        return None;
    };
    let [first, second] = composite.bases() else {
        return None;
    };
    let Form::Leaf(Leaf::Id) = form_in(scene.forms, *second) else {
        return None;
    };
    match form_in(scene.forms, *first) {
        Form::Leaf(leaf) => Some(Pair {
            first: *first,
            second: *second,
            paired,
            leaf,
        }),
        Form::Parts { .. } => None,
    }
}

/// Takes pairs of ids, or cases of OpSwitch, at the front of the words left of an instruction, where an item is due
/// that comes any number of times and is such a pair, and adds them to a list, which has room for as many operands as
/// words are left: `begin` is the place of the instruction's first operand there. It stops where fewer words are left
/// than a pair takes.
#[inline(always)]
pub fn read_pairs<'t, 'a>(
    scene: &Scene<'t, '_, 'a>,
    operands: &mut Vec<Operand<'a>>,
    place: Place,
    begin: usize,
    rest: Rest<'t>,
) -> Rest<'t>
    requires forms { scene.now.forms.now ≡ map form_of scene.now.table.now.kinds }
    requires within { (place.first ≤ rest.at) × (rest.at ≤ place.end) }
    requires fits { place.end ≤ length scene.now.image.now }
    requires room { begin ≤ length operands.now.items }
    requires spare { vec_len operands.now + (place.end - rest.at) ≤ vec_capacity operands.now }
    // The operands that are added bring the decoder from what was left to what is left.
    ensures sofar { (before : List PlainInst) (pattern : List Item) → Knows scene.now.definitions.now before
        → SofarAt scene.now.table.now before place.opcode pattern scene.now.image.now place.first place.end
        (drop begin operands.old.items) (due_first rest.entry.kinds.now rest.entry.items.left.now) rest.entry.at
        → SofarAt scene.now.table.now before place.opcode pattern scene.now.image.now place.first place.end
        (drop begin operands.new.items) (due_first result.kinds.now result.items.left.now) result.at }
    ensures kept { take begin operands.new.items ≡ take begin operands.old.items }
    ensures room { begin ≤ length operands.new.items }
    ensures few { length operands.new.items + rest.entry.at ≤ length operands.old.items + result.at }
    ensures within { (rest.entry.at ≤ result.at) × (result.at ≤ place.end) }
    ensures spare { vec_len operands.new + (place.end - result.at) ≤ vec_capacity operands.new }
{
    let Some(pair) = pair_due(scene, rest) else {
        return rest;
    };
    if let Leaf::Id = pair.leaf {
        let at = read_id_pairs(scene.image, operands, place, begin, rest.at);
        return Rest {
            kinds: rest.kinds,
            items: rest.items,
            at,
        };
    }
    let Leaf::Integer = pair.leaf else {
        return rest;
    };
    if pair.paired && place.opcode == opcode::SWITCH {
        let known = known_of(place.opcode, &operands[begin..]);
        let Some(bits) = switch_width(scene.definitions, known) else {
            return rest;
        };
        let at = read_cases(scene.image, operands, place, begin, rest.at, bits);
        return Rest {
            kinds: rest.kinds,
            items: rest.items,
            at,
        };
    }
    rest
}
