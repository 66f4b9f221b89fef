//! Operands that are taken one after another, with their parameters.

ghost use Rattle.std.specs.Prelude.{◌≡◌, List, ◌≤◌, ◌+◌, ◌-◌, length, map, take, drop, vec_len, vec_capacity};
ghost use Rattle.spv_table.specs.Table.{Item};
ghost use Rattle.spv_table.specs.inner.Form.{form_of};
ghost use Rattle.spv_module.specs.Operand.{PlainInst};
ghost use Rattle.spv_inst.specs.inner.Known.{Knows};
ghost use Rattle.spv_inst.specs.inner.Pending.{due_first};
ghost use Rattle.spv_inst.specs.inner.Sofar.{SofarAt};

use crate::enumerant::joined;
use crate::plain::{Rest, next_single};
use crate::reader::{Place, Scene};
use crate::singles::push_next;
use spv_module::Operand;

/// Takes operands at the front of the words left of an instruction and adds them to a list, with their parameters:
/// `begin` is the place of the instruction's first operand there. It stops before the first that `push_next` does not
/// take, before an operand with parameters that is itself a parameter and not the last one, before an item that comes
/// any number of times, or where no kind or no word is left. The list has room for as many operands as words are left.
#[inline(always)]
pub fn read_words<'t, 'a>(
    scene: &Scene<'t, '_, 'a>,
    operands: &mut Vec<Operand<'a>>,
    place: Place,
    begin: usize,
    rest: Rest<'t>,
) -> Rest<'t>
    requires forms { scene.now.forms.now ≡ map form_of scene.now.table.now.kinds }
    requires within { (place.first ≤ rest.at) × (rest.at ≤ place.end) }
    requires fits { place.end ≤ length scene.now.image.now }
    requires room { begin ≤ length operands.now.items }
    requires spare { vec_len operands.now + (place.end - rest.at) ≤ vec_capacity operands.now }
    // The operands that are added bring the decoder from what was left to what is left.
    ensures sofar { (before : List PlainInst) (pattern : List Item) → Knows scene.now.definitions.now before
        → SofarAt scene.now.table.now before place.opcode pattern scene.now.image.now place.first place.end
        (drop begin operands.old.items) (due_first rest.entry.kinds.now rest.entry.items.left.now) rest.entry.at
        → SofarAt scene.now.table.now before place.opcode pattern scene.now.image.now place.first place.end
        (drop begin operands.new.items) (due_first result.kinds.now result.items.left.now) result.at }
    ensures kept { take begin operands.new.items ≡ take begin operands.old.items }
    ensures room { begin ≤ length operands.new.items }
    ensures few { length operands.new.items + rest.entry.at ≤ length operands.old.items + result.at }
    ensures within { (rest.entry.at ≤ result.at) × (result.at ≤ place.end) }
    ensures spare { vec_len operands.new + (place.end - result.at) ≤ vec_capacity operands.new }
{
    // A copy of its own, so that what is called takes its fields and not its place.
    let scene = *scene;
    let mut left = rest;
    while left.at < place.end {
        let Some(next) = next_single(left) else {
            return left;
        };
        let Some(pushed) = push_next(&scene, operands, begin, next.kind, left.at, place.end) else {
            return left;
        };
        let Some(kinds) = joined(pushed.kinds, next.kinds) else {
            let _ = operands.pop();
            return left;
        };
        left = Rest {
            kinds,
            items: next.items,
            at: left.at + pushed.words,
        };
    }
    left
}
