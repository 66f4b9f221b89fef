//! Operands of an item that comes any number of times.

ghost use Rattle.std.specs.Prelude.{◌≡◌, List, ◌≤◌, ◌+◌, ◌-◌, ◌∷◌};
ghost use Rattle.std.specs.Prelude.{true, length, map, take, drop, IfSome, vec_len, vec_capacity};
ghost use Rattle.spv_table.specs.Table.{Item};
ghost use Rattle.spv_table.specs.inner.Form.{form_of};
ghost use Rattle.spv_module.specs.Operand.{PlainInst};
ghost use Rattle.spv_module.specs.Shape.{alone};
ghost use Rattle.spv_inst.specs.inner.Known.{Knows};
ghost use Rattle.spv_inst.specs.inner.Pending.{settled, due_first};
ghost use Rattle.spv_inst.specs.Flat.{OneOf};
ghost use Rattle.spv_inst.specs.inner.Sofar.{SofarAt};

use crate::plain::{Rest, bare_in_form};
use crate::reader::{Place, Scene};
use spv_module::Operand;
use spv_table::form_in;
use spv_words::word;

/// The kind that is due next, where it is that of an item which comes any number of times.
#[inline(always)]
pub fn repeated_kind(rest: Rest<'_>) -> Option<u32>
    ensures { IfSome result
        (λ k. settled true (due_first rest.entry.kinds.now rest.entry.items.left.now) ≡ OneOf (alone k)
        ∷ due_first rest.entry.kinds.now rest.entry.items.left.now) }
{
    if !rest.kinds.is_empty() {
        return None;
    }
    rest.items.repeated()
}

/// Takes ids and literals of one word at the front of the words left of an instruction, where an item is due that comes
/// any number of times, and adds them to a list, which has room for as many operands as words are left: `begin` is the
/// place of the instruction's first operand there. It stops before the first word that is no such operand of the item's
/// kind.
#[inline(always)]
pub fn read_run<'t, 'a>(
    scene: &Scene<'t, '_, 'a>,
    operands: &mut Vec<Operand<'a>>,
    place: Place,
    begin: usize,
    rest: Rest<'t>,
) -> Rest<'t>
    requires forms { scene.now.forms.now ≡ map form_of scene.now.table.now.kinds }
    requires within { (place.first ≤ rest.at) × (rest.at ≤ place.end) }
    requires fits { place.end ≤ length scene.now.image.now }
    requires room { begin ≤ length operands.now.items }
    requires spare { vec_len operands.now + (place.end - rest.at) ≤ vec_capacity operands.now }
    // The operands that are added bring the decoder from what was left to what is left.
    ensures sofar { (before : List PlainInst) (pattern : List Item) → Knows scene.now.definitions.now before
        → SofarAt scene.now.table.now before place.opcode pattern scene.now.image.now place.first place.end
        (drop begin operands.old.items) (due_first rest.entry.kinds.now rest.entry.items.left.now) rest.entry.at
        → SofarAt scene.now.table.now before place.opcode pattern scene.now.image.now place.first place.end
        (drop begin operands.new.items) (due_first result.kinds.now result.items.left.now) result.at }
    ensures kept { take begin operands.new.items ≡ take begin operands.old.items }
    ensures room { begin ≤ length operands.new.items }
    ensures few { length operands.new.items + rest.entry.at ≤ length operands.old.items + result.at }
    ensures within { (rest.entry.at ≤ result.at) × (result.at ≤ place.end) }
    ensures spare { vec_len operands.new + (place.end - result.at) ≤ vec_capacity operands.new }
{
    let Some(kind) = repeated_kind(rest) else {
        return rest;
    };
    let form = form_in(scene.forms, kind);
    let mut at = rest.at;
    while at < place.end {
        let Some(operand) = bare_in_form(form, word(scene.image, at)) else {
            return Rest {
                kinds: rest.kinds,
                items: rest.items,
                at,
            };
        };
        operands.push_reserved(operand);
        at += 1;
    }
    Rest {
        kinds: rest.kinds,
        items: rest.items,
        at,
    }
}
