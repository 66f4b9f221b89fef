//! Which operand of an instruction fails, and the kind that is due there.

ghost use Rattle.std.specs.Prelude.{◌≡◌, ◌≤◌, ◌<◌, ℕ, List, length, map, IfOk, MatchOption};
ghost use Rattle.spv_table.specs.Table.{pattern_of, IsWhole};
ghost use Rattle.spv_module.specs.Operand.{PlainInst, Plain, start};
ghost use Rattle.spv_module.specs.Spelling.{Match};
ghost use Rattle.spv_table.specs.inner.Form.{form_of};
ghost use Rattle.spv_inst.specs.inner.Known.{Knows};
ghost use Rattle.spv_inst.specs.inner.Reading.{between};
ghost use Rattle.spv_form_evidence.specs.words.inner.Failed.{Fails};

use spv_inst::due::{Known, Pending, Scene, known_after, take_operand};
use spv_table::EntryRef;
use std::alloc::{AllocError, Global};

/// Where the further words of an instruction lie.
#[derive(Clone, Copy)]
pub struct Place {
    pub opcode: u16,
    /// The number of its second word in the module, and that of the word after its last.
    pub first: u32,
    pub end: u32,
}

/// An operand that fails, by its number, and the number of the kind that is due there. None is due where words are
/// left.
#[derive(Clone, Copy)]
pub struct Failed {
    pub operand: u32,
    pub kind: Option<u32>,
}

/// The operand of an instruction that fails, and what is due there. None where its further words spell operands by its
/// entry.
///
/// An `AllocError` comes only where a growth of memory was refused.
pub fn failed_operand<'t>(
    alloc: Global,
    scene: &Scene<'t, '_, '_>,
    entry: &EntryRef<'t>,
    place: Place,
) -> Result<Option<Failed>, AllocError>
    requires forms { scene.now.forms.now ≡ map form_of scene.now.table.now.kinds }
    requires whole { IsWhole scene.now.table.now }
    requires order { place.first ≤ place.end }
    requires fits { place.end ≤ length scene.now.image.now }
    ensures { (before : List PlainInst) → Knows scene.now.definitions.now before → IfOk result (λ o. MatchOption o
        ((os : List Plain) × Match scene.now.table.now (start before place.opcode) (pattern_of entry.now) os
        (between scene.now.image.now place.first place.end))
        (λ f. Fails scene.now.table.now (start before place.opcode) (pattern_of entry.now)
        (between scene.now.image.now place.first place.end) f)) }
{
    let mut pending: Pending<'t> = Pending::new(alloc);
    let mut operands = Vec::new(alloc);
    let mut known = Known::new(place.opcode);
    let mut at = place.first;
    pending.start(entry.operands());
    'turns: loop {
        let asked = pending.next_leaf(scene.table, scene.forms, at < place.end)?;
        let operand = operands.len() as u32;
        let Some(asked) = asked else {
            if at == place.end {
                return Ok(None);
            }
            return Ok(Some(Failed {
                operand,
                kind: None,
            }));
        };
        let Ok(taken) = take_operand(scene, known, asked.slot, asked.leaf, at, place.end) else {
            return Ok(Some(Failed {
                operand,
                kind: Some(asked.slot.kind),
            }));
        };
        pending.open(scene.table, &taken.operand)?;
        known = known_after(known, &operands, &taken.operand);
        operands.push(taken.operand)?;
        at += taken.words;
    }
}
