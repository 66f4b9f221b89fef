//! What is due in an instruction.

ghost use Rattle.std.specs.Prelude.{◌≡◌, ◌++◌, ◌∷◌, [], ◌<◌, map, length, IfOk, IfSome, OnOk};
ghost use Rattle.std.specs.Prelude.{MatchOption, unwrap_or};
ghost use Rattle.spv_table.specs.Table.{Table, kind_of};
ghost use Rattle.spv_table.specs.declared.form.Form.TheVariants.{Leaf as LeafForm};
ghost use Rattle.spv_table.specs.inner.Form.{form_of, form_at};
ghost use Rattle.spv_module.specs.Module.{plain_operand};
ghost use Rattle.spv_module.specs.Shape.{alone};
ghost use Rattle.spv_module.specs.Spelling.{parameters_of};
ghost use Rattle.spv_inst.specs.Reading.{enumerants_at};
ghost use Rattle.spv_inst.specs.Flat.{OneOf, due};
ghost use Rattle.spv_inst.specs.inner.Pending.{plain_slot, slots_of, parameters_from, frame_due, frames_due, items_of};
ghost use Rattle.spv_inst.specs.inner.Pending.{due_first, pending_due, settled, LeadsTo, Opens, opened_kinds};

use crate::items::DueItems;
use crate::reader::Slot;
use spv_module::Operand;
use spv_table::{Form, Leaf, PatternRef, Table, form_in};
use std::alloc::{AllocError, Global};

/// A place in an open list of parameters.
#[derive(Clone, Copy)]
enum Frame<'t> {
    /// The kinds left, in order, and whether they are bases of PairLiteralIntegerIdRef.
    Kinds { left: &'t [u32], paired: bool },
    /// The parameters of the set bits of a mask of that kind, from a position (0 to 32) up.
    Bits { kind: u32, mask: u32, position: u32 },
}

/// A kind that is due next and is no Composite.
#[derive(Clone, Copy)]
pub struct Asked {
    pub slot: Slot,
    /// What the slot's kind asks for.
    pub leaf: Leaf,
}

/// The parameters of a bit of a mask, at least one, and the position after it.
#[derive(Clone, Copy)]
struct Found<'t> {
    kinds: &'t [u32],
    position: u32,
}

/// What is due in an instruction, in order: the rest of each open list of parameters or bases, the innermost first, and
/// then the items left of the pattern.
///
/// A kind is due as soon as the operand is read or written that asks for it, so a stack of pending operands serves the
/// decoder and the encoder alike. It is one for many instructions: `start` keeps its memory.
#[derive(Drop)]
pub struct Pending<'t> {
    /// The open lists, the innermost last.
    frames: Vec<Frame<'t>>,
    /// The items of the pattern that are due after them.
    items: DueItems<'t>,
}

/// Takes the first of some kinds, and leaves the others due. Where memory runs out, nothing is said of what is left.
#[inline(always)]
fn take_first<'t>(
    frames: &mut Vec<Frame<'t>>,
    kinds: &'t [u32],
    paired: bool,
) -> Result<Option<Slot>, AllocError>
    ensures { (G : Table) → IfOk result (λ o. MatchOption o
        ((map OneOf (slots_of paired kinds.now) ≡ []) × (frames.new.items ≡ frames.old.items))
        (λ s. map OneOf (slots_of paired kinds.now) ++ frames_due G frames.old.items ≡ OneOf (plain_slot s)
        ∷ frames_due G frames.new.items)) }
{
    let Some((kind, left)) = kinds.split_first() else {
        return Ok(None);
    };
    if !left.is_empty() {
        frames.push(Frame::Kinds { left, paired })?;
    }
    Ok(Some(Slot {
        kind: *kind,
        paired,
    }))
}

/// The parameters of an enumerant; none where there is no such enumerant.
#[inline(always)]
fn parameters_in<'t>(table: &'t Table, kind: u32, value: u32) -> &'t [u32]
    ensures { result.now ≡ unwrap_or (parameters_of (enumerants_at (kind_of table.now kind)) value) [] }
{
    match table.enumerant(kind, value) {
        Some(enumerant) => enumerant.parameters(),
        None => &[],
    }
}

/// The parameters of the first set bit, from a position up, that has any.
#[inline(always)]
fn parameters_at<'t>(table: &'t Table, kind: u32, mask: u32, from: u32) -> Option<Found<'t>>
    ensures { MatchOption result (parameters_from table.now kind mask from ≡ [])
        (λ f. (0 < length f.kinds.now) × (parameters_from table.now kind mask from
        ≡ f.kinds.now ++ parameters_from table.now kind mask f.position)) }
{
    for position in from..32 {
        let left = mask >> position;
        if left == 0 {
            return None;
        }
        if left % 2 == 1 {
            let kinds = parameters_in(table, kind, 1 << position);
            if !kinds.is_empty() {
                return Some(Found {
                    kinds,
                    position: position + 1,
                });
            }
        }
    }
    None
}

/// Takes the first kind of an open parameter list, if it has one left, and leaves the others due. Where memory runs
/// out, nothing is said of what is left.
#[inline(always)]
fn take_of_frame<'t>(
    frames: &mut Vec<Frame<'t>>,
    table: &'t Table,
    frame: Frame<'t>,
) -> Result<Option<Slot>, AllocError>
    ensures { IfOk result (λ o. MatchOption o
        ((frame_due table.now frame.entry ≡ []) × (frames.new.items ≡ frames.old.items))
        (λ s. frame_due table.now frame.entry ++ frames_due table.now frames.old.items ≡ OneOf (plain_slot s)
        ∷ frames_due table.now frames.new.items)) }
{
    match frame {
        Frame::Kinds { left, paired } => take_first(frames, left, paired),
        Frame::Bits {
            kind,
            mask,
            position,
        } => {
            let Some(found) = parameters_at(table, kind, mask, position) else {
                return Ok(None);
            };
            frames.push(Frame::Bits {
                kind,
                mask,
                position: found.position,
            })?;
            take_first(frames, found.kinds, false)
        }
    }
}

/// Takes the next kind of the open parameter lists, if they have one left. Where memory runs out, nothing is said of
/// what is left.
#[inline(always)]
fn take_parameter<'t>(
    frames: &mut Vec<Frame<'t>>,
    table: &'t Table,
) -> Result<Option<Slot>, AllocError>
    ensures { IfOk result (λ o. MatchOption o
        ((frames_due table.now frames.old.items ≡ []) × (frames.new.items ≡ []))
        (λ s. frames_due table.now frames.old.items ≡ OneOf (plain_slot s)
        ∷ frames_due table.now frames.new.items)) }
{
    while let Some(frame) = frames.pop() {
        match take_of_frame(frames, table, frame)? {
            Some(slot) => return Ok(Some(slot)),
            None => {}
        }
    }
    Ok(None)
}

impl<'t> Pending<'t> {
    /// A stack of pending operands with nothing due. It takes no memory.
    pub fn new(alloc: Global) -> Pending<'t>
        ensures { (G : Table) → pending_due G result ≡ [] }
    {
        Pending {
            frames: Vec::new(alloc),
            items: DueItems::none(),
        }
    }

    /// Begins an instruction: the items of its pattern are due, and nothing else is.
    pub fn start(&mut self, pattern: &PatternRef<'t>)
        ensures { (G : Table) → pending_due G self.new ≡ map due (items_of pattern.now) }
    {
        self.frames.clear();
        self.items = DueItems::of(pattern);
    }

    /// Begins within an instruction: kinds are due, in order, then the items of a pattern, and nothing else is.
    ///
    /// An `AllocError` comes only where a growth of memory was refused, and then nothing is said of what is left.
    pub(crate) fn resume(&mut self, kinds: &'t [u32], items: DueItems<'t>) -> Result<(), AllocError>
        ensures { OnOk result ((G : Table) → pending_due G self.new ≡ due_first kinds.now items.entry.left.now) }
    {
        self.frames.clear();
        self.items = items;
        if !kinds.is_empty() {
            self.frames.push(Frame::Kinds {
                left: kinds,
                paired: false,
            })?;
        }
        Ok(())
    }

    /// Takes the kind that is due, where words are left (`more`) or not. Where memory runs out, nothing is said of what
    /// is left.
    #[inline(always)]
    fn next_due(&mut self, table: &'t Table, more: bool) -> Result<Option<Slot>, AllocError>
        ensures { IfOk result (λ o. MatchOption o (settled more (pending_due table.now self.old) ≡ [])
            (λ s. settled more (pending_due table.now self.old) ≡ OneOf (plain_slot s)
            ∷ pending_due table.now self.new)) }
    {
        match take_parameter(&mut self.frames, table)? {
            Some(slot) => Ok(Some(slot)),
            None => match self.items.next_item(more) {
                Some((kind, items)) => {
                    self.items = items;
                    Ok(Some(Slot {
                        kind,
                        paired: false,
                    }))
                }
                None => Ok(None),
            },
        }
    }

    /// Goes from a kind that was due to the leaf that stands in its place: that of the kind itself, or of the first
    /// base of a Composite, whose other bases are due then. A table is read only if a Composite has a base and no base
    /// is a Composite. Where memory runs out, nothing is said of what is left.
    #[inline(always)]
    fn leaf_of(&mut self, table: &'t Table, forms: &[Form], slot: Slot) -> Result<Asked, AllocError>
        requires { forms.now ≡ map form_of table.now.kinds }
        ensures leaf { IfOk result (λ a. form_at (kind_of table.now a.slot.kind) ≡ LeafForm a.leaf) }
        ensures opened { IfOk result (λ a. Opens table.now (plain_slot slot) (pending_due table.now self.old)
            (OneOf (plain_slot a.slot) ∷ pending_due table.now self.new)) }
    {
        match form_in(forms, slot.kind) {
            Form::Leaf(leaf) => Ok(Asked { slot, leaf }),
            Form::Parts { paired } => {
                let Some(kind) = table.kind(slot.kind) else {
                    unreachable!();
                };
                let Some(first) = take_first(&mut self.frames, kind.bases(), paired)? else {
                    unreachable!();
                };
                match form_in(forms, first.kind) {
                    Form::Leaf(leaf) => Ok(Asked { slot: first, leaf }),
                    Form::Parts { .. } => unreachable!(),
                }
            }
        }
    }

    /// Takes the leaf that is due next: the kind that is due, or in place of a Composite its first base. `more` tells
    /// whether words are left of the instruction, or operands in the encoder: an item that may be absent is so exactly
    /// where none are. None where nothing is due.
    ///
    /// An `AllocError` comes only where a growth of memory was refused, and then nothing is said of what is left.
    #[inline(always)]
    pub fn next_leaf(
        &mut self,
        table: &'t Table,
        forms: &[Form],
        more: bool,
    ) -> Result<Option<Asked>, AllocError>
        requires { forms.now ≡ map form_of table.now.kinds }
        ensures leaf { IfOk result (λ o. IfSome o
            (λ a. form_at (kind_of table.now a.slot.kind) ≡ LeafForm a.leaf)) }
        ensures due { IfOk result (λ o. MatchOption o (settled more (pending_due table.now self.old) ≡ [])
            (λ a. LeadsTo table.now (settled more (pending_due table.now self.old)) (plain_slot a.slot)
            (pending_due table.now self.new))) }
    {
        let Some(slot) = self.next_due(table, more)? else {
            return Ok(None);
        };
        let asked = self.leaf_of(table, forms, slot)?;
        Ok(Some(asked))
    }

    /// Goes on after an operand: the parameters of its enumerant, or of the set bits of its mask, are due next, those
    /// of the smaller bit first (SPIR-V Specification 1.6, section 3, Memory Operands). An enumerant or a bit that the
    /// kind has not has none, nor has an operand that is no value and no mask.
    ///
    /// An `AllocError` comes only where a growth of memory was refused, and then nothing is said of what is left.
    #[inline(always)]
    pub fn open(&mut self, table: &'t Table, operand: &Operand<'_>) -> Result<(), AllocError>
        ensures { OnOk result (pending_due table.now self.new
            ≡ map OneOf (map alone (opened_kinds table.now (plain_operand operand.now)))
            ++ pending_due table.now self.old) }
    {
        match operand {
            Operand::Value { kind, value } => {
                let left = parameters_in(table, *kind, *value);
                if !left.is_empty() {
                    self.frames.push(Frame::Kinds {
                        left,
                        paired: false,
                    })?;
                }
            }
            Operand::Mask { kind, value } => {
                self.frames.push(Frame::Bits {
                    kind: *kind,
                    mask: *value,
                    position: 0,
                })?;
            }
            Operand::OfType(_)
            | Operand::Result(_)
            | Operand::Id(_)
            | Operand::Word(_)
            | Operand::Number { .. }
            | Operand::Text(_)
            | Operand::Argument(_)
            | Operand::Mention(_) => {}
        }
        Ok(())
    }
}
