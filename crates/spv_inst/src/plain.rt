//! Operands of one word.

ghost use Rattle.std.specs.Prelude.{◌≡◌, ℕ, ◌∷◌, [], true, IfSome, MatchOption};
ghost use Rattle.spv_table.specs.Table.{Table, kind_of};
ghost use Rattle.spv_table.specs.declared.form.Form.TheVariants.{Leaf as LeafForm};
ghost use Rattle.spv_table.specs.inner.Form.{form_at};
ghost use Rattle.spv_module.specs.Operand.{Context};
ghost use Rattle.spv_module.specs.Module.{plain_operand};
ghost use Rattle.spv_module.specs.Shape.{alone, shape_of};
ghost use Rattle.spv_module.specs.Spelling.{Takes};
ghost use Rattle.spv_inst.specs.inner.Pending.{settled, due_first};
ghost use Rattle.spv_inst.specs.Flat.{OneOf};

use crate::items::DueItems;
use spv_module::Operand;
use spv_table::{Form, Leaf};

/// What is left of an instruction after some operands.
#[derive(Clone, Copy)]
pub struct Rest<'t> {
    /// The kinds of parameters that are due first, in order.
    pub kinds: &'t [u32],
    /// The items of its pattern that are due after them.
    pub items: DueItems<'t>,
    /// The number of the next word in the module, from 0.
    pub at: u32,
}

/// The kind that is due next, and what is due after it.
#[derive(Clone, Copy)]
pub struct Next<'t> {
    pub kind: u32,
    /// The kinds of parameters that are due after it, in order.
    pub kinds: &'t [u32],
    /// The items of the pattern that are due after these.
    pub items: DueItems<'t>,
}

/// The next kind that is due of kinds in order and a pattern after them, where words are left (`more`) or not.
#[inline(always)]
pub fn next_kind<'t>(kinds: &'t [u32], items: DueItems<'t>, more: bool) -> Option<Next<'t>>
    ensures { MatchOption result (settled more (due_first kinds.now items.entry.left.now) ≡ [])
        (λ n. settled more (due_first kinds.now items.entry.left.now) ≡ OneOf (alone n.kind)
        ∷ due_first n.kinds.now n.items.left.now) }
{
    if let Some((kind, kinds)) = kinds.split_first() {
        return Some(Next {
            kind: *kind,
            kinds,
            items,
        });
    }
    match items.next_item(more) {
        Some((kind, items)) => Some(Next { kind, kinds, items }),
        None => None,
    }
}

/// The operand that a word is, where a kind asks for an id or a literal of one word.
#[inline(always)]
fn bare_word<'a>(leaf: Leaf, word: u32) -> Option<Operand<'a>>
    ensures { (G : Table) (c : Context) (kind : ℕ) → form_at (kind_of G kind) ≡ LeafForm leaf
        → IfSome result (λ o. Takes kind (shape_of G c (alone kind)) (plain_operand o) (word ∷ []) []) }
{
    match leaf {
        Leaf::ResultType => Some(Operand::OfType(word)),
        Leaf::Result => Some(Operand::Result(word)),
        Leaf::Id => Some(Operand::Id(word)),
        Leaf::Integer => Some(Operand::Word(word)),
        Leaf::Word => Some(Operand::Word(word)),
        Leaf::ContextNumber | Leaf::Text | Leaf::Value | Leaf::Mask | Leaf::Nothing => None,
    }
}

/// The same, where the kind has that form.
#[inline(always)]
pub fn bare_in_form<'a>(form: Form, word: u32) -> Option<Operand<'a>>
    ensures { (G : Table) (c : Context) (kind : ℕ) → form ≡ form_at (kind_of G kind)
        → IfSome result (λ o. Takes kind (shape_of G c (alone kind)) (plain_operand o) (word ∷ []) []) }
{
    match form {
        Form::Leaf(leaf) => bare_word(leaf, word),
        Form::Parts { .. } => None,
    }
}

/// The next kind that is due of kinds in order and a pattern after them, where words are left and it comes once at
/// most.
#[inline(always)]
pub fn next_single<'t>(rest: Rest<'t>) -> Option<Next<'t>>
    ensures { IfSome result
        (λ n. settled true (due_first rest.entry.kinds.now rest.entry.items.left.now) ≡ OneOf (alone n.kind)
        ∷ due_first n.kinds.now n.items.left.now) }
{
    if let Some((kind, kinds)) = rest.kinds.split_first() {
        return Some(Next {
            kind: *kind,
            kinds,
            items: rest.items,
        });
    }
    match rest.items.next_single() {
        Some((kind, items)) => Some(Next {
            kind,
            kinds: rest.kinds,
            items,
        }),
        None => None,
    }
}
