ghost use Rattle.std.specs.Prelude.{◌≡◌, ◌≤◌, length};
ghost use Rattle.spv_table.specs.inner.Pattern.{EndsOptional};

use crate::table::{Item, Quantifier};
use std::marker::Model;

/// A pattern of operands, which does not change. Contracts see it as the list of its items.
#[derive(Drop)]
pub struct Pattern {
    items: Vec<Item>,
    /// How many items at the end are optional.
    optional: usize,
}

impl Model for Pattern {
    ghost use Rattle.std.specs.Prelude.{◌≤◌, List, length};
    ghost use Rattle.spv_table.specs.declared.table.Item as declared;
    ghost use Rattle.spv_table.specs.inner.Pattern.{EndsOptional};

    ghost Value = { List declared.Item };

    ghost view = { λ p. p.items.items };

    ghost invariant = { λ p. (p.optional ≤ length p.items.items) × EndsOptional p.optional p.items.items };
}

/// How many items at the end are optional.
fn optional_in(items: &[Item]) -> usize
    ensures within { result ≤ length items.now }
    ensures optional { EndsOptional result items.now }
{
    let mut optional = 0;
    for i in (0..items.len()).rev() {
        match items[i].quantifier {
            Quantifier::One => return optional,
            Quantifier::Maybe | Quantifier::Many => optional += 1,
        }
    }
    optional
}

impl Pattern {
    /// The pattern of a vector's items. It takes no memory.
    pub fn from_vec(items: Vec<Item>) -> Pattern
        ensures { result ≡ items.items }
    {
        let optional = optional_in(items.as_slice());
        Pattern { items, optional }
    }

    /// The items, in order.
    pub(crate) fn as_slice(&self) -> &[Item]
        ensures { result.now ≡ self.now }
    {
        self.items.as_slice()
    }

    /// The pattern, looked at.
    #[inline(always)]
    pub(crate) fn seen(&self) -> PatternRef<'_>
        ensures { result ≡ self.now }
    {
        PatternRef {
            items: self.items.as_slice(),
            optional: self.optional,
        }
    }
}

/// A pattern of operands, looked at where it lies. Contracts see it as the list of its items.
#[derive(Drop)]
pub struct PatternRef<'t> {
    items: &'t [Item],
    /// How many items at the end are optional.
    optional: usize,
}

impl<'t> Model for PatternRef<'t> {
    ghost use Rattle.std.specs.Prelude.{◌≤◌, List, length};
    ghost use Rattle.spv_table.specs.declared.table.Item as declared;
    ghost use Rattle.spv_table.specs.inner.Pattern.{EndsOptional};

    ghost Value = { List declared.Item };

    ghost view = { λ p. p.items.now };

    ghost invariant = { λ p. (p.optional ≤ length p.items.now) × EndsOptional p.optional p.items.now };
}

impl<'t> PatternRef<'t> {
    /// The pattern of items, so many of which are optional at the end.
    #[inline(always)]
    pub(crate) fn of(items: &'t [Item], optional: usize) -> PatternRef<'t>
        requires within { optional ≤ length items.now }
        requires optional { EndsOptional optional items.now }
        ensures { result ≡ items.now }
    {
        PatternRef { items, optional }
    }

    /// The same pattern once more.
    #[inline(always)]
    pub fn again(&self) -> PatternRef<'t>
        ensures { result ≡ self.now }
    {
        PatternRef {
            items: self.items,
            optional: self.optional,
        }
    }

    /// The items, in order.
    #[inline(always)]
    pub fn as_slice(&self) -> &'t [Item]
        ensures { result.now ≡ self.now }
    {
        self.items
    }

    /// How many items at its end are optional: those behind the last one that has to be there.
    #[inline(always)]
    pub fn optional(&self) -> usize
        ensures within { result ≤ length self.now }
        ensures optional { EndsOptional result self.now }
    {
        self.optional
    }
}
