//! The items of a pattern that are due.

ghost use Rattle.std.specs.Prelude.{◌≡◌, ◌∷◌, [], true, false, map, IfSome, IsTrue, MatchOption};
ghost use Rattle.spv_table.specs.inner.Pattern.{EndsOptional};
ghost use Rattle.spv_module.specs.Shape.{alone};
ghost use Rattle.spv_inst.specs.Flat.{OneOf, due};
ghost use Rattle.spv_inst.specs.inner.Items.{items_of, settled};

use spv_table::{Item, PatternRef, Quantifier};

/// The items of a pattern that are due, from one of them on.
#[derive(Clone, Copy)]
pub struct DueItems<'t> {
    left: &'t [Item],
    /// How many items at the end of the pattern are optional.
    optional: usize,
    ghost ends: { EndsOptional optional left.now },
}

impl<'t> DueItems<'t> {
    /// No item.
    pub fn none() -> DueItems<'t>
        ensures { result.left.now ≡ [] }
    {
        DueItems {
            left: &[],
            optional: 0,
        }
    }

    /// All items of a pattern.
    #[inline(always)]
    pub fn of(pattern: &PatternRef<'t>) -> DueItems<'t>
        ensures { result.left.now ≡ pattern.now }
    {
        DueItems {
            left: pattern.as_slice(),
            optional: pattern.optional(),
        }
    }

    /// The kind of the next item, where words are left, and what is due after it.
    #[inline(always)]
    fn next_present(self) -> Option<(u32, DueItems<'t>)>
        ensures { MatchOption result (settled true (map due (items_of self.entry.left.now)) ≡ [])
            (λ p. settled true (map due (items_of self.entry.left.now)) ≡ OneOf (alone p.0)
            ∷ map due (items_of p.1.left.now)) }
    {
        let Some((item, left)) = self.left.split_first() else {
            return None;
        };
        match item.quantifier {
            Quantifier::One | Quantifier::Maybe => {
                let items = DueItems {
                    left,
                    optional: self.optional,
                };
                Some((item.kind, items))
            }
            Quantifier::Many => Some((item.kind, self)),
        }
    }

    /// The kind of the next item, where words are left and it comes once at most, and what is due after it.
    #[inline(always)]
    pub(crate) fn next_single(self) -> Option<(u32, DueItems<'t>)>
        ensures { IfSome result
            (λ p. settled true (map due (items_of self.entry.left.now)) ≡ OneOf (alone p.0)
            ∷ map due (items_of p.1.left.now)) }
    {
        let Some((item, left)) = self.left.split_first() else {
            return None;
        };
        match item.quantifier {
            Quantifier::One | Quantifier::Maybe => {
                let items = DueItems {
                    left,
                    optional: self.optional,
                };
                Some((item.kind, items))
            }
            Quantifier::Many => None,
        }
    }

    /// The kind of the next item, where it comes any number of times: after one operand of it the same is due.
    #[inline(always)]
    pub(crate) fn repeated(self) -> Option<u32>
        ensures { IfSome result
            (λ k. settled true (map due (items_of self.entry.left.now)) ≡ OneOf (alone k)
            ∷ map due (items_of self.entry.left.now)) }
    {
        let Some((item, _)) = self.left.split_first() else {
            return None;
        };
        match item.quantifier {
            Quantifier::Many => Some(item.kind),
            Quantifier::One | Quantifier::Maybe => None,
        }
    }

    /// Whether each item left is optional, so that none is due where no word is left.
    #[inline(always)]
    pub(crate) fn are_optional(self) -> bool
        ensures { IsTrue result → settled false (map due (items_of self.entry.left.now)) ≡ [] }
    {
        self.left.len() <= self.optional
    }

    /// The kind of the next item that is not optional, and what is due after it.
    fn next_required(self) -> Option<(u32, DueItems<'t>)>
        ensures { MatchOption result (settled false (map due (items_of self.entry.left.now)) ≡ [])
            (λ p. settled false (map due (items_of self.entry.left.now)) ≡ OneOf (alone p.0)
            ∷ map due (items_of p.1.left.now)) }
    {
        if self.are_optional() {
            return None;
        }
        for (index, item) in self.left.iter().enumerate() {
            match item.quantifier {
                Quantifier::One => {
                    let left = &self.left[index + 1..];
                    let items = DueItems {
                        left,
                        optional: self.optional,
                    };
                    return Some((item.kind, items));
                }
                Quantifier::Maybe | Quantifier::Many => {}
            }
        }
        None
    }

    /// The kind of the next item that is due, where words are left (`more`) or not, and what is due after it: in
    /// constant time where there is none.
    #[inline(always)]
    pub fn next_item(self, more: bool) -> Option<(u32, DueItems<'t>)>
        ensures { MatchOption result (settled more (map due (items_of self.entry.left.now)) ≡ [])
            (λ p. settled more (map due (items_of self.entry.left.now)) ≡ OneOf (alone p.0)
            ∷ map due (items_of p.1.left.now)) }
    {
        if more {
            self.next_present()
        } else {
            self.next_required()
        }
    }
}
