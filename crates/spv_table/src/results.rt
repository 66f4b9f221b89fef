//! Which patterns have the id of a result.

ghost use Rattle.std.specs.Prelude.{◌≡◌, List, map, IfOk};
ghost use Rattle.spv_table.specs.Table as spec;
ghost use Rattle.spv_table.specs.inner.Form.{form_of};
ghost use Rattle.spv_table.specs.inner.Results.{is_one, is_result_kind, results_in, results_of};

use crate::form::{Form, Leaf, form_in};
use crate::table::{Entry, Item, Quantifier};
use std::alloc::{AllocError, Global};

/// Whether a pattern has a result.
#[derive(Clone, Copy)]
pub struct Results {
    /// Among the items that are always there.
    pub always: bool,
    /// Among all items.
    pub ever: bool,
}

/// Whether a kind is that of a result.
pub(crate) fn is_result(forms: &[Form], kind: u32) -> bool
    ensures { (G : spec.Table) → forms.now ≡ map form_of G.kinds → result ≡ is_result_kind G kind }
{
    match form_in(forms, kind) {
        Form::Leaf(leaf) => match leaf {
            Leaf::Result => true,
            _ => false,
        },
        Form::Parts { .. } => false,
    }
}

/// Whether an item is always there.
pub(crate) fn is_always(quantifier: Quantifier) -> bool
    ensures { result ≡ is_one quantifier }
{
    match quantifier {
        Quantifier::One => true,
        Quantifier::Maybe | Quantifier::Many => false,
    }
}

/// Whether a pattern has a result, by the forms of all kinds.
fn results_in_pattern(forms: &[Form], pattern: &[Item]) -> Results
    ensures { (G : spec.Table) → forms.now ≡ map form_of G.kinds
        → result ≡ results_in G (map (λ i. spec.quantified i.quantifier i.kind) pattern.now) }
{
    let mut always = false;
    let mut ever = false;
    for item in pattern {
        let is = is_result(forms, item.kind);
        always = always || is && is_always(item.quantifier);
        ever = ever || is;
    }
    Results { always, ever }
}

/// Of each entry whether its pattern has a result, in order.
pub(crate) fn results_of_entries(
    alloc: Global,
    forms: &[Form],
    entries: &[(u16, Entry)],
) -> Result<Vec<Results>, AllocError>
    ensures { IfOk result (λ v. (G : spec.Table) → forms.now ≡ map form_of G.kinds
        → v.items ≡ map (λ e. results_of G e.1) entries.now) }
{
    let mut results = Vec::with_capacity(alloc, entries.len())?;
    for (_, entry) in entries {
        results.push(results_in_pattern(forms, entry.operands.as_slice()))?;
    }
    Ok(results)
}
