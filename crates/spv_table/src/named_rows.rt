//! Finds rows by the names that they tell.

ghost use Rattle.std.specs.Prelude.{◌≡◌, ◌↔◌, [], IsTrue, map, position, MatchOption};
ghost use Rattle.std.specs.Str.{IsAscii, bytes_eq};
ghost use Rattle.spv_table.specs.inner.Named.{BearsAt, NoneBears, IsFirstBearer, Finds};
ghost use Rattle.spv_table.specs.inner.Rows.{told};

use crate::named::{NEAR, slot_of};
use crate::row::NamedRow;

/// Whether a place is that of a row with a name.
fn bears<R: NamedRow>(text: &str, rows: &[R], place: u32, name: &str) -> bool
    requires { IsAscii text.now }
    ensures { IsTrue result ↔ BearsAt (map (told text.now R.span) rows.now) name.now place }
{
    match rows.get(place as usize) {
        Some(row) => row.span().of(text) == name,
        None => false,
    }
}

/// Which of some slots holds the place of a row with a name; the first, if several do.
fn bearer<R: NamedRow>(slots: &[u32], text: &str, rows: &[R], name: &str) -> Option<usize>
    requires { IsAscii text.now }
    ensures { MatchOption result (NoneBears (map (told text.now R.span) rows.now) slots.now name.now)
        (IsFirstBearer (map (told text.now R.span) rows.now) slots.now name.now) }
{
    for (slot, place) in slots.iter().enumerate() {
        if bears(text, rows, *place, name) {
            return Some(slot);
        }
    }
    None
}

/// The first place of a name among those that rows tell, each of which is in a slot.
pub(crate) fn place_among<R: NamedRow>(
    text: &str,
    rows: &[R],
    slots: &[u32],
    name: &str,
) -> Option<usize>
    requires ascii { IsAscii text.now }
    requires finds { Finds (told text.now R.span) rows.now (record { slots = slots.now; others = [] }) }
    ensures { result ≡ position (λ r. bytes_eq name.now (told text.now R.span r)) rows.now }
{
    let slot = slot_of(slots.len() - NEAR, name);
    let near = &slots[slot..slot + NEAR];
    match bearer(near, text, rows, name) {
        Some(taken) => Some(near[taken] as usize),
        None => None,
    }
}
