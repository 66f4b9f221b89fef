//! The fronts of patterns: operands that are told by how many there are.

ghost use Rattle.std.specs.Prelude.{◌≡◌, ◌<◌, ◌≤◌, length, map, slice_index_or, IfOk, IsTrue};
ghost use Rattle.spv_table.specs.Table as spec;
ghost use Rattle.spv_table.specs.inner.Form.{form_of};
ghost use Rattle.spv_table.specs.inner.Front as inner;
ghost use Rattle.spv_table.specs.inner.Front.{items_in};

use crate::form::{Form, Leaf, form_in};
use crate::results::{is_always, is_result};
use crate::table::{Entry, Item, Quantifier};
use std::alloc::{AllocError, Global};

/// What a pattern begins with.
#[derive(Clone, Copy)]
pub enum Head {
    /// No result.
    Nothing,
    /// The id of the result.
    Result,
    /// The id of the result's type, and then that of the result.
    TypeAndResult,
}

/// The front of a pattern: its head, and then ids.
#[derive(Clone, Copy)]
pub struct Front {
    pub head: Head,
    /// How many items the pattern begins with that are of the head, or an id that comes once at most. 255 stands for
    /// 255 or more.
    pub singles: u8,
    /// Whether ids that come any number of times follow.
    pub repeated: bool,
    /// How many operands there are at least. 255 stands for 255 or more, and for a pattern that has no front.
    pub least: u8,
}

impl Front {
    /// The front of a pattern that has none: it takes no operands.
    pub(crate) fn none() -> Front
        ensures { result ≡ inner.no_front }
    {
        Front {
            head: Head::Nothing,
            singles: 0,
            repeated: false,
            least: 255,
        }
    }

    /// Whether the front takes so many operands, and no more is due after them.
    #[inline(always)]
    pub fn takes(self, count: u32) -> bool
        ensures { result ≡ inner.is_taken self count }
    {
        u32::from(self.least) <= count && (self.repeated || count <= u32::from(self.singles))
    }
}

/// What items ask for, as far as they are ids.
#[derive(Clone, Copy)]
struct Ids {
    /// How many they begin with that come once at most. 255 stands for 255 or more.
    singles: u8,
    /// Whether ids that come any number of times follow.
    repeated: bool,
    /// How many operands there are at least. 255 stands for 255 or more, and where an item has to be there behind one
    /// that takes all.
    least: u8,
}

/// Whether a kind is an id that is neither that of a result nor that of its type.
fn is_id(forms: &[Form], kind: u32) -> bool
    ensures { (G : spec.Table) → forms.now ≡ map form_of G.kinds → result ≡ inner.is_id_kind G kind }
{
    match form_in(forms, kind) {
        Form::Leaf(leaf) => match leaf {
            Leaf::Id => true,
            _ => false,
        },
        Form::Parts { .. } => false,
    }
}

/// Whether a kind is that of a result's type.
fn is_type(forms: &[Form], kind: u32) -> bool
    ensures { (G : spec.Table) → forms.now ≡ map form_of G.kinds → result ≡ inner.is_type_kind G kind }
{
    match form_in(forms, kind) {
        Form::Leaf(leaf) => match leaf {
            Leaf::ResultType => true,
            _ => false,
        },
        Form::Parts { .. } => false,
    }
}

/// What an item and others behind it ask for.
fn ids_before(forms: &[Form], item: Item, ids: Ids) -> Ids
    ensures { (G : spec.Table) → forms.now ≡ map form_of G.kinds
        → result ≡ inner.ids_before G (spec.quantified item.quantifier item.kind) ids }
{
    let is_id = is_id(forms, item.kind);
    let singles = if is_id {
        ids.singles.saturating_add(1)
    } else {
        0
    };
    match item.quantifier {
        Quantifier::One => Ids {
            singles,
            repeated: is_id && ids.repeated,
            least: ids.least.saturating_add(1),
        },
        Quantifier::Maybe => Ids {
            singles,
            repeated: is_id && ids.repeated,
            least: if ids.least == 0 {
                0
            } else {
                ids.least.saturating_add(1)
            },
        },
        Quantifier::Many => Ids {
            singles: 0,
            repeated: is_id,
            least: if ids.least == 0 { 0 } else { 255 },
        },
    }
}

/// What items ask for.
fn ids_of(forms: &[Form], items: &[Item]) -> Ids
    ensures { (G : spec.Table) → forms.now ≡ map form_of G.kinds → result ≡ inner.ids_in G (items_in items.now) }
{
    let mut ids = Ids {
        singles: 0,
        repeated: false,
        least: 0,
    };
    for i in (0..items.len()).rev() {
        ids = ids_before(forms, items[i], ids);
    }
    ids
}

/// Whether items begin with a result.
fn begin_with_result(forms: &[Form], items: &[Item]) -> bool
    ensures is { (G : spec.Table) → forms.now ≡ map form_of G.kinds
        → result ≡ inner.begin_with_result G (items_in items.now) }
    ensures some { IsTrue result → 0 < length items.now }
{
    match items.first() {
        Some(item) => is_always(item.quantifier) && is_result(forms, item.kind),
        None => false,
    }
}

/// What a pattern begins with.
fn head_of(forms: &[Form], items: &[Item]) -> Head
    ensures is { (G : spec.Table) → forms.now ≡ map form_of G.kinds → result ≡ inner.head_in G (items_in items.now) }
    ensures within { inner.head_len result ≤ length items.now }
{
    if begin_with_result(forms, items) {
        return Head::Result;
    }
    let Some((first, behind)) = items.split_first() else {
        return Head::Nothing;
    };
    if is_always(first.quantifier)
        && is_type(forms, first.kind)
        && begin_with_result(forms, behind)
    {
        return Head::TypeAndResult;
    }
    Head::Nothing
}

/// How many operands a head has.
fn head_len(head: Head) -> u8
    ensures { result ≡ inner.head_len head }
{
    match head {
        Head::Nothing => 0,
        Head::Result => 1,
        Head::TypeAndResult => 2,
    }
}

/// The front that has a head, and what the items behind it ask for.
fn front_with(head: Head, ids: Ids) -> Front
    ensures { result ≡ inner.front_with head ids }
{
    let count = head_len(head);
    let least = ids.least.saturating_add(count);
    if least == 255 {
        return Front::none();
    }
    Front {
        head,
        singles: ids.singles.saturating_add(count),
        repeated: ids.repeated,
        least,
    }
}

/// The front of a pattern.
fn front_of(forms: &[Form], items: &[Item]) -> Front
    ensures { (G : spec.Table) → forms.now ≡ map form_of G.kinds → result ≡ inner.front_of G (items_in items.now) }
{
    let head = head_of(forms, items);
    let count = usize::from(head_len(head));
    front_with(head, ids_of(forms, &items[count..]))
}

/// The front of the pattern of the entry at a place: of no pattern where there is none.
fn front_of_place(forms: &[Form], entries: &[(u16, Entry)], place: u32) -> Front
    ensures { (G : spec.Table) → forms.now ≡ map form_of G.kinds → result ≡ inner.place_front G entries.now place }
{
    match entries.get(place as usize) {
        Some((_, entry)) => front_of(forms, entry.operands.as_slice()),
        None => Front::none(),
    }
}

/// The fronts of the patterns of entries, by their places.
pub(crate) fn fronts_of(
    alloc: Global,
    forms: &[Form],
    places: &[u32],
    entries: &[(u16, Entry)],
) -> Result<Vec<Front>, AllocError>
    ensures { IfOk result (λ v. (G : spec.Table) → forms.now ≡ map form_of G.kinds
        → v.items ≡ map (inner.place_front G entries.now) places.now) }
{
    let mut fronts = Vec::with_capacity(alloc, places.len())?;
    for place in places {
        fronts.push(front_of_place(forms, entries, *place))?;
    }
    Ok(fronts)
}

/// The front at a place of a list: of no pattern where it has none.
#[inline(always)]
pub(crate) fn front_in(fronts: &[Front], place: u16) -> Front
    ensures { result ≡ slice_index_or fronts.now place inner.no_front }
{
    match fronts.get(usize::from(place)) {
        Some(front) => *front,
        None => Front::none(),
    }
}
