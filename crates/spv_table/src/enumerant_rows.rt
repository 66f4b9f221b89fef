//! The enumerants of a kind that lie in the program, as rows.

ghost use Rattle.std.specs.Prelude.{◌≡◌, length, map, option_map, slice_get};
ghost use Rattle.std.specs.List.Sorted.{IsNonDecreasingBy};
ghost use Rattle.std.specs.Str.{IsAscii};
ghost use Rattle.spv_table.specs.Lookups.{value_named};
ghost use Rattle.spv_table.specs.Rows.{enumerant_in};
ghost use Rattle.spv_table.specs.Table.{enumerant_of, first_with};
ghost use Rattle.spv_table.specs.inner.Rows.{AreEnumerants, AreNear};

use crate::enumerant_list::SMALL;
use crate::enumerants::EnumerantRef;
use crate::named_rows::place_among;
use crate::row::EnumerantRow;
use crate::span::Span;
use std::marker::Model;

/// Enumerants that rows of the program tell, the slots that find their names, and for each value below `SMALL` the
/// place of the first row that has it. Contracts see the list of the enumerants.
#[derive(Drop)]
pub(crate) struct EnumerantRows {
    text: &'static str,
    numbers: &'static [u32],
    names: &'static [Span],
    rows: &'static [EnumerantRow],
    slots: &'static [u32],
    near: &'static [u32],
}

impl Model for EnumerantRows {
    ghost use Rattle.std.specs.Prelude.{List, map};
    ghost use Rattle.std.specs.Str.{IsAscii};
    ghost use Rattle.spv_table.specs.declared.table.Enumerant as declared;
    ghost use Rattle.spv_table.specs.Rows.{enumerant_in};
    ghost use Rattle.spv_table.specs.inner.Rows.{AreEnumerants};

    ghost Value = { List declared.Enumerant };

    ghost view = { λ l. map (enumerant_in l.text.now l.numbers.now l.names.now) l.rows.now };

    ghost invariant = { λ l. IsAscii l.text.now × AreEnumerants l.text.now l.rows.now l.slots.now l.near.now };
}

/// The first row with a value, where the values never go down.
fn ordered(rows: &[EnumerantRow], value: u32) -> Option<&EnumerantRow>
    requires { IsNonDecreasingBy (λ r. r.0) rows.now }
    ensures { option_map (λ r. r.now) result ≡ first_with (λ r. r.0) value rows.now }
{
    let place = rows.partition_point(|r| r.0 < value);
    match rows.get(place) {
        Some(row) => { if row.0 == value { Some(row) } else { None } }
        None => None,
    }
}

/// The first row with a value: in constant time where the value is below `SMALL`.
#[inline(always)]
fn row_of<'t>(rows: &'t [EnumerantRow], near: &[u32], value: u32) -> Option<&'t EnumerantRow>
    requires ordered { IsNonDecreasingBy (λ r. r.0) rows.now }
    requires near { AreNear near.now rows.now }
    ensures { option_map (λ r. r.now) result ≡ first_with (λ r. r.0) value rows.now }
{
    if value < SMALL {
        let place = match near.get(value as usize) {
            Some(place) => *place,
            None => u32::MAX,
        };
        return rows.get(place as usize);
    }
    ordered(rows, value)
}

impl EnumerantRows {
    /// The enumerants that rows tell, whose values never go down, with the slots that find their names, and for each
    /// value below `SMALL` the place of the first row that has it.
    #[inline(always)]
    pub(crate) fn new(
        text: &'static str,
        numbers: &'static [u32],
        names: &'static [Span],
        rows: &'static [EnumerantRow],
        slots: &'static [u32],
        near: &'static [u32],
    ) -> EnumerantRows
        requires ascii { IsAscii text.now }
        requires are { AreEnumerants text.now rows.now slots.now near.now }
        ensures { result ≡ map (enumerant_in text.now numbers.now names.now) rows.now }
    {
        EnumerantRows {
            text,
            numbers,
            names,
            rows,
            slots,
            near,
        }
    }

    /// How many there are.
    pub(crate) fn len(&self) -> usize
        ensures { result ≡ length self.now }
    {
        self.rows.len()
    }

    /// The enumerant at a place, from 0.
    pub(crate) fn get(&self, place: usize) -> Option<EnumerantRef<'static>>
        ensures { result ≡ slice_get self.now place }
    {
        match self.rows.get(place) {
            Some(row) => Some(EnumerantRef::told(self.text, self.numbers, self.names, row)),
            None => None,
        }
    }

    /// The first enumerant with a value: in constant time where the value is below `SMALL`.
    #[inline(always)]
    pub(crate) fn enumerant(&self, value: u32) -> Option<EnumerantRef<'static>>
        ensures { result ≡ enumerant_of self.now value }
    {
        match row_of(self.rows, self.near, value) {
            Some(row) => Some(EnumerantRef::told(self.text, self.numbers, self.names, row)),
            None => None,
        }
    }

    /// The value of the first enumerant with a name.
    pub(crate) fn value(&self, name: &str) -> Option<u32>
        ensures { result ≡ value_named self.now name.now }
    {
        let place = place_among(self.text, self.rows, self.slots, name)?;
        match self.rows.get(place) {
            Some(row) => Some(row.0),
            None => None,
        }
    }
}
