//! The enumerants of a kind that a table has made.

ghost use Rattle.std.specs.Prelude.{◌≡◌, ◌<◌, ◌≤◌, ◌^◌, ℕ, List, length, option_map};
ghost use Rattle.std.specs.Prelude.{option_and_then, position, slice_get, slice_index_or, IfOk, IsTrue, MatchOption};
ghost use Rattle.std.specs.List.Sorted.{IsNonDecreasingBy};
ghost use Rattle.std.specs.Str.{bytes_eq};
ghost use Rattle.std.specs.BTreeMap as tree;
ghost use Rattle.std.specs.Ordering.{nat_cmp};
ghost use Rattle.spv_table.specs.Table.{enumerant_of};
ghost use Rattle.spv_table.specs.Lookups.{value_named};
ghost use Rattle.spv_table.specs.inner.Named.{FindsAny};

use crate::named::{Named, Names};
use crate::places::widen;
use crate::table::Enumerant;
use std::alloc::{AllocError, Global};
use std::collections::BTreeMap;
use std::marker::Model;

/// Enumerants, and where they are by their values and names. Contracts see the list of them.
#[derive(Drop)]
pub(crate) struct EnumerantList {
    enumerants: Vec<Enumerant>,
    /// For each value below `SMALL` the place of the first enumerant that has it. 4,294,967,295 stands where none has
    /// it, and the list may end before.
    near: Vec<u32>,
    /// The place of the first enumerant with a greater value; nothing where the values of the list never go down.
    far: Option<BTreeMap<u32, usize>>,
    /// Where the names of the enumerants are; nothing where there are fewer than `FEW`.
    names: Option<Names>,
}

impl Model for EnumerantList {
    ghost use Rattle.std.specs.Prelude.{◌≡◌, ◌<◌, ◌≤◌, ℕ, List, option_and_then, slice_get};
    ghost use Rattle.std.specs.Prelude.{slice_index_or, MatchOption};
    ghost use Rattle.std.specs.List.Sorted.{IsNonDecreasingBy};
    ghost use Rattle.std.specs.BTreeMap as tree;
    ghost use Rattle.std.specs.Ordering.{nat_cmp};
    ghost use Rattle.spv_table.specs.declared.table.Enumerant as declared;

    ghost Value = { List declared.Enumerant };

    ghost use Rattle.spv_table.specs.Table.{enumerant_of};
    ghost use Rattle.spv_table.specs.inner.Named.{FindsAny};

    ghost view = { λ s. s.enumerants.items };

    ghost invariant = { λ s. ((v : ℕ) → v < 64
        → slice_get s.enumerants.items (slice_index_or s.near.items v 4294967295)
        ≡ enumerant_of s.enumerants.items v)
        × MatchOption s.far (IsNonDecreasingBy (λ e. e.value) s.enumerants.items) (λ places. (v : ℕ) → 64 ≤ v
        → option_and_then (slice_get s.enumerants.items) (tree.get nat_cmp places v)
        ≡ enumerant_of s.enumerants.items v)
        × FindsAny (λ e. e.name) s.enumerants.items s.names };
}

/// Below which number a value has a place in a list of its own.
pub(crate) const SMALL: u32 = 64;

/// Of fewer enumerants than this the names are gone through.
const FEW: usize = 8;

/// For each value below `SMALL` the place of the first enumerant that has it.
fn near_places(alloc: Global, enumerants: &[Enumerant]) -> Result<Vec<u32>, AllocError>
    requires { length enumerants.now < 2 ^ 32 }
    ensures { IfOk result (λ places. (v : ℕ) → v < 64
        → slice_get enumerants.now (slice_index_or places.items v 4294967295) ≡ enumerant_of enumerants.now v) }
{
    let mut places = Vec::new(alloc);
    for i in (0..enumerants.len()).rev() {
        let value = enumerants[i].value;
        if value < SMALL {
            widen(&mut places, value)?;
            places[value as usize] = i as u32;
        }
    }
    Ok(places)
}

/// Whether the values never go down.
fn are_ordered(enumerants: &[Enumerant]) -> bool
    ensures { IsTrue result → IsNonDecreasingBy (λ e. e.value) enumerants.now }
{
    let mut last = 0;
    for enumerant in enumerants {
        if enumerant.value < last {
            return false;
        }
        last = enumerant.value;
    }
    true
}

/// The first enumerant with a value, where the values never go down.
fn ordered(enumerants: &[Enumerant], value: u32) -> Option<&Enumerant>
    requires { IsNonDecreasingBy (λ e. e.value) enumerants.now }
    ensures { option_map (λ e. e.now) result ≡ enumerant_of enumerants.now value }
{
    let place = enumerants.partition_point(|e| e.value < value);
    match enumerants.get(place) {
        Some(enumerant) => {
            if enumerant.value == value {
                Some(enumerant)
            } else {
                None
            }
        }
        None => None,
    }
}

/// For each value from `SMALL` on the place of the first enumerant that has it.
fn far_map(alloc: Global, enumerants: &[Enumerant]) -> Result<BTreeMap<u32, usize>, AllocError>
    ensures { IfOk result (λ places. (v : ℕ) → 64 ≤ v
        → option_and_then (slice_get enumerants.now) (tree.get nat_cmp places v) ≡ enumerant_of enumerants.now v) }
{
    let mut places = BTreeMap::new(alloc);
    for i in (0..enumerants.len()).rev() {
        let value = enumerants[i].value;
        if value >= SMALL {
            places.insert(value, i)?;
        }
    }
    Ok(places)
}

/// The same, but nothing where the values never go down.
fn far_places(
    alloc: Global,
    enumerants: &[Enumerant],
) -> Result<Option<BTreeMap<u32, usize>>, AllocError>
    ensures { IfOk result (λ far. MatchOption far (IsNonDecreasingBy (λ e. e.value) enumerants.now)
        (λ places. (v : ℕ) → 64 ≤ v
        → option_and_then (slice_get enumerants.now) (tree.get nat_cmp places v) ≡ enumerant_of enumerants.now v)) }
{
    if are_ordered(enumerants) {
        return Ok(None);
    }
    Ok(Some(far_map(alloc, enumerants)?))
}

/// Where the names of enumerants are; nothing where they are few.
fn names_of(alloc: Global, enumerants: &[Enumerant]) -> Result<Option<Names>, AllocError>
    requires { length enumerants.now < 2 ^ 32 }
    ensures { IfOk result (FindsAny (λ e. e.name) enumerants.now) }
{
    if enumerants.len() < FEW {
        return Ok(None);
    }
    Ok(Some(Names::of(alloc, enumerants)?))
}

/// The place of the first enumerant with a name.
fn place_of(names: &Option<Names>, enumerants: &[Enumerant], name: &str) -> Option<usize>
    requires { FindsAny (λ e. e.name) enumerants.now names.now }
    ensures { result ≡ position (λ e. bytes_eq name.now e.name) enumerants.now }
{
    match names {
        Some(names) => names.place(enumerants, name),
        None => enumerants.iter().position(|e| e.name.as_str() == name),
    }
}

impl Named for Enumerant {
    ghost name = { λ e. e.name };

    fn name(&self) -> &str {
        self.name.as_str()
    }
}

impl EnumerantList {
    /// The list of enumerants. The error is that memory ran out, or places: there may be 4,294,967,295.
    pub(crate) fn new(
        alloc: Global,
        enumerants: Vec<Enumerant>,
    ) -> Result<EnumerantList, AllocError>
        ensures { IfOk result (λ l. l ≡ enumerants.items) }
    {
        if enumerants.len() > 0xffff_ffff {
            return Err(AllocError);
        }
        let near = near_places(alloc, enumerants.as_slice())?;
        let far = far_places(alloc, enumerants.as_slice())?;
        let names = names_of(alloc, enumerants.as_slice())?;
        Ok(EnumerantList {
            enumerants,
            near,
            far,
            names,
        })
    }

    /// The enumerants, in order.
    #[inline(always)]
    pub(crate) fn as_slice(&self) -> &[Enumerant]
        ensures { result.now ≡ self.now }
    {
        self.enumerants.as_slice()
    }

    /// The first enumerant with a value: in constant time where the value is below `SMALL`.
    #[inline(always)]
    pub(crate) fn enumerant(&self, value: u32) -> Option<&Enumerant>
        ensures { option_map (λ e. e.now) result ≡ enumerant_of self.now value }
    {
        if value < SMALL {
            let place = match self.near.get(value as usize) {
                Some(place) => *place,
                None => u32::MAX,
            };
            return self.enumerants.get(place as usize);
        }
        match &self.far {
            Some(far) => self.enumerants.get(*far.get(&value)?),
            None => ordered(self.enumerants.as_slice(), value),
        }
    }

    /// The value of the first enumerant with a name.
    pub(crate) fn value(&self, name: &str) -> Option<u32>
        ensures { result ≡ value_named self.now name.now }
    {
        let place = place_of(&self.names, self.enumerants.as_slice(), name)?;
        match self.enumerants.get(place) {
            Some(enumerant) => Some(enumerant.value),
            None => None,
        }
    }
}
