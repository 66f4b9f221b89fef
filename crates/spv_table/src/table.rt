ghost use Rattle.std.specs.Prelude.{◌≡◌, ◌<◌, ◌^◌, ℕ, List, [], length, slice_get, slice_index_or};
ghost use Rattle.std.specs.Prelude.{min, take, map, option_map, option_and_then, IfOk};
ghost use Rattle.spv_table.specs.Table.{entry_of, kind_of, enumerant_of, first_with, IsWhole};
ghost use Rattle.spv_table.specs.Lookups.{opcode_named, value_named, number_named};
ghost use Rattle.std.specs.Str.{IsAscii};
ghost use Rattle.spv_table.specs.inner.Constants.{table_in};
ghost use Rattle.spv_table.specs.inner.Form.{form_of};
ghost use Rattle.spv_table.specs.inner.Front.{front_at, AreFronts};
ghost use Rattle.spv_table.specs.inner.Named.{Finds};
ghost use Rattle.spv_table.specs.inner.Places.{ArePlacesOf};
ghost use Rattle.spv_table.specs.inner.Results.{entry_has_result, results_of};
ghost use Rattle.spv_table.specs.inner.Rows.{told, AreCounted, AreKinds};

use crate::constants::Constants;
use crate::entries::{Entries, EntryRef};
use crate::enumerants::EnumerantRef;
use crate::form::{Form, forms_of};
use crate::front::{Front, front_in, fronts_of};
use crate::listed::{Listed, NameList};
use crate::name::Name;
use crate::named::Named;
use crate::pattern::{Pattern, PatternRef};
use crate::places::widen;
use crate::results::{Results, results_of_entries};
use crate::sort::{KindRef, Sort};
use crate::sorts::Sorts;
use std::alloc::{AllocError, Global};
use std::marker::Model;

/// How often an operand comes.
#[derive(Clone, Copy, PartialEq, Eq)]
pub enum Quantifier {
    /// Once.
    One,
    /// Once or not at all: `?`.
    Maybe,
    /// Any number of times: `*`.
    Many,
}

/// An operand of an entry's pattern.
#[derive(Clone, Copy)]
pub struct Item {
    /// The number of its kind.
    pub kind: u32,
    pub quantifier: Quantifier,
}

/// An instruction of the grammar file.
#[derive(Drop)]
pub struct Entry {
    pub name: Name,
    /// The pattern of its operands, in order.
    pub operands: Pattern,
    /// The names of the capabilities of which one is needed.
    pub capabilities: NameList,
}

/// What sort of operands a kind has.
#[derive(Clone, Copy, PartialEq, Eq)]
pub enum Category {
    BitEnum,
    ValueEnum,
    Id,
    Literal,
    Composite,
}

/// A kind of operands.
#[derive(Drop)]
pub struct Kind {
    pub name: Name,
    pub category: Category,
    /// The numbers of the kinds that a Composite is made of, in order; none for others.
    pub bases: Listed<u32>,
}

/// A value of a ValueEnum, or a bit of a BitEnum.
#[derive(Drop)]
pub struct Enumerant {
    pub name: Name,
    pub value: u32,
    /// The numbers of the kinds of its parameters, in order.
    pub parameters: Listed<u32>,
    /// The names of the capabilities of which one is needed.
    pub capabilities: NameList,
}

/// What a grammar file says. Contracts see its kinds and its entries, as lists.
#[derive(Drop)]
pub struct Table {
    sorts: Sorts,
    entries: Entries,
    /// For each opcode the place of its first entry. 4,294,967,295 stands where it has none, and the list ends with the
    /// greatest opcode that has one.
    places: Listed<u32>,
    /// The form of each kind.
    forms: Listed<Form>,
    /// Of each entry whether its pattern has a result.
    results: Listed<Results>,
    /// For each opcode below `FRONTED` the front of its pattern, as far as `places` goes.
    fronts: Listed<Front>,
}

impl Model for Table {
    ghost use Rattle.std.specs.Prelude.{◌≡◌, map};
    ghost use Rattle.spv_table.specs.Table.{Table};

    ghost Value = { Table };

    ghost use Rattle.spv_table.specs.Table.{IsWhole};
    ghost use Rattle.spv_table.specs.inner.Places.{ArePlacesOf};
    ghost use Rattle.spv_table.specs.inner.Form.{form_of};
    ghost use Rattle.spv_table.specs.inner.Front.{AreFronts};
    ghost use Rattle.spv_table.specs.inner.Results.{results_of};

    ghost view = { λ t. record { kinds = t.sorts; entries = t.entries } };

    ghost invariant = { λ t. IsWhole (record { kinds = t.sorts; entries = t.entries })
        × ArePlacesOf t.places t.entries
        × (t.forms ≡ map form_of t.sorts)
        × (t.results ≡ map
        (λ e. results_of (record { kinds = t.sorts; entries = t.entries }) e.1) t.entries)
        × AreFronts (record { kinds = t.sorts; entries = t.entries }) t.fronts };
}

/// Below which opcodes the fronts of patterns are kept: those of the profile.
const FRONTED: usize = 331;

/// For each opcode the place of its first entry.
fn opcode_places(alloc: Global, entries: &[(u16, Entry)]) -> Result<Vec<u32>, AllocError>
    requires { length entries.now < 2 ^ 32 }
    ensures { IfOk result (λ places. ArePlacesOf places.items entries.now) }
{
    let mut places = Vec::new(alloc);
    for i in (0..entries.len()).rev() {
        let opcode = entries[i].0;
        widen(&mut places, u32::from(opcode))?;
        places[usize::from(opcode)] = i as u32;
    }
    Ok(places)
}

/// The places of the opcodes whose fronts are kept.
fn fronted_of(places: &[u32]) -> &[u32]
    ensures { result.now ≡ take (min (length places.now) 331) places.now }
{
    &places[..places.len().min(FRONTED)]
}

/// The place of an opcode in a list of places, which is 4,294,967,295 past its end.
#[inline(always)]
fn place_in(places: &[u32], opcode: u16) -> u32
    ensures { result ≡ slice_index_or places.now opcode 4294967295 }
{
    match places.get(usize::from(opcode)) {
        Some(place) => *place,
        None => u32::MAX,
    }
}

impl Named for (u16, Entry) {
    ghost name = { λ e. e.1.name };

    fn name(&self) -> &str {
        self.1.name.as_str()
    }
}

impl Table {
    /// The table of these kinds and entries. The error is that memory ran out, or places: there may be
    /// 4,294,967,295 entries.
    pub fn new(
        alloc: Global,
        sorts: Vec<Sort>,
        entries: Vec<(u16, Entry)>,
    ) -> Result<Table, AllocError>
        requires { IsWhole (record { kinds = sorts.items; entries = entries.items }) }
        ensures { IfOk result (λ G. G ≡ record { kinds = sorts.items; entries = entries.items }) }
    {
        if entries.len() > 0xffff_ffff {
            return Err(AllocError);
        }
        let places = opcode_places(alloc, entries.as_slice())?;
        let forms = forms_of(alloc, sorts.as_slice())?;
        let results = results_of_entries(alloc, forms.as_slice(), entries.as_slice())?;
        let fronted = fronted_of(places.as_slice());
        let fronts = fronts_of(alloc, forms.as_slice(), fronted, entries.as_slice())?;
        let sorts = Sorts::made(alloc, sorts)?;
        let entries = Entries::made(alloc, entries)?;
        Ok(Table {
            sorts,
            entries,
            places: Listed::from_vec(places),
            forms: Listed::from_vec(forms),
            results: Listed::from_vec(results),
            fronts: Listed::from_vec(fronts),
        })
    }

    /// The table that constants tell, where what they tell beside the rows is right. It takes no memory.
    pub fn told(lies: Constants) -> Table
        requires ascii { IsAscii lies.text.now }
        requires kinds { AreKinds lies.text.now lies.enumerants.now lies.slots.now lies.near.now lies.kinds.now }
        requires kind_names { Finds (told lies.text.now (λ r. r.1)) lies.kinds.now
            (record { slots = lies.kind_slots.now; others = [] }) }
        requires counted { AreCounted lies.items.now lies.entries.now }
        requires entry_names { Finds (told lies.text.now (λ r. r.1)) lies.entries.now
            (record { slots = lies.entry_slots.now; others = [] }) }
        requires whole { IsWhole (table_in lies) }
        requires places { ArePlacesOf lies.places.now (table_in lies).entries }
        requires forms { lies.forms.now ≡ map form_of (table_in lies).kinds }
        requires results { lies.results.now ≡ map (λ e. results_of (table_in lies) e.1) (table_in lies).entries }
        requires fronts { AreFronts (table_in lies) lies.fronts.now }
        ensures { result ≡ table_in lies }
    {
        let sorts = Sorts::told(lies);
        let entries = Entries::told(lies);
        Table {
            sorts,
            entries,
            places: Listed::lent(lies.places),
            forms: Listed::lent(lies.forms),
            results: Listed::lent(lies.results),
            fronts: Listed::lent(lies.fronts),
        }
    }

    /// The kind of a number.
    #[inline(always)]
    pub fn kind(&self, number: u32) -> Option<KindRef<'_>>
        ensures kind { result ≡ option_map (λ s. s.kind) (kind_of self.now number) }
        ensures whole { IsWhole self.now }
    {
        match self.sorts.get(number as usize) {
            Some(sort) => Some(sort.kind().again()),
            None => None,
        }
    }

    /// The kinds with their enumerants, in the order of their numbers.
    pub fn sorts(&self) -> &Sorts
        ensures { result.now ≡ self.now.kinds }
    {
        &self.sorts
    }

    /// The entries with their opcodes, in the order of the file.
    pub fn entries(&self) -> &Entries
        ensures { result.now ≡ self.now.entries }
    {
        &self.entries
    }

    /// The number of the kind of a name.
    pub fn kind_named(&self, name: &str) -> Option<u32>
        ensures { result ≡ number_named self.now name.now }
    {
        let place = self.sorts.place(name)?;
        Some(place as u32)
    }

    /// The enumerant of a kind's value or bit: the first of the file that is not dropped.
    #[inline(always)]
    pub fn enumerant(&self, kind: u32, value: u32) -> Option<EnumerantRef<'_>>
        ensures { result ≡ option_and_then (λ s. enumerant_of s.enumerants value) (kind_of self.now kind) }
    {
        let Some(sort) = self.sorts.get(kind as usize) else {
            return None;
        };
        sort.enumerants().enumerant(value)
    }

    /// The value of the enumerant of a kind that bears a name: of the first that is not dropped.
    pub fn enumerant_named(&self, kind: u32, name: &str) -> Option<u32>
        ensures { result ≡ option_and_then (λ s. value_named s.enumerants name.now) (kind_of self.now kind) }
    {
        let Some(sort) = self.sorts.get(kind as usize) else {
            return None;
        };
        sort.enumerants().value(name)
    }

    /// The entry of an opcode: the first of the file.
    #[inline(always)]
    pub fn entry(&self, opcode: u16) -> Option<EntryRef<'_>>
        ensures { result ≡ entry_of self.now opcode }
    {
        let place = place_in(self.places.as_slice(), opcode);
        match self.entries.get(place as usize) {
            Some((_, entry)) => Some(entry),
            None => None,
        }
    }

    /// The pattern of an opcode's entry: what `entry` tells of its operands, for less.
    #[inline(always)]
    pub fn pattern(&self, opcode: u16) -> Option<PatternRef<'_>>
        ensures { result ≡ option_map (λ e. e.operands) (entry_of self.now opcode) }
    {
        let place = place_in(self.places.as_slice(), opcode);
        self.entries.pattern(place as usize)
    }

    /// The form of each kind, in order, so that a kind's number, from 0, is the place of its form.
    pub fn forms(&self) -> &[Form]
        ensures forms { result.now ≡ map form_of self.now.kinds }
        ensures whole { IsWhole self.now }
    {
        self.forms.as_slice()
    }

    /// Whether the entry of an opcode has a result: among the operands that are always there, or, with `may`, among
    /// all. An opcode that has no entry has none.
    pub fn has_result(&self, opcode: u16, may: bool) -> bool
        ensures { result ≡ entry_has_result may self.now (entry_of self.now opcode) }
    {
        let place = place_in(self.places.as_slice(), opcode);
        match self.results.as_slice().get(place as usize) {
            Some(results) => { if may { results.ever } else { results.always } }
            None => false,
        }
    }

    /// The front of the pattern of an opcode's entry, for the opcodes of the profile.
    #[inline(always)]
    pub fn front(&self, opcode: u16) -> Front
        ensures { result ≡ front_at self.now opcode }
    {
        front_in(self.fronts.as_slice(), opcode)
    }

    /// The opcode of the first instruction that bears a name.
    pub fn named(&self, name: &str) -> Option<u16>
        ensures { result ≡ opcode_named self.now.entries name.now }
    {
        let place = self.entries.place(name)?;
        match self.entries.get(place) {
            Some((opcode, _)) => Some(opcode),
            None => None,
        }
    }
}
