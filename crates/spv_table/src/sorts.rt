//! The kinds of a table, which it has made or which lie in the program.

ghost use Rattle.std.specs.Prelude.{◌≡◌, ◌<◌, ◌^◌, [], length, map, position, slice_get, IfOk};
ghost use Rattle.std.specs.Str.{IsAscii, bytes_eq};
ghost use Rattle.spv_table.specs.Rows.{sort_in};
ghost use Rattle.spv_table.specs.inner.Named.{Finds};
ghost use Rattle.spv_table.specs.inner.Rows.{told, AreKinds};

use crate::constants::Constants;
use crate::named::Names;
use crate::named_rows::place_among;
use crate::sort::{Sort, SortRef};
use std::alloc::{AllocError, Global};
use std::marker::Model;

/// Kinds that were made, and where their names are. Contracts see the list of them.
#[derive(Drop)]
struct Made {
    sorts: Vec<Sort>,
    names: Names,
}

impl Model for Made {
    ghost use Rattle.std.specs.Prelude.{List};
    ghost use Rattle.spv_table.specs.Table.{Sort};
    ghost use Rattle.spv_table.specs.inner.Named.{Finds};

    ghost Value = { List Sort };

    ghost view = { λ m. m.sorts.items };

    ghost invariant = { λ m. Finds (λ s. s.kind.name) m.sorts.items m.names };
}

impl Made {
    /// The kind at a place.
    #[inline(always)]
    fn get(&self, place: usize) -> Option<SortRef<'_>>
        ensures { result ≡ slice_get self.now place }
    {
        match self.sorts.get(place) {
            Some(sort) => Some(sort.seen()),
            None => None,
        }
    }

    /// The first place of a name.
    fn place(&self, name: &str) -> Option<usize>
        ensures { result ≡ position (λ s. bytes_eq name.now s.kind.name) self.now }
    {
        self.names.place(self.sorts.as_slice(), name)
    }
}

/// Kinds that rows of the program tell. Contracts see the list of them.
#[derive(Drop)]
struct Told {
    lies: Constants,
}

impl Model for Told {
    ghost use Rattle.std.specs.Prelude.{List, [], map};
    ghost use Rattle.std.specs.Str.{IsAscii};
    ghost use Rattle.spv_table.specs.Rows.{sort_in};
    ghost use Rattle.spv_table.specs.Table.{Sort};
    ghost use Rattle.spv_table.specs.inner.Named.{Finds};
    ghost use Rattle.spv_table.specs.inner.Rows.{told, AreKinds};

    ghost Value = { List Sort };

    ghost view = { λ l. map (sort_in l.lies.text.now l.lies.numbers.now l.lies.names.now l.lies.enumerants.now)
        l.lies.kinds.now };

    ghost invariant = { λ l. IsAscii l.lies.text.now
        × AreKinds l.lies.text.now l.lies.enumerants.now l.lies.slots.now l.lies.near.now l.lies.kinds.now
        × Finds (told l.lies.text.now (λ r. r.1)) l.lies.kinds.now
        (record { slots = l.lies.kind_slots.now; others = [] }) };
}

impl Told {
    /// The kind at a place.
    #[inline(always)]
    fn get(&self, place: usize) -> Option<SortRef<'static>>
        ensures { result ≡ slice_get self.now place }
    {
        match self.lies.kinds.get(place) {
            Some(row) => Some(SortRef::told(&self.lies, row)),
            None => None,
        }
    }

    /// The first place of a name.
    fn place(&self, name: &str) -> Option<usize>
        ensures { result ≡ position (λ s. bytes_eq name.now s.kind.name) self.now }
    {
        place_among(self.lies.text, self.lies.kinds, self.lies.kind_slots, name)
    }
}

/// Where kinds are.
#[derive(Drop)]
enum Kept {
    Made(Made),
    Told(Told),
}

/// The kinds of a table with their enumerants. Contracts see the list of them, in the order of their numbers.
#[derive(Drop)]
pub struct Sorts {
    kept: Kept,
}

impl Model for Sorts {
    ghost use Rattle.std.specs.Prelude.{List};
    ghost use Rattle.spv_table.specs.Table.{Sort};
    ghost use Rattle.spv_table.specs.inner.Sorts.{sorts_in};

    ghost Value = { List Sort };

    ghost view = { λ s. sorts_in s.kept };
}

impl Sorts {
    /// The kinds of a vector. The error is that memory ran out.
    pub(crate) fn made(alloc: Global, sorts: Vec<Sort>) -> Result<Sorts, AllocError>
        requires { length sorts.items < 2 ^ 32 }
        ensures { IfOk result (λ s. s ≡ sorts.items) }
    {
        let names = Names::of(alloc, sorts.as_slice())?;
        Ok(Sorts {
            kept: Kept::Made(Made { sorts, names }),
        })
    }

    /// The kinds that constants tell. It takes no memory.
    pub(crate) fn told(lies: Constants) -> Sorts
        requires ascii { IsAscii lies.text.now }
        requires kinds { AreKinds lies.text.now lies.enumerants.now lies.slots.now lies.near.now lies.kinds.now }
        requires finds { Finds (told lies.text.now (λ r. r.1)) lies.kinds.now
            (record { slots = lies.kind_slots.now; others = [] }) }
        ensures { result
            ≡ map (sort_in lies.text.now lies.numbers.now lies.names.now lies.enumerants.now) lies.kinds.now }
    {
        Sorts {
            kept: Kept::Told(Told { lies }),
        }
    }

    /// How many there are.
    pub fn len(&self) -> usize
        ensures { result ≡ length self.now }
    {
        match &self.kept {
            Kept::Made(made) => made.sorts.len(),
            Kept::Told(told) => told.lies.kinds.len(),
        }
    }

    /// The kind at a place, from 0, which is its number.
    #[inline(always)]
    pub fn get(&self, place: usize) -> Option<SortRef<'_>>
        ensures { result ≡ slice_get self.now place }
    {
        match &self.kept {
            Kept::Made(made) => made.get(place),
            Kept::Told(told) => told.get(place),
        }
    }

    /// The first place of a name.
    pub(crate) fn place(&self, name: &str) -> Option<usize>
        ensures { result ≡ position (λ s. bytes_eq name.now s.kind.name) self.now }
    {
        match &self.kept {
            Kept::Made(made) => made.place(name),
            Kept::Told(told) => told.place(name),
        }
    }
}
