//! The instructions of a table, which it has made or which lie in the program.

ghost use Rattle.std.specs.Prelude.{◌≡◌, ◌<◌, ◌^◌, [], length, map, option_map, position, slice_get, IfOk};
ghost use Rattle.std.specs.Str.{IsAscii, bytes_eq};
ghost use Rattle.spv_table.specs.Rows.{entry_in};
ghost use Rattle.spv_table.specs.inner.Named.{Finds};
ghost use Rattle.spv_table.specs.inner.Rows.{told, AreCounted, IsCounted};

use crate::constants::Constants;
use crate::name_list_ref::NameListRef;
use crate::named::Names;
use crate::named_rows::place_among;
use crate::pattern::PatternRef;
use crate::row::EntryRow;
use crate::span::Span;
use crate::table::{Entry, Item};
use std::alloc::{AllocError, Global};
use std::marker::Model;

/// An instruction of a table, looked at where it lies. Contracts see it as the entry.
#[derive(Drop)]
pub struct EntryRef<'t> {
    name: &'t str,
    operands: PatternRef<'t>,
    capabilities: NameListRef<'t>,
}

impl<'t> Model for EntryRef<'t> {
    ghost use Rattle.spv_table.specs.declared.table.Entry as declared;

    ghost Value = { declared.Entry };

    ghost view = { λ e. record { name = e.name.now; operands = e.operands; capabilities = e.capabilities } };
}

impl<'t> EntryRef<'t> {
    /// An entry that is owned.
    #[inline(always)]
    fn owned(entry: &'t Entry) -> EntryRef<'t>
        ensures { result ≡ entry.now }
    {
        EntryRef {
            name: entry.name.as_str(),
            operands: entry.operands.seen(),
            capabilities: NameListRef::owned(&entry.capabilities),
        }
    }

    /// The entry of a row.
    #[inline(always)]
    fn told(text: &'t str, items: &'t [Item], names: &'t [Span], row: &EntryRow) -> EntryRef<'t>
        requires ascii { IsAscii text.now }
        requires counted { IsCounted items.now row.now }
        ensures { (row.now.0, result) ≡ entry_in text.now items.now names.now row.now }
    {
        EntryRef {
            name: row.1.of(text),
            operands: PatternRef::of(row.2.among(items), row.4 as usize),
            capabilities: NameListRef::spanned(text, row.3.among(names)),
        }
    }

    /// Its name.
    #[inline(always)]
    pub fn name(&self) -> &'t str
        ensures { result.now ≡ self.now.name }
    {
        self.name
    }

    /// The pattern of its operands.
    #[inline(always)]
    pub fn operands(&self) -> &PatternRef<'t>
        ensures { result.now ≡ self.now.operands }
    {
        &self.operands
    }

    /// The names of the capabilities of which one is needed.
    #[inline(always)]
    pub fn capabilities(&self) -> NameListRef<'t>
        ensures { result ≡ self.now.capabilities }
    {
        self.capabilities.again()
    }

    /// The same entry once more.
    #[inline(always)]
    pub fn again(&self) -> EntryRef<'t>
        ensures { result ≡ self.now }
    {
        EntryRef {
            name: self.name,
            operands: self.operands.again(),
            capabilities: self.capabilities.again(),
        }
    }
}

/// Entries that were made, and where their names are. Contracts see the list of them, with their opcodes.
#[derive(Drop)]
struct Made {
    entries: Vec<(u16, Entry)>,
    names: Names,
}

impl Model for Made {
    ghost use Rattle.std.specs.Prelude.{ℕ, List};
    ghost use Rattle.spv_table.specs.declared.table.Entry as declared;
    ghost use Rattle.spv_table.specs.inner.Named.{Finds};

    ghost Value = { List (ℕ × declared.Entry) };

    ghost view = { λ m. m.entries.items };

    ghost invariant = { λ m. Finds (λ e. e.1.name) m.entries.items m.names };
}

/// Entries that rows of the program tell. Contracts see the list of them, with their opcodes.
#[derive(Drop)]
struct Told {
    lies: Constants,
}

impl Model for Told {
    ghost use Rattle.std.specs.Prelude.{ℕ, List, [], map};
    ghost use Rattle.std.specs.Str.{IsAscii};
    ghost use Rattle.spv_table.specs.declared.table.Entry as declared;
    ghost use Rattle.spv_table.specs.Rows.{entry_in};
    ghost use Rattle.spv_table.specs.inner.Named.{Finds};
    ghost use Rattle.spv_table.specs.inner.Rows.{told, AreCounted};

    ghost Value = { List (ℕ × declared.Entry) };

    ghost view = { λ l. map (entry_in l.lies.text.now l.lies.items.now l.lies.names.now) l.lies.entries.now };

    ghost invariant = { λ l. IsAscii l.lies.text.now × AreCounted l.lies.items.now l.lies.entries.now
        × Finds (told l.lies.text.now (λ r. r.1)) l.lies.entries.now
        (record { slots = l.lies.entry_slots.now; others = [] }) };
}

impl Told {
    /// The entry at a place, with its opcode.
    #[inline(always)]
    fn get(&self, place: usize) -> Option<(u16, EntryRef<'static>)>
        ensures { result ≡ slice_get self.now place }
    {
        match self.lies.entries.get(place) {
            Some(row) => {
                let lies = &self.lies;
                Some((
                    row.0,
                    EntryRef::told(lies.text, lies.items, lies.names, row),
                ))
            }
            None => None,
        }
    }

    /// The pattern of the entry at a place.
    #[inline(always)]
    fn pattern(&self, place: usize) -> Option<PatternRef<'static>>
        ensures { result ≡ option_map (λ e. e.1.operands) (slice_get self.now place) }
    {
        match self.lies.entries.get(place) {
            Some(row) => Some(PatternRef::of(row.2.among(self.lies.items), row.4 as usize)),
            None => None,
        }
    }

    /// The first place of a name.
    fn place(&self, name: &str) -> Option<usize>
        ensures { result ≡ position (λ e. bytes_eq name.now e.1.name) self.now }
    {
        place_among(
            self.lies.text,
            self.lies.entries,
            self.lies.entry_slots,
            name,
        )
    }
}

impl Made {
    /// The entry at a place, with its opcode.
    #[inline(always)]
    fn get(&self, place: usize) -> Option<(u16, EntryRef<'_>)>
        ensures { result ≡ slice_get self.now place }
    {
        match self.entries.get(place) {
            Some((opcode, entry)) => Some((*opcode, EntryRef::owned(entry))),
            None => None,
        }
    }

    /// The pattern of the entry at a place.
    #[inline(always)]
    fn pattern(&self, place: usize) -> Option<PatternRef<'_>>
        ensures { result ≡ option_map (λ e. e.1.operands) (slice_get self.now place) }
    {
        match self.entries.get(place) {
            Some((_, entry)) => Some(entry.operands.seen()),
            None => None,
        }
    }

    /// The first place of a name.
    fn place(&self, name: &str) -> Option<usize>
        ensures { result ≡ position (λ e. bytes_eq name.now e.1.name) self.now }
    {
        self.names.place(self.entries.as_slice(), name)
    }
}

/// Where entries are.
#[derive(Drop)]
enum Kept {
    Made(Made),
    Told(Told),
}

/// The instructions of a table. Contracts see the list of the entries, with their opcodes, in the order of the file.
#[derive(Drop)]
pub struct Entries {
    kept: Kept,
}

impl Model for Entries {
    ghost use Rattle.std.specs.Prelude.{ℕ, List};
    ghost use Rattle.spv_table.specs.declared.table.Entry as declared;
    ghost use Rattle.spv_table.specs.inner.Entries.{entries_in};

    ghost Value = { List (ℕ × declared.Entry) };

    ghost view = { λ e. entries_in e.kept };
}

impl Entries {
    /// Entries with their opcodes. The error is that memory ran out.
    pub(crate) fn made(alloc: Global, entries: Vec<(u16, Entry)>) -> Result<Entries, AllocError>
        requires { length entries.items < 2 ^ 32 }
        ensures { IfOk result (λ e. e ≡ entries.items) }
    {
        let names = Names::of(alloc, entries.as_slice())?;
        Ok(Entries {
            kept: Kept::Made(Made { entries, names }),
        })
    }

    /// The entries that constants tell. It takes no memory.
    pub(crate) fn told(lies: Constants) -> Entries
        requires ascii { IsAscii lies.text.now }
        requires counted { AreCounted lies.items.now lies.entries.now }
        requires finds { Finds (told lies.text.now (λ r. r.1)) lies.entries.now
            (record { slots = lies.entry_slots.now; others = [] }) }
        ensures { result ≡ map (entry_in lies.text.now lies.items.now lies.names.now) lies.entries.now }
    {
        Entries {
            kept: Kept::Told(Told { lies }),
        }
    }

    /// How many there are.
    pub fn len(&self) -> usize
        ensures { result ≡ length self.now }
    {
        match &self.kept {
            Kept::Made(made) => made.entries.len(),
            Kept::Told(told) => told.lies.entries.len(),
        }
    }

    /// The entry at a place, from 0, with its opcode.
    #[inline(always)]
    pub fn get(&self, place: usize) -> Option<(u16, EntryRef<'_>)>
        ensures { result ≡ slice_get self.now place }
    {
        match &self.kept {
            Kept::Made(made) => made.get(place),
            Kept::Told(told) => told.get(place),
        }
    }

    /// The pattern of the entry at a place, from 0.
    #[inline(always)]
    pub(crate) fn pattern(&self, place: usize) -> Option<PatternRef<'_>>
        ensures { result ≡ option_map (λ e. e.1.operands) (slice_get self.now place) }
    {
        match &self.kept {
            Kept::Made(made) => made.pattern(place),
            Kept::Told(told) => told.pattern(place),
        }
    }

    /// The first place of a name.
    pub(crate) fn place(&self, name: &str) -> Option<usize>
        ensures { result ≡ position (λ e. bytes_eq name.now e.1.name) self.now }
    {
        match &self.kept {
            Kept::Made(made) => made.place(name),
            Kept::Told(told) => told.place(name),
        }
    }
}
