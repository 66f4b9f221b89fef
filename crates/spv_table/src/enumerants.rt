//! The enumerants of a kind, which the table has made or which lie in the program.

ghost use Rattle.std.specs.Prelude.{◌≡◌, length, slice_get};
ghost use Rattle.std.specs.Str.{IsAscii};
ghost use Rattle.spv_table.specs.Lookups.{value_named};
ghost use Rattle.spv_table.specs.Rows.{enumerant_in};
ghost use Rattle.spv_table.specs.Table.{enumerant_of};

use crate::enumerant_list::EnumerantList;
use crate::enumerant_rows::EnumerantRows;
use crate::name_list_ref::NameListRef;
use crate::row::EnumerantRow;
use crate::span::Span;
use crate::table::Enumerant;
use std::marker::Model;

/// An enumerant of a table, looked at where it lies. Contracts see it as the enumerant.
#[derive(Drop)]
pub struct EnumerantRef<'t> {
    name: &'t str,
    value: u32,
    parameters: &'t [u32],
    capabilities: NameListRef<'t>,
}

impl<'t> Model for EnumerantRef<'t> {
    ghost use Rattle.spv_table.specs.declared.table.Enumerant as declared;

    ghost Value = { declared.Enumerant };

    ghost view = { λ e. record {
      name = e.name.now;
      value = e.value;
      parameters = e.parameters.now;
      capabilities = e.capabilities;
    } };
}

impl<'t> EnumerantRef<'t> {
    /// An enumerant that is owned.
    #[inline(always)]
    fn owned(enumerant: &'t Enumerant) -> EnumerantRef<'t>
        ensures { result ≡ enumerant.now }
    {
        EnumerantRef {
            name: enumerant.name.as_str(),
            value: enumerant.value,
            parameters: enumerant.parameters.as_slice(),
            capabilities: NameListRef::owned(&enumerant.capabilities),
        }
    }

    /// The enumerant of a row.
    #[inline(always)]
    pub(crate) fn told(
        text: &'t str,
        numbers: &'t [u32],
        names: &'t [Span],
        row: &EnumerantRow,
    ) -> EnumerantRef<'t>
        requires { IsAscii text.now }
        ensures { result ≡ enumerant_in text.now numbers.now names.now row.now }
    {
        EnumerantRef {
            name: row.1.of(text),
            value: row.0,
            parameters: row.2.among(numbers),
            capabilities: NameListRef::spanned(text, row.3.among(names)),
        }
    }

    /// Its name.
    #[inline(always)]
    pub fn name(&self) -> &'t str
        ensures { result.now ≡ self.now.name }
    {
        self.name
    }

    /// Its value.
    #[inline(always)]
    pub fn value(&self) -> u32
        ensures { result ≡ self.now.value }
    {
        self.value
    }

    /// The numbers of the kinds of its parameters, in order.
    #[inline(always)]
    pub fn parameters(&self) -> &'t [u32]
        ensures { result.now ≡ self.now.parameters }
    {
        self.parameters
    }

    /// The names of the capabilities of which one is needed.
    #[inline(always)]
    pub fn capabilities(&self) -> NameListRef<'t>
        ensures { result ≡ self.now.capabilities }
    {
        self.capabilities.again()
    }
}

/// Where enumerants are.
#[derive(Drop)]
enum Kept<'t> {
    Made(&'t EnumerantList),
    Told(EnumerantRows),
}

/// The enumerants of a kind, looked at where they lie. Contracts see the list of them, in the order of the file.
#[derive(Drop)]
pub struct EnumerantsRef<'t> {
    kept: Kept<'t>,
}

impl<'t> Model for EnumerantsRef<'t> {
    ghost use Rattle.std.specs.Prelude.{List};
    ghost use Rattle.spv_table.specs.declared.table.Enumerant as declared;
    ghost use Rattle.spv_table.specs.inner.Enumerants.{enumerants_in};

    ghost Value = { List declared.Enumerant };

    ghost view = { λ e. enumerants_in e.kept };
}

impl<'t> EnumerantsRef<'t> {
    /// Enumerants that were made.
    #[inline(always)]
    pub(crate) fn made(list: &'t EnumerantList) -> EnumerantsRef<'t>
        ensures { result ≡ list.now }
    {
        EnumerantsRef {
            kept: Kept::Made(list),
        }
    }

    /// Enumerants that rows of the program tell.
    #[inline(always)]
    pub(crate) fn told(rows: EnumerantRows) -> EnumerantsRef<'t>
        ensures { result ≡ rows }
    {
        EnumerantsRef {
            kept: Kept::Told(rows),
        }
    }

    /// How many there are.
    pub fn len(&self) -> usize
        ensures { result ≡ length self.now }
    {
        match &self.kept {
            Kept::Made(list) => list.as_slice().len(),
            Kept::Told(rows) => rows.len(),
        }
    }

    /// The enumerant at a place, from 0.
    pub fn get(&self, place: usize) -> Option<EnumerantRef<'t>>
        ensures { result ≡ slice_get self.now place }
    {
        match &self.kept {
            Kept::Made(list) => match list.as_slice().get(place) {
                Some(enumerant) => Some(EnumerantRef::owned(enumerant)),
                None => None,
            },
            Kept::Told(rows) => rows.get(place),
        }
    }

    /// The first enumerant with a value: in constant time where the value is below 64.
    #[inline(always)]
    pub(crate) fn enumerant(&self, value: u32) -> Option<EnumerantRef<'t>>
        ensures { result ≡ enumerant_of self.now value }
    {
        match &self.kept {
            Kept::Made(list) => match list.enumerant(value) {
                Some(enumerant) => Some(EnumerantRef::owned(enumerant)),
                None => None,
            },
            Kept::Told(rows) => rows.enumerant(value),
        }
    }

    /// The value of the first enumerant with a name.
    pub(crate) fn value(&self, name: &str) -> Option<u32>
        ensures { result ≡ value_named self.now name.now }
    {
        match &self.kept {
            Kept::Made(list) => list.value(name),
            Kept::Told(rows) => rows.value(name),
        }
    }
}
