ghost use Rattle.std.specs.Prelude.{◌≡◌, IfOk};
ghost use Rattle.std.specs.Str.{IsAscii};
ghost use Rattle.spv_table.specs.Rows.{sort_in};
ghost use Rattle.spv_table.specs.Span.{spanned};
ghost use Rattle.spv_table.specs.inner.Rows.{AreEnumerants};

use crate::constants::Constants;
use crate::enumerant_list::EnumerantList;
use crate::enumerant_rows::EnumerantRows;
use crate::enumerants::EnumerantsRef;
use crate::named::Named;
use crate::row::KindRow;
use crate::table::{Category, Enumerant, Kind};
use std::alloc::{AllocError, Global};
use std::marker::Model;

/// A kind with its enumerants. Contracts see the two.
#[derive(Drop)]
pub struct Sort {
    kind: Kind,
    enumerants: EnumerantList,
}

impl Model for Sort {
    ghost use Rattle.spv_table.specs.Table.{Sort};

    ghost Value = { Sort };

    ghost view = { λ s. record { kind = s.kind; enumerants = s.enumerants } };
}

impl Named for Sort {
    ghost name = { λ s. s.kind.name };

    fn name(&self) -> &str {
        self.kind.name.as_str()
    }
}

impl Sort {
    /// A kind with these enumerants. The error is that memory ran out, or places: there may be 4,294,967,295.
    pub fn new(alloc: Global, kind: Kind, enumerants: Vec<Enumerant>) -> Result<Sort, AllocError>
        ensures { IfOk result (λ s. s ≡ record { kind = kind; enumerants = enumerants.items }) }
    {
        let enumerants = EnumerantList::new(alloc, enumerants)?;
        Ok(Sort { kind, enumerants })
    }

    /// The kind.
    pub(crate) fn kind(&self) -> &Kind
        ensures { result.now ≡ self.now.kind }
    {
        &self.kind
    }

    /// The kind and its enumerants, looked at.
    #[inline(always)]
    pub(crate) fn seen(&self) -> SortRef<'_>
        ensures { result ≡ self.now }
    {
        SortRef {
            kind: KindRef {
                name: self.kind.name.as_str(),
                category: self.kind.category,
                bases: self.kind.bases.as_slice(),
            },
            enumerants: EnumerantsRef::made(&self.enumerants),
        }
    }
}

/// A kind of a table, looked at where it lies. Contracts see it as the kind.
#[derive(Drop)]
pub struct KindRef<'t> {
    name: &'t str,
    category: Category,
    bases: &'t [u32],
}

impl<'t> Model for KindRef<'t> {
    ghost use Rattle.spv_table.specs.declared.table.Kind as declared;

    ghost Value = { declared.Kind };

    ghost view = { λ k. record { name = k.name.now; category = k.category; bases = k.bases.now } };
}

impl<'t> KindRef<'t> {
    /// Its name.
    #[inline(always)]
    pub fn name(&self) -> &'t str
        ensures { result.now ≡ self.now.name }
    {
        self.name
    }

    /// What sort of operands it has.
    #[inline(always)]
    pub fn category(&self) -> Category
        ensures { result ≡ self.now.category }
    {
        self.category
    }

    /// The numbers of the kinds that a Composite is made of, in order; none for others.
    #[inline(always)]
    pub fn bases(&self) -> &'t [u32]
        ensures { result.now ≡ self.now.bases }
    {
        self.bases
    }

    /// The same kind once more.
    #[inline(always)]
    pub fn again(&self) -> KindRef<'t>
        ensures { result ≡ self.now }
    {
        KindRef {
            name: self.name,
            category: self.category,
            bases: self.bases,
        }
    }
}

/// A kind of a table with its enumerants, looked at where they lie. Contracts see the two.
#[derive(Drop)]
pub struct SortRef<'t> {
    kind: KindRef<'t>,
    enumerants: EnumerantsRef<'t>,
}

impl<'t> Model for SortRef<'t> {
    ghost use Rattle.spv_table.specs.Table.{Sort};

    ghost Value = { Sort };

    ghost view = { λ s. record { kind = s.kind; enumerants = s.enumerants } };
}

impl<'t> SortRef<'t> {
    /// The kind of a row with its enumerants.
    #[inline(always)]
    pub(crate) fn told(lies: &Constants, row: &KindRow) -> SortRef<'t>
        requires ascii { IsAscii lies.now.text.now }
        requires are { AreEnumerants lies.now.text.now (spanned lies.now.enumerants.now row.now.3)
            (spanned lies.now.slots.now row.now.4) (spanned lies.now.near.now row.now.5) }
        ensures { result ≡ sort_in lies.now.text.now lies.now.numbers.now lies.now.names.now
            lies.now.enumerants.now row.now }
    {
        let rows = EnumerantRows::new(
            lies.text,
            lies.numbers,
            lies.names,
            row.3.among(lies.enumerants),
            row.4.among(lies.slots),
            row.5.among(lies.near),
        );
        SortRef {
            kind: KindRef {
                name: row.1.of(lies.text),
                category: row.0,
                bases: row.2.among(lies.numbers),
            },
            enumerants: EnumerantsRef::told(rows),
        }
    }

    /// The kind.
    #[inline(always)]
    pub fn kind(&self) -> &KindRef<'t>
        ensures { result.now ≡ self.now.kind }
    {
        &self.kind
    }

    /// The enumerants, in the order of the file.
    #[inline(always)]
    pub fn enumerants(&self) -> &EnumerantsRef<'t>
        ensures { result.now ≡ self.now.enumerants }
    {
        &self.enumerants
    }
}
