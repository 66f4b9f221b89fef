//! Lists of names, of which those that come one after another and are equal are one.

ghost use Rattle.std.specs.Prelude.{◌≡◌, IsTrue, IfOk};

use crate::lent::LentName;
use spv_table::NameList;
use std::alloc::{AllocError, Global};

/// Whether two lists of names are equal.
fn are_same(names: &NameList, lent: &[LentName<'_>]) -> bool
    ensures { IsTrue result → names.now ≡ lent.now }
{
    if names.len() != lent.len() {
        return false;
    }
    for i in 0..lent.len() {
        if names.name(i) != lent[i].as_str() {
            return false;
        }
    }
    true
}

/// A list of these names. The error is that memory ran out.
fn list_of(alloc: Global, names: &[LentName<'_>]) -> Result<NameList, AllocError>
    ensures { IfOk result (λ list. list ≡ names.now) }
{
    NameList::of(alloc, names)
}

/// The empty list, and the last other list of names that was made.
#[derive(Drop)]
pub(crate) struct Lists {
    empty: NameList,
    last: NameList,
}

impl Lists {
    /// Two empty lists. The error is that memory ran out.
    pub(crate) fn new(alloc: Global) -> Result<Lists, AllocError> {
        let empty = list_of(alloc, &[])?;
        let last = empty.share()?;
        Ok(Lists { empty, last })
    }

    /// A list of these names. The error is that memory ran out.
    pub(crate) fn of(
        &mut self,
        alloc: Global,
        names: &[LentName<'_>],
    ) -> Result<NameList, AllocError>
        ensures { IfOk result (λ list. list ≡ names.now) }
    {
        if are_same(&self.last, names) {
            return self.last.share();
        }
        if are_same(&self.empty, names) {
            return self.empty.share();
        }
        self.last = list_of(alloc, names)?;
        self.last.share()
    }
}
