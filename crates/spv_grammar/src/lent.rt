//! Names and lists that are lent: they stand in the text of a grammar file, or in an arena.

ghost use Rattle.std.specs.Prelude.{◌≡◌, IfOk};

use bumpalo::Bump;
use bumpalo::collections::into_bump_slice;
use spv_table::{Name, Named};
use std::alloc::{AllocError, Global};
use std::marker::Model;

/// A name that stands in the text. Contracts see it as the list of its octets.
#[derive(Drop)]
pub struct LentName<'a> {
    text: &'a str,
}

impl<'a> Model for LentName<'a> {
    ghost use Rattle.std.specs.Prelude.{List, ℕ};

    ghost Value = { List ℕ };

    ghost view = { λ n. n.text.now };
}

impl<'a> LentName<'a> {
    /// The name that a text is.
    pub(crate) fn of(text: &'a str) -> LentName<'a>
        ensures { result ≡ text.now }
    {
        LentName { text }
    }

    /// The text.
    pub(crate) fn as_str(&self) -> &'a str
        ensures { result.now ≡ self.now }
    {
        self.text
    }

    /// A copy that owns its text. The error is that memory ran out.
    pub(crate) fn copy(&self, alloc: Global) -> Result<Name, AllocError>
        ensures { IfOk result (λ n. n ≡ self.now) }
    {
        Name::from_str(alloc, self.text)
    }
}

impl<'a> Named for LentName<'a> {
    ghost name = { λ n. n };

    fn name(&self) -> &str {
        self.as_str()
    }
}

/// A list that stands in an arena. Contracts see it as the list of its items.
#[derive(Drop)]
pub struct Lent<'a, T> {
    items: &'a [T],
}

impl<'a, T> Model for Lent<'a, T> {
    ghost use Rattle.std.specs.Prelude.{List};

    ghost Value = { List T };

    ghost view = { λ l. l.items.now };
}

impl<'a, T> Lent<'a, T> {
    /// The list of a vector's items. It takes no memory.
    pub(crate) fn from_vec(items: Vec<T, &'a Bump>) -> Lent<'a, T>
    where
        T: Drop,
        ensures { result ≡ items.entry.items }
    {
        Lent {
            items: into_bump_slice(items),
        }
    }

    /// The items, in order.
    pub(crate) fn as_slice(&self) -> &'a [T]
        ensures { result.now ≡ self.now }
    {
        self.items
    }
}
