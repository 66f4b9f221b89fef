//! A list of names that is looked at where it lies.

ghost use Rattle.std.specs.Prelude.{◌≡◌, ◌<◌, ◌↔◌, [], IsTrue, Some, length, map, slice_get};
ghost use Rattle.std.specs.Str.{IsAscii};
ghost use Rattle.spv_table.specs.Span.{spanned};

use crate::listed::NameList;
use crate::span::Span;
use std::marker::Model;

/// Names each of which is a part of one text. Contracts see them as the list of the names.
#[derive(Drop)]
struct Spanned<'t> {
    text: &'t str,
    spans: &'t [Span],
}

impl<'t> Model for Spanned<'t> {
    ghost use Rattle.std.specs.Prelude.{List, ℕ, map};
    ghost use Rattle.std.specs.Str.{IsAscii};
    ghost use Rattle.spv_table.specs.Span.{spanned};

    ghost Value = { List (List ℕ) };

    ghost view = { λ l. map (spanned l.text.now) l.spans.now };

    ghost invariant = { λ l. IsAscii l.text.now };
}

impl<'t> Spanned<'t> {
    /// The name at a place, from 0.
    #[inline(always)]
    fn name(&self, place: usize) -> &'t str
        requires { place < length self.now }
        ensures { slice_get self.now place ≡ Some result.now }
    {
        match self.spans.get(place) {
            Some(span) => span.of(self.text),
            None => "",
        }
    }
}

/// Where the names lie.
#[derive(Drop)]
enum Found<'t> {
    Owned(&'t NameList),
    Spanned(Spanned<'t>),
}

/// A list of names, looked at where it lies. Contracts see it as the list of the names.
#[derive(Drop)]
pub struct NameListRef<'t> {
    names: Found<'t>,
}

impl<'t> Model for NameListRef<'t> {
    ghost use Rattle.std.specs.Prelude.{List, ℕ};
    ghost use Rattle.spv_table.specs.inner.NameListRef.{names_found};

    ghost Value = { List (List ℕ) };

    ghost view = { λ l. names_found l.names };
}

impl<'t> NameListRef<'t> {
    /// The names of a list that is owned.
    #[inline(always)]
    pub(crate) fn owned(names: &'t NameList) -> NameListRef<'t>
        ensures { result ≡ names.now }
    {
        NameListRef {
            names: Found::Owned(names),
        }
    }

    /// Names each of which is a part of a text in ASCII: of a span that goes past the end of the text, what there is.
    #[inline(always)]
    pub(crate) fn spanned(text: &'t str, spans: &'t [Span]) -> NameListRef<'t>
        requires { IsAscii text.now }
        ensures { result ≡ map (spanned text.now) spans.now }
    {
        NameListRef {
            names: Found::Spanned(Spanned { text, spans }),
        }
    }

    /// The same names once more.
    #[inline(always)]
    pub fn again(&self) -> NameListRef<'t>
        ensures { result ≡ self.now }
    {
        match &self.names {
            Found::Owned(names) => NameListRef::owned(names),
            Found::Spanned(names) => NameListRef::spanned(names.text, names.spans),
        }
    }

    /// How many names there are.
    #[inline(always)]
    pub fn len(&self) -> usize
        ensures { result ≡ length self.now }
    {
        match &self.names {
            Found::Owned(names) => names.len(),
            Found::Spanned(names) => names.spans.len(),
        }
    }

    /// Whether there is no name.
    #[inline(always)]
    pub fn is_empty(&self) -> bool
        ensures { IsTrue result ↔ (self.now ≡ []) }
    {
        self.len() == 0
    }

    /// The name at a place, from 0.
    pub fn name(&self, place: usize) -> &'t str
        requires { place < length self.now }
        ensures { slice_get self.now place ≡ Some result.now }
    {
        match &self.names {
            Found::Owned(names) => names.name(place),
            Found::Spanned(names) => names.name(place),
        }
    }
}
