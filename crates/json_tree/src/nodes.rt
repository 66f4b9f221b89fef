//! The nodes of a tree, in the order of the text, in eight bytes each.

ghost use Rattle.std.specs.Prelude.{◌≡◌, ◌<◌, ◌+◌, ◌-◌, ◌^◌, ◌++◌, [], ◌∷◌, length, slice_get, slice_set};
ghost use Rattle.std.specs.Prelude.{Some, IfSome, OnOk, IfOk, vec_len, vec_capacity, is_ok, if◌then◌else◌};
ghost use Rattle.std.specs.Str.{IsCharBoundary};
ghost use Rattle.serde_json.specs.View.{number_view};
ghost use Rattle.json_tree.specs.View.{nodes_in};
ghost use Rattle.json_tree.specs.View as seen;
ghost use Rattle.json_tree.specs.inner.Stored.{content_view, content_of, IsStored};

use crate::content::Content;
use serde_json::Number;
use std::alloc::{AllocError, Global};
use std::marker::Model;

/// From how many bytes of the source on its texts are kept as their places there. In a shorter one
/// their list takes little memory, and is made faster.
const LONG: usize = 1 << 20;

/// The greatest number of nodes, numbers or texts that a node can hold.
const MAX: usize = u32::MAX as usize;

/// A node in eight bytes.
#[derive(Clone, Copy)]
enum Stored {
    Null,
    Bool(bool),
    /// A whole number.
    Whole(u32),
    /// The place of a number in `numbers`.
    Number(u32),
    /// The place of a text in the source, and its length, in bytes.
    Near { length: u16, start: u32 },
    /// The place of a text in `texts`.
    Far(u32),
    /// How many nodes lie in the array.
    Array(u32),
    /// How many nodes lie in the object.
    Object(u32),
}

/// The nodes of a tree. Contracts see the list of what they are.
///
/// A text that stands in the source without an escape is kept as its place there, and a whole number
/// below 4,294,967,296 in the node itself; others stand in lists of their own.
#[derive(Drop)]
pub(crate) struct Nodes<'a> {
    source: &'a str,
    stored: Vec<Stored>,
    numbers: Vec<Number>,
    texts: Vec<&'a str>,
}

impl<'a> Model for Nodes<'a> {
    ghost use Rattle.std.specs.Prelude.{List, map};
    ghost use Rattle.std.specs.List.{All};
    ghost use Rattle.json_tree.specs.View.{Content};

    ghost Value = { List Content };

    ghost use Rattle.json_tree.specs.inner.Stored.{content_of, IsStored};

    ghost view = { λ n. map (content_of n.source.now n.numbers.items n.texts.items) n.stored.items };

    ghost invariant = { λ n. All (IsStored n.source.now n.numbers.items n.texts.items) n.stored.items };
}

/// The text as its place in the source, where it stands there after a quote and both numbers are small.
#[inline(never)]
fn near(source: &str, text: &str, quote: usize) -> Option<Stored>
    ensures { IfSome result (λ s. IsStored source.now [] [] s
        × (content_of source.now [] [] s ≡ seen.string text.now)) }
{
    let length = u16::try_from(text.len()).ok()?;
    let start = quote.checked_add(1)?;
    let place = u32::try_from(start).ok()?;
    let end = start + text.len();
    if !source.is_char_boundary(start) || !source.is_char_boundary(end) {
        return None;
    }
    if &source[start..end] != text {
        return None;
    }
    Some(Stored::Near {
        length,
        start: place,
    })
}

/// Room in a list for one more.
#[inline(always)]
fn make_room<T>(list: &mut Vec<T>) -> Result<(), AllocError>
    ensures items { list.new.items ≡ list.old.items }
    ensures room { OnOk result (vec_len list.new < vec_capacity list.new) }
{
    if list.len() < list.capacity() {
        return Ok(());
    }
    list.reserve(1)
}

/// Adds to a list. The error is that memory ran out.
#[inline(always)]
fn add<T: Copy>(list: &mut Vec<T>, item: T) -> Result<(), AllocError>
    ensures { list.new.items ≡ (if is_ok result then list.old.items ++ item ∷ [] else list.old.items) }
{
    make_room(list)?;
    list.push_reserved(item);
    Ok(())
}

impl<'a> Nodes<'a> {
    /// No node of the source. It takes no memory.
    pub(crate) fn new(alloc: Global, source: &'a str) -> Nodes<'a>
        ensures { result ≡ [] }
    {
        Nodes {
            source,
            stored: Vec::new(alloc),
            numbers: Vec::new(alloc),
            texts: Vec::new(alloc),
        }
    }

    /// Makes room for the nodes of the source: each takes two bytes of it at least. Where that much is
    /// refused, less may do.
    pub(crate) fn reserve(&mut self)
        ensures { self.new ≡ self.old }
    {
        let bytes = self.source.len();
        let _ = self.stored.reserve(bytes / 2 + 1);
        if bytes < LONG {
            let _ = self.texts.reserve(bytes / 16);
        }
    }

    /// How many nodes there are.
    pub(crate) fn len(&self) -> usize
        ensures { result ≡ length self.now }
    {
        self.stored.len()
    }

    /// Adds the node of `null`. The error is that memory ran out, here and below.
    pub(crate) fn push_null(&mut self) -> Result<(), AllocError>
        ensures { OnOk result (self.new ≡ self.old ++ seen.null ∷ []) }
    {
        add(&mut self.stored, Stored::Null)?;
        Ok(())
    }

    /// Adds the node of a truth value.
    pub(crate) fn push_bool(&mut self, b: bool) -> Result<(), AllocError>
        ensures { OnOk result (self.new ≡ self.old ++ seen.boolean b ∷ []) }
    {
        add(&mut self.stored, Stored::Bool(b))?;
        Ok(())
    }

    /// Adds the node of a number.
    pub(crate) fn push_number(&mut self, number: Number) -> Result<(), AllocError>
        ensures { OnOk result (self.new ≡ self.old ++ seen.number (number_view number) ∷ []) }
    {
        if let Some(whole) = number.as_u64() {
            if let Ok(whole) = u32::try_from(whole) {
                add(&mut self.stored, Stored::Whole(whole))?;
                return Ok(());
            }
        }
        let place = self.numbers.len();
        if place > MAX {
            return Err(AllocError);
        }
        add(&mut self.numbers, number)?;
        add(&mut self.stored, Stored::Number(place as u32))?;
        Ok(())
    }

    /// Adds the node of a text, which may stand in the source after the quote at `quote`.
    #[inline(always)]
    pub(crate) fn push_text(&mut self, text: &'a str, quote: usize) -> Result<(), AllocError>
        ensures { OnOk result (self.new ≡ self.old ++ seen.string text.now ∷ []) }
    {
        if self.source.len() >= LONG {
            return self.push_near(text, quote);
        }
        self.push_far(text)
    }

    /// The same in a long source.
    #[inline(never)]
    fn push_near(&mut self, text: &'a str, quote: usize) -> Result<(), AllocError>
        ensures { OnOk result (self.new ≡ self.old ++ seen.string text.now ∷ []) }
    {
        match near(self.source, text, quote) {
            Some(stored) => add(&mut self.stored, stored),
            None => self.push_far(text),
        }
    }

    /// The same where its place is not looked for.
    #[inline(always)]
    fn push_far(&mut self, text: &'a str) -> Result<(), AllocError>
        ensures { OnOk result (self.new ≡ self.old ++ seen.string text.now ∷ []) }
    {
        let place = self.texts.len();
        if place > MAX {
            return Err(AllocError);
        }
        add(&mut self.texts, text)?;
        add(&mut self.stored, Stored::Far(place as u32))?;
        Ok(())
    }

    /// Makes the node at `place` an array of all that come after it.
    pub(crate) fn close_array(&mut self, place: usize) -> Result<(), AllocError>
        requires { place < length self.old }
        ensures { OnOk result (self.new
            ≡ slice_set self.old place (seen.array (length self.old - place - 1))) }
    {
        let count = self.stored.len() - place - 1;
        if count > MAX {
            return Err(AllocError);
        }
        self.stored[place] = Stored::Array(count as u32);
        Ok(())
    }

    /// Makes the node at `place` an object of all that come after it.
    pub(crate) fn close_object(&mut self, place: usize) -> Result<(), AllocError>
        requires { place < length self.old }
        ensures { OnOk result (self.new
            ≡ slice_set self.old place (seen.object (length self.old - place - 1))) }
    {
        let count = self.stored.len() - place - 1;
        if count > MAX {
            return Err(AllocError);
        }
        self.stored[place] = Stored::Object(count as u32);
        Ok(())
    }

    /// What the node at a place is.
    pub(crate) fn content(&self, place: usize) -> Content<'a>
        requires { place < length self.now }
        ensures content { slice_get self.now place ≡ Some (content_view result) }
        ensures few { place + 1 < 2 ^ 64 }
    {
        match self.stored[place] {
            Stored::Null => Content::Null,
            Stored::Bool(b) => Content::Bool(b),
            Stored::Whole(whole) => Content::Number(Number::from(u64::from(whole))),
            Stored::Number(number) => Content::Number(self.numbers[number as usize]),
            Stored::Near { length, start } => {
                let start = start as usize;
                Content::String(&self.source[start..start + usize::from(length)])
            }
            Stored::Far(text) => Content::String(self.texts[text as usize]),
            Stored::Array(count) => Content::Array(count as usize),
            Stored::Object(count) => Content::Object(count as usize),
        }
    }

    /// The place of the node after all that lie in the one at a place.
    pub(crate) fn after(&self, place: usize) -> usize
        requires { place < length self.now }
        ensures { IfSome (slice_get self.now place) (λ c. result ≡ place + 1 + nodes_in c) }
    {
        match self.stored[place] {
            Stored::Array(count) | Stored::Object(count) => place + 1 + count as usize,
            _ => place + 1,
        }
    }
}
