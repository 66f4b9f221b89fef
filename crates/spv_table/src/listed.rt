ghost use Rattle.std.specs.Prelude.{◌≡◌, ◌<◌, ◌↔◌, [], IsTrue, Some, length, map, slice_get, string_bytes, IfOk};
ghost use Rattle.spv_table.specs.inner.Joined.{IsJoined};

use crate::named::Named;
use std::alloc::{AllocError, Global};
use std::marker::Model;
use std::sync::Arc;

/// Where a list has its items.
#[derive(Drop)]
enum Items<'a, T> {
    Own(Vec<T>),
    Lent(&'a [T]),
}

/// A list that does not change. Contracts see it as the list of its items.
#[derive(Drop)]
pub struct Listed<T: 'static> {
    items: Items<'static, T>,
}

impl<T: 'static> Model for Listed<T> {
    ghost use Rattle.std.specs.Prelude.{List};
    ghost use Rattle.spv_table.specs.inner.Listed.{items_in};

    ghost Value = { List T };

    ghost view = { λ l. items_in l.items };
}

impl<T: 'static> Listed<T> {
    /// The list of items of the program. It takes no memory.
    #[inline(always)]
    pub fn lent(items: &'static [T]) -> Listed<T>
        ensures { result ≡ items.now }
    {
        Listed {
            items: Items::Lent(items),
        }
    }

    /// The list of a vector's items. It takes no memory.
    pub fn from_vec(items: Vec<T>) -> Listed<T>
        ensures { result ≡ items.items }
    {
        Listed {
            items: Items::Own(items),
        }
    }

    /// The items, in order.
    #[inline(always)]
    pub fn as_slice(&self) -> &[T]
        ensures { result.now ≡ self.now }
    {
        match &self.items {
            Items::Own(items) => items.as_slice(),
            Items::Lent(items) => items,
        }
    }
}

/// Names, one after another in one text.
#[derive(Drop)]
struct Joined {
    text: String,
    /// Where each name ends in the text, in octets; it begins where the one before ends.
    ends: Vec<u32>,
}

/// A list of names that several elements may share. Contracts see it as the list of the names.
///
/// It takes the octets of the names, four octets for each, and what one allocation of each takes.
#[derive(Drop)]
pub struct NameList {
    joined: Arc<Joined>,
}

impl Model for NameList {
    ghost use Rattle.std.specs.Prelude.{◌≡◌, List, ℕ, length, string_bytes};

    ghost Value = { List (List ℕ) };

    ghost use Rattle.spv_table.specs.inner.Joined.{names_in, AreEnds, end_of};

    ghost view = { λ l. names_in 0 (string_bytes l.joined.value.text) l.joined.value.ends.items };

    ghost invariant = { λ l. AreEnds 0 (string_bytes l.joined.value.text) l.joined.value.ends.items };
}

/// How many octets the names of some elements have together, or as many as there can be.
fn octets_of<T: Named>(elements: &[T]) -> usize {
    let mut octets: usize = 0;
    for element in elements {
        octets = octets.saturating_add(element.name().len());
    }
    octets
}

/// The number of octets of a text. The error is that there are more than 4,294,967,295.
fn length_of(text: &str) -> Result<u32, AllocError>
    ensures { IfOk result (λ n. n ≡ length text.now) }
{
    match u32::try_from(text.len()) {
        Ok(octets) => Ok(octets),
        Err(_) => Err(AllocError),
    }
}

/// The names of some elements.
fn join<T: Named>(alloc: Global, elements: &[T]) -> Result<Joined, AllocError>
    ensures { IfOk result (λ j. IsJoined (map T.name elements.now) (string_bytes j.text) j.ends.items) }
{
    let mut text = String::with_capacity(alloc, octets_of(elements))?;
    let mut ends = Vec::with_capacity(alloc, elements.len())?;
    for element in elements {
        text.push_str(element.name())?;
        ends.push(length_of(&text)?)?;
    }
    Ok(Joined { text, ends })
}

impl NameList {
    /// The list of the names of some elements. The error is that memory ran out, or places: the names may have
    /// 4,294,967,295 octets together.
    pub fn of<T: Named>(alloc: Global, elements: &[T]) -> Result<NameList, AllocError>
        ensures { IfOk result (λ l. l ≡ map T.name elements.now) }
    {
        match Arc::new(alloc, join(alloc, elements)?) {
            Ok(joined) => Ok(NameList { joined }),
            Err(_) => Err(AllocError),
        }
    }

    /// The same list once more. The error is that there are too many of it.
    pub fn share(&self) -> Result<NameList, AllocError>
        ensures { IfOk result (λ l. l ≡ self.now) }
    {
        Ok(NameList {
            joined: self.joined.clone()?,
        })
    }

    /// How many names there are.
    pub fn len(&self) -> usize
        ensures { result ≡ length self.now }
    {
        Arc::as_ref(&self.joined).ends.len()
    }

    /// Whether there is no name.
    pub fn is_empty(&self) -> bool
        ensures { IsTrue result ↔ (self.now ≡ []) }
    {
        self.len() == 0
    }

    /// The name at a place, from 0.
    pub fn name(&self, place: usize) -> &str
        requires { place < length self.now }
        ensures { slice_get self.now place ≡ Some result.now }
    {
        let joined = Arc::as_ref(&self.joined);
        let end = joined.ends[place] as usize;
        let begin = if place == 0 {
            0
        } else {
            joined.ends[place - 1] as usize
        };
        &joined.text.as_str()[begin..end]
    }
}
