//! A name, which has a text of its own, is a part of a text that many names share, or lies in the program.

ghost use Rattle.std.specs.Prelude.{◌≡◌, ◌≤◌, slice_range, string_bytes, IfOk};
ghost use Rattle.std.specs.Str.{IsCharBoundary};

use crate::named::Named;
use std::alloc::{AllocError, Global};
use std::marker::Model;
use std::sync::Arc;

/// A part of a text that others share. Contracts see it as the list of its octets.
#[derive(Drop)]
struct Part {
    text: Arc<String>,
    /// Where it begins and ends in the text, in octets.
    begin: u32,
    end: u32,
}

impl Model for Part {
    ghost use Rattle.std.specs.Prelude.{◌≤◌, List, ℕ, slice_range, string_bytes};
    ghost use Rattle.std.specs.Str.{IsCharBoundary};

    ghost Value = { List ℕ };

    ghost view = { λ p. slice_range (string_bytes p.text.value) p.begin p.end };

    ghost invariant = { λ p. (p.begin ≤ p.end) × IsCharBoundary (string_bytes p.text.value) p.begin
        × IsCharBoundary (string_bytes p.text.value) p.end };
}

impl Part {
    /// The octets.
    fn as_str(&self) -> &str
        ensures { result.now ≡ self.now }
    {
        let text = Arc::as_ref(&self.text);
        &text.as_str()[self.begin as usize..self.end as usize]
    }
}

/// Where a name has its octets.
#[derive(Drop)]
enum Octets {
    Own(String),
    Part(Part),
    Lent(&'static str),
}

/// A text of which names are parts. Contracts see it as the list of its octets.
#[derive(Drop)]
pub struct NameText {
    text: Arc<String>,
}

impl Model for NameText {
    ghost use Rattle.std.specs.Prelude.{◌<◌, ◌^◌, List, ℕ, length, string_bytes};

    ghost Value = { List ℕ };

    ghost view = { λ t. string_bytes t.text.value };

    ghost invariant = { λ t. length (string_bytes t.text.value) < 2 ^ 32 };
}

impl NameText {
    /// A text. The error is that memory ran out, or places: it may have 4,294,967,295 octets.
    pub fn from_string(alloc: Global, text: String) -> Result<NameText, AllocError>
        ensures { IfOk result (λ t. t ≡ string_bytes text) }
    {
        if text.len() > 0xffff_ffff {
            return Err(AllocError);
        }
        match Arc::new(alloc, text) {
            Ok(text) => Ok(NameText { text }),
            Err(_) => Err(AllocError),
        }
    }

    /// The text.
    pub fn as_str(&self) -> &str
        ensures { result.now ≡ self.now }
    {
        Arc::as_ref(&self.text).as_str()
    }

    /// The name from one place of the text to another, in octets: each lies between two characters. It takes no memory.
    /// The error is that there are too many names of the text.
    pub fn name(&self, begin: usize, end: usize) -> Result<Name, AllocError>
        requires order { begin ≤ end }
        requires begin { IsCharBoundary self.now begin }
        requires end { IsCharBoundary self.now end }
        ensures { IfOk result (λ n. n ≡ slice_range self.now begin end) }
    {
        let part = Part {
            text: self.text.clone()?,
            begin: begin as u32,
            end: end as u32,
        };
        Ok(Name {
            octets: Octets::Part(part),
        })
    }
}

/// A name of the grammar file. Contracts see it as the list of its octets.
#[derive(Drop)]
pub struct Name {
    octets: Octets,
}

impl Model for Name {
    ghost use Rattle.std.specs.Prelude.{List, ℕ};
    ghost use Rattle.spv_table.specs.inner.Name.{octets_in};

    ghost Value = { List ℕ };

    ghost view = { λ n. octets_in n.octets };
}

impl Name {
    /// A copy of a text. The error is that memory ran out.
    pub fn from_str(alloc: Global, text: &str) -> Result<Name, AllocError>
        ensures { IfOk result (λ n. n ≡ text.now) }
    {
        Ok(Name::from_string(String::from_str(alloc, text)?))
    }

    /// A copy of the name. The error is that memory ran out.
    pub fn copy(&self, alloc: Global) -> Result<Name, AllocError>
        ensures { IfOk result (λ n. n ≡ self.now) }
    {
        Name::from_str(alloc, self.as_str())
    }

    /// The name that a text of the program is. It takes no memory.
    #[inline(always)]
    pub fn lent(text: &'static str) -> Name
        ensures { result ≡ text.now }
    {
        Name {
            octets: Octets::Lent(text),
        }
    }

    /// The name that a text is. It takes no memory.
    pub fn from_string(text: String) -> Name
        ensures { result ≡ string_bytes text }
    {
        Name {
            octets: Octets::Own(text),
        }
    }

    /// The text.
    pub fn as_str(&self) -> &str
        ensures { result.now ≡ self.now }
    {
        match &self.octets {
            Octets::Own(text) => text.as_str(),
            Octets::Part(part) => part.as_str(),
            Octets::Lent(text) => text,
        }
    }
}

impl Named for Name {
    ghost name = { λ n. n };

    fn name(&self) -> &str {
        self.as_str()
    }
}
