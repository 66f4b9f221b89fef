//! Rows of numbers that tell elements of a table, by spans of lists and of a text.

ghost use Rattle.std.specs.Prelude.{◌≡◌};

use crate::span::Span;
use crate::table::Category;

/// An instruction: its opcode; where its name is in the text; where its operands are among the items; where the names
/// of its capabilities are; and how many of its operands at the end are optional.
#[derive(Clone, Copy)]
pub struct EntryRow(pub u16, pub Span, pub Span, pub Span, pub u32);

/// An enumerant: its value; where its name is in the text; where the kinds of its parameters are among the numbers;
/// where the names of its capabilities are.
#[derive(Clone, Copy)]
pub struct EnumerantRow(pub u32, pub Span, pub Span, pub Span);

/// A kind: its category; where its name is in the text; where its bases are among the numbers; where its enumerants are
/// among those of all kinds; where the slots are that find their names; and where the places are of those with values
/// below 64.
#[derive(Clone, Copy)]
pub struct KindRow(
    pub Category,
    pub Span,
    pub Span,
    pub Span,
    pub Span,
    pub Span,
);

/// A row that tells where a name is.
pub trait NamedRow {
    ghost use Rattle.spv_table.specs.declared.span.Span.{Span};

    ghost span: { Self → Span };

    /// Where the name is in the text.
    fn span(&self) -> Span
        ensures { result ≡ span self.now };
}

impl NamedRow for EntryRow {
    ghost span = { λ r. r.1 };

    #[inline(always)]
    fn span(&self) -> Span {
        self.1
    }
}

impl NamedRow for EnumerantRow {
    ghost span = { λ r. r.1 };

    #[inline(always)]
    fn span(&self) -> Span {
        self.1
    }
}

impl NamedRow for KindRow {
    ghost span = { λ r. r.1 };

    #[inline(always)]
    fn span(&self) -> Span {
        self.1
    }
}
