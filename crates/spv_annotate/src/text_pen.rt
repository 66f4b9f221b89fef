//! The pen that writes the text for reading.

ghost use Rattle.std.specs.Prelude.{◌≡◌, ◌++◌, ◌∷◌, [], Bool, List, OnOk, string_bytes, true};
ghost use Rattle.spv_annotate.specs.Piece.{colored, plain_piece, text_of};

use crate::piece::{Pen, Piece};
use std::alloc::AllocError;

/// A pen that writes the text of each piece, in colours of a terminal or without.
#[derive(Drop)]
pub struct TextPen {
    /// The text so far.
    pub out: String,
    /// Whether comments are dim and evidence is red.
    pub color: bool,
}

/// Adds a text between a sequence of a terminal that begins a colour, and the one that ends it.
fn push_ink(out: &mut String, begin: &str, text: &str) -> Result<(), AllocError>
    ensures { OnOk result (string_bytes out.new ≡ string_bytes out.old ++ colored true begin.now text.now) }
{
    out.push_str(begin)?;
    out.push_str(text)?;
    out.push_str("\x1b[0m")
}

/// Adds a text in the colour that a sequence of a terminal begins, or as it is.
#[inline(always)]
fn push_colored(out: &mut String, color: bool, begin: &str, text: &str) -> Result<(), AllocError>
    ensures { OnOk result (string_bytes out.new ≡ string_bytes out.old ++ colored color begin.now text.now) }
{
    if color {
        return push_ink(out, begin, text);
    }
    out.push_str(text)
}

/// Adds the text of a piece.
#[inline(always)]
fn push_piece(out: &mut String, color: bool, piece: Piece<'_>) -> Result<(), AllocError>
    ensures { OnOk result (string_bytes out.new ≡ string_bytes out.old ++ text_of color (plain_piece piece.entry)) }
{
    match piece {
        Piece::Header(text) => out.push_str(text),
        Piece::Section { .. } | Piece::Function(_) | Piece::Break => out.push('\n'),
        Piece::Block(_) => Ok(()),
        Piece::Line { text, .. } => out.push_str(text),
        Piece::Comment(text) => push_colored(out, color, "\x1b[2m", text),
        Piece::Mark(text) => push_colored(out, color, "\x1b[31m", text),
    }
}

impl Pen for TextPen {
    ghost text = { λ p. string_bytes p.out };

    ghost writes = { λ p. text_of p.color };

    #[inline(always)]
    fn write(&mut self, piece: Piece<'_>) -> Result<(), AllocError> {
        push_piece(&mut self.out, self.color, piece)
    }
}
