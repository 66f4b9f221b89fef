//! The pieces of the text for reading, and what writes them.
ghost use Rattle.std.specs.Prelude.{◌∷◌, [], ℕ, List, OnOk};
ghost use Rattle.spv_annotate.specs.Piece.{IsWritten, PlainPiece, plain_piece};

use std::alloc::AllocError;

/// A piece of the text for reading. Each text is one without a line feed. Instructions are told by their number, from
/// 0.
#[derive(Clone, Copy)]
pub enum Piece<'t> {
    /// A line of the header, without its end.
    Header(&'t str),
    /// A section of that number, from 1 to 9, begins with an instruction (SPIR-V Specification 1.6, section 2.4).
    Section { inst: u32, section: u32 },
    /// A function begins with the OpFunction of that number.
    Function(u32),
    /// A block begins with the OpLabel of that number.
    Block(u32),
    /// The line of an instruction, without its end: the shown line, each control character as `\xNN`.
    Line { inst: u32, text: &'t str },
    /// What stands behind the line of an instruction: spaces, and a comment that begins with `;`.
    Comment(&'t str),
    /// A line of evidence, without its end: a comment that begins with `; ^`.
    Mark(&'t str),
    /// The end of a line.
    Break,
}

/// What writes pieces, one behind the other.
pub trait Pen {
    // The octets written so far.
    ghost text: { Self → List ℕ };

    // The octets that are written for a piece.
    ghost writes: { Self → PlainPiece → List ℕ };

    /// Writes a piece.
    ///
    /// An `AllocError` comes only where a growth of memory was refused, and then nothing is said of what is left.
    fn write(&mut self, piece: Piece<'_>) -> Result<(), AllocError>
        ensures { OnOk result (IsWritten text writes (plain_piece piece.entry ∷ []) self.old self.new) };
}
