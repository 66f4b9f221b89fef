//! The pens that write a page.

ghost use Rattle.std.specs.Prelude.{◌≡◌, ◌≤◌, ◌++◌, IsUtf8, OnOk, string_bytes, take};
ghost use Rattle.std.proofs.Props.{props};
ghost use Rattle.spv_annotate.specs.Page.{contents_of, page_of};
ghost use Rattle.spv_annotate.specs.declared.draft.TheConstants.{FULL};
ghost use Rattle.spv_annotate.specs.inner.Look.{scene};

use crate::draft::{SIZE, push_draft};
use crate::look::Look;
use crate::piece::{Pen, Piece};
use std::alloc::AllocError;

/// A pen that writes the lines of a page.
#[derive(Drop)]
pub struct PagePen<'p, 'a> {
    /// The page so far.
    pub out: String,
    /// What is known where it is written.
    pub look: Look<'p, 'a>,
    /// Where lines are put together.
    pub buffer: [u8; SIZE],
    /// Where in the buffer ends what is still to be added to the page.
    pub at: usize,
    ghost high: { at ≤ FULL },
    ghost utf8: { IsUtf8 (take at buffer) } by { Prim.hlevel props },
}

impl<'p, 'a> Pen for PagePen<'p, 'a> {
    ghost text = { λ p. string_bytes p.out ++ take p.at p.buffer };

    ghost writes = { λ p. page_of (scene p.look) };

    #[inline(always)]
    fn write(&mut self, piece: Piece<'_>) -> Result<(), AllocError> {
        let at = self.at;
        self.at = 0;
        self.at = self.look.push(&mut self.out, &mut self.buffer, at, piece)?;
        Ok(())
    }
}

impl<'p, 'a> PagePen<'p, 'a> {
    /// Adds to the page what is still to be added to it.
    ///
    /// An `AllocError` comes only where a growth of memory was refused, and then nothing is said of what is left.
    pub fn finish(&mut self) -> Result<(), AllocError>
        ensures { OnOk result (string_bytes self.new.out
            ≡ string_bytes self.old.out ++ take self.old.at self.old.buffer) }
    {
        push_draft(&mut self.out, &self.buffer, self.at)
    }
}

/// A pen that writes the list of contents of a page.
#[derive(Drop)]
pub struct ContentsPen<'p, 'a> {
    /// The page so far.
    pub out: String,
    /// What is known where it is written.
    pub look: Look<'p, 'a>,
}

impl<'p, 'a> Pen for ContentsPen<'p, 'a> {
    ghost text = { λ p. string_bytes p.out };

    ghost writes = { λ p. contents_of (scene p.look) };

    fn write(&mut self, piece: Piece<'_>) -> Result<(), AllocError> {
        let look = self.look;
        look.push_contents(&mut self.out, piece)
    }
}
