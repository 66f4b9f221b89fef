ghost use Rattle.std.specs.Prelude.{◌≡◌, ◌≤◌, ◌<◌, ◌^◌, ◌++◌, ◌∷◌, [], length, All};
ghost use Rattle.std.specs.Prelude.{IfOk, OnErr, OnOk};
ghost use Rattle.spv_words.specs.Header.{IsHeader, greatest_length};

use crate::image::Image;
use byteorder::{ByteOrder, LittleEndian};
use std::alloc::{AllocError, Global};
use std::marker::Model;

/// An image that is being written: the words so far, in order. (2.3)
///
/// A contract sees the list of the words. They are kept as an image keeps them, so that the end takes no memory.
#[derive(Drop)]
pub struct Draft {
    bytes: Vec<u8>,
}

impl Model for Draft {
    ghost use Rattle.std.specs.Prelude.{◌≡◌, ◌%◌, List, ℕ, length};

    ghost Value = { List ℕ };

    ghost use Rattle.spv_words.specs.Words.{words_of};
    ghost use Rattle.spv_words.specs.declared.words.Order.TheVariants.{Little};

    ghost view = { λ d. words_of Little d.bytes.items };

    ghost invariant = { λ d. length d.bytes.items % 4 ≡ 0 };
}

/// Bytes fit eight bits. It does nothing: its contract is what is used.
fn fit(bytes: &[u8])
    ensures { All (λ b. b < 256) bytes.now }
{}

impl Draft {
    /// No words. It takes no memory.
    pub fn new(alloc: Global) -> Draft
        ensures { result ≡ [] }
    {
        Draft {
            bytes: Vec::new(alloc),
        }
    }

    /// No words, and room for so many.
    ///
    /// # Errors
    ///
    /// Where the memory was refused.
    pub fn with_room(alloc: Global, words: usize) -> Result<Draft, AllocError>
        ensures { IfOk result (λ d. d ≡ []) }
    {
        Ok(Draft {
            bytes: Vec::with_capacity(alloc, words.saturating_mul(4))?,
        })
    }

    /// The number of words so far.
    #[tactic(auto, using(crate::proofs::Groups::images))]
    pub fn len(&self) -> usize
        ensures { result ≡ length self.now }
    {
        self.bytes.len() / 4
    }

    /// Adds a word at the end.
    ///
    /// # Errors
    ///
    /// Where a growth of memory was refused. The words are then as they were.
    pub fn push(&mut self, word: u32) -> Result<(), AllocError>
        ensures ok { OnOk result (self.new ≡ self.old ++ word ∷ []) }
        ensures err { OnErr result (self.new ≡ self.old) }
    {
        let mut octets = [0u8; 4];
        LittleEndian::write_u32(&mut octets, word);
        self.bytes.extend_from_slice(&octets)
    }

    /// The image of the words, of which the first five are a header that fits (2.3), and which are at
    /// most 4,194,304. It takes no memory.
    pub fn finish(self) -> Image
        requires header { IsHeader self }
        requires size { length self ≤ greatest_length }
        ensures { result ≡ self }
    {
        let bytes = self.bytes;
        fit(bytes.as_slice());
        Image::from_octets(bytes)
    }
}
