ghost use Rattle.std.specs.Prelude.{◌≡◌, ◌≤◌, ◌<◌, ◌*◌, ◌^◌, length, slice_index, All};
ghost use Rattle.spv_words.specs.Words.{words_of, StandFor};
ghost use Rattle.spv_words.specs.Header.{IsHeader, IsImage, greatest_length};
ghost use Rattle.spv_words.specs.declared.words.Order.TheVariants.{Little};

use crate::order::{turn, word_in};
use crate::words::{Header, Order};
use std::marker::Model;

/// The words of a module, at least 5 and at most 4,194,304 of them, whose header fits. (2.3)
///
/// A contract sees the list of the words. They are kept as bytes, the lowest of a word first.
#[derive(Drop)]
pub struct Image {
    bytes: Vec<u8>,
}

impl Model for Image {
    ghost use Rattle.std.specs.Prelude.{List, ℕ};

    ghost Value = { List ℕ };

    ghost use Rattle.spv_words.specs.Words.{words_of};
    ghost use Rattle.spv_words.specs.Header.{IsImage};
    ghost use Rattle.spv_words.specs.declared.words.Order.TheVariants.{Little};

    ghost view = { λ i. words_of Little i.bytes.items };

    ghost invariant = { λ i. IsImage i.bytes.items };
}

impl Image {
    /// The image of a module's bytes, the lowest byte of each word first. (2.3) It takes no memory.
    pub fn from_octets(octets: Vec<u8>) -> Image
        requires { IsImage octets.items }
        ensures { result ≡ words_of Little octets.items }
    {
        Image { bytes: octets }
    }

    /// What the header says: words 1 to 4. (2.3)
    #[tactic(auto, using(crate::proofs::Groups::images))]
    pub fn header(&self) -> Header
        ensures version { result.version ≡ slice_index self.now 1 }
        ensures generator { result.generator ≡ slice_index self.now 2 }
        ensures bound { result.bound ≡ slice_index self.now 3 }
        ensures schema { result.schema ≡ slice_index self.now 4 }
        ensures fits { IsHeader self.now }
    {
        Header {
            version: word_in(&self.bytes, Order::Little, 1),
            generator: word_in(&self.bytes, Order::Little, 2),
            bound: word_in(&self.bytes, Order::Little, 3),
            schema: word_in(&self.bytes, Order::Little, 4),
        }
    }

    // There is no `is_empty`: no image is empty.
    /// The number of words, those of the header too.
    #[tactic(auto, using(crate::proofs::Groups::images, crate::proofs::Standing::fitting))]
    pub fn len(&self) -> u32
        ensures words { result ≡ length self.now }
        ensures least { 5 ≤ length self.now }
        ensures most { length self.now ≤ greatest_length }
        ensures fit { All (λ w. w < 2 ^ 32) self.now }
    {
        (self.bytes.len() / 4) as u32
    }

    /// The bytes of the words, the lowest of a word first.
    #[tactic(auto, using(crate::proofs::Groups::images))]
    pub fn octets(&self) -> &[u8]
        ensures words { words_of Little result.now ≡ self.now }
        ensures len { length result.now ≡ 4 * length self.now }
        ensures stands { StandFor Little result.now self.now }
    {
        self.bytes.as_slice()
    }

    /// The bytes that stand for the words in an order. (2.3) It takes no memory.
    pub fn into_octets(self, order: Order) -> Vec<u8>
        ensures { StandFor order result.items self }
    {
        let mut octets = self.bytes;
        match order {
            Order::Little => {}
            Order::Big => turn(octets.as_mut_slice()),
        }
        octets
    }
}

/// The nth word of an image, counted from 0, the words of the header too. (2.3)
#[tactic(auto, using(crate::proofs::Groups::images))]
#[inline(always)]
pub fn word(image: &Image, n: u32) -> u32
    requires { n < length image.now }
    ensures { result ≡ slice_index image.now n }
{
    word_in(&image.bytes, Order::Little, n as usize)
}
