ghost use Rattle.std.specs.Prelude.{◌≡◌, ◌≢◌, ◌≤◌, ◌<◌, ◌↔◌, ◌+◌, length, slice_index};
ghost use Rattle.std.specs.Prelude.{IfOk, IfErr, IfSome, IsErrOf, IsNone, vec_len};
ghost use Rattle.std.specs.Io.KnownBytes.{Consumes, IsAtEnd};
ghost use Rattle.spv_words.specs.Words.{words_of};
ghost use Rattle.spv_words.specs.Streams.{GaveAtMost, IsStop};
ghost use Rattle.spv_words.specs.Header.{magic_number, greatest_size, IsImage, IsModule, IsFirstBroken, RefusesBytes};
ghost use Rattle.spv_words.specs.inner.HeaderTest.{PassesTest, Breaks};
ghost use Rattle.spv_words.specs.declared.words.Order.TheVariants.{Little, Big};
ghost use Rattle.spv_words.specs.declared.words.WordError.TheVariants.{W1, W8, W9};

use crate::image::Image;
use crate::limits::{GREATEST_BOUND, GREATEST_SIZE, MAGIC_NUMBER, VERSION};
use crate::order::{turn, word_in};
use crate::stream::Source;
use crate::words::{Order, WordError};
use std::alloc::{AllocError, Global};

/// How many bytes are read at a time: few, since each page of the block costs a small module time.
const BLOCK_SIZE: usize = 8192;

/// Makes room for more bytes. Where there is too little, it is at once all the room that the bytes
/// of a reader can still take.
fn make_room(bytes: &mut Vec<u8>, more: usize) -> Result<(), AllocError>
    requires { vec_len bytes.old + more ≤ 16777217 }
    ensures { bytes.new.items ≡ bytes.old.items }
{
    if bytes.capacity() - bytes.len() < more {
        bytes.reserve_exact(GREATEST_SIZE + 1 - bytes.len())?;
    }
    Ok(())
}

/// Reads a module's bytes to the end of input, as `read_image` does, and looks at none of them.
///
/// # Errors
///
/// `W1` where a read failed, an interrupted one too; `W8` where more than 16,777,216 bytes came; `W9` where memory was
/// refused.
pub fn read_octets<R: Source>(alloc: Global, r: &mut R) -> Result<Vec<u8>, WordError>
    ensures count { R.failures r.new ≢ R.failures r.old ↔ IsErrOf result W1 }
    ensures steady { ¬ IsErrOf result W1 → R.failures r.new ≡ R.failures r.old }
    ensures known { IfOk result (λ v. Consumes (R.remaining r.old) (R.remaining r.new) v.items
        × IsAtEnd (R.remaining r.new)) }
    ensures most { IfOk result (λ v. vec_len v ≤ 16777216) }
    ensures over { IsErrOf result W8 → IfSome (R.remaining r.old) (λ xs. 16777216 < length xs) }
    ensures codes { IfErr result (λ e. IsStop e) }
    ensures given { IfSome (R.remaining r.old) (λ xs. GaveAtMost 16777217 xs (R.remaining r.new)) }
{
    let mut bytes = Vec::with_capacity(alloc, BLOCK_SIZE)?;
    let mut block = [0u8; BLOCK_SIZE];
    while bytes.len() <= GREATEST_SIZE {
        let room = (GREATEST_SIZE + 1 - bytes.len()).min(BLOCK_SIZE);
        let n = r.read(&mut block[..room])?;
        if n == 0 {
            return Ok(bytes);
        }
        make_room(&mut bytes, n)?;
        bytes.extend_from_slice(&block[..n])?;
    }
    Err(WordError::W8)
}

/// The order in which the first word is the magic number. (2.3)
fn order_in(bytes: &[u8]) -> Option<Order>
    requires { 4 ≤ length bytes.now }
    ensures found { IfSome result (λ o. slice_index (words_of o bytes.now) 0 ≡ magic_number) }
    ensures little { IsNone result → slice_index (words_of Little bytes.now) 0 ≢ magic_number }
    ensures big { IsNone result → slice_index (words_of Big bytes.now) 0 ≢ magic_number }
{
    if word_in(bytes, Order::Little, 0) == MAGIC_NUMBER {
        return Some(Order::Little);
    }
    if word_in(bytes, Order::Big, 0) == MAGIC_NUMBER {
        return Some(Order::Big);
    }
    None
}

/// The first code that the version, the schema and the bound of a header break, or none.
fn broken_by(version: u32, schema: u32, bound: u32) -> Option<WordError>
    ensures some { IfSome result (λ e. Breaks e version schema bound) }
    ensures none { IsNone result → PassesTest version schema bound }
{
    if version != VERSION {
        return Some(WordError::W5);
    }
    if schema != 0 {
        return Some(WordError::W6);
    }
    if bound == 0 || bound > GREATEST_BOUND {
        return Some(WordError::W7);
    }
    None
}

/// The order of the bytes of a module, or the first code that they break.
fn order_of_module(bytes: &[u8]) -> Result<Order, WordError>
    requires { length bytes.now ≤ greatest_size }
    ensures ok { IfOk result (λ o. IsModule o bytes.now (words_of o bytes.now)) }
    ensures refused { IfErr result (λ e. IsFirstBroken e bytes.now) }
    ensures codes { IfErr result (λ e. (e ≢ W1) × (e ≢ W9)) }
{
    if bytes.len() < 20 {
        return Err(WordError::W2);
    }
    if bytes.len() % 4 != 0 {
        return Err(WordError::W3);
    }
    let Some(order) = order_in(bytes) else {
        return Err(WordError::W4);
    };
    let version = word_in(bytes, order, 1);
    let schema = word_in(bytes, order, 4);
    let bound = word_in(bytes, order, 3);
    match broken_by(version, schema, bound) {
        Some(broken) => Err(broken),
        None => Ok(order),
    }
}

/// Brings the bytes of a module into the order `Little`.
fn put_in_little(bytes: &mut [u8], order: Order)
    requires { IsModule order bytes.old (words_of order bytes.old) }
    ensures words { words_of Little bytes.new ≡ words_of order bytes.old }
    ensures fits { IsImage bytes.new }
{
    match order {
        Order::Little => {}
        Order::Big => turn(bytes),
    }
}

/// The words of a module's bytes, which become its image, and the order that they are in. (2.3) Of bytes that came from
/// `read_octets` this is what `read_image` answers.
///
/// # Errors
///
/// The first of `W2` to `W7` that the bytes break. Then they are freed.
pub fn image_from(bytes: Vec<u8>) -> Result<(Image, Order), WordError>
    requires { vec_len bytes ≤ greatest_size }
    ensures gives { IfOk result (λ p. IsModule p.1 bytes.items p.0) }
    ensures refused { IfErr result (λ e. IsFirstBroken e bytes.items) }
    ensures codes { IfErr result (λ e. (e ≢ W1) × (e ≢ W9)) }
{
    let mut bytes = bytes;
    let order = order_of_module(&bytes)?;
    put_in_little(&mut bytes, order);
    Ok((Image::from_octets(bytes), order))
}

/// The words of a module whose bytes are in memory, and the order that the bytes are in. (2.3)
///
/// The bytes are copied once.
///
/// # Errors
///
/// `W8` where there are more than 16,777,216 bytes; `W9` where memory was refused; else the first of
/// `W2` to `W7` that the bytes break.
pub fn image_of(alloc: Global, bytes: &[u8]) -> Result<(Image, Order), WordError>
    // The bytes are a module's, in that order, and the image is its words.
    ensures gives { IfOk result (λ p. IsModule p.1 bytes.now p.0) }
    // The code is the first that the bytes break, so a module's bytes are refused by W9 alone.
    ensures refuses { IfErr result (λ e. RefusesBytes e bytes.now) }
    // Nothing is read, so no read fails.
    ensures reads { ¬ IsErrOf result W1 }
{
    if bytes.len() > GREATEST_SIZE {
        return Err(WordError::W8);
    }
    image_from(Vec::from_slice(alloc, bytes)?)
}

/// Reads a module's bytes to the end of input: its words, and the order that the bytes are in.
/// (2.3)
///
/// At most 16,777,217 bytes are read.
///
/// # Errors
///
/// `W1` where a read failed, an interrupted one too; `W8` where more than 16,777,216 bytes came;
/// `W9` where memory was refused; at the end of input the first of `W2` to `W7` that the bytes
/// break. What was read of the reader is gone.
pub fn read_image<R: Source>(alloc: Global, r: &mut R) -> Result<(Image, Order), WordError>
    // All the bytes are a module's, in that order, and the image is its words.
    ensures gives { IfSome (R.remaining r.old) (λ xs. IfOk result (λ p. IsModule p.1 xs p.0)) }
    // The code is the first that the bytes break, so a module's bytes are refused by W1 and W9 alone.
    ensures refuses { IfSome (R.remaining r.old) (λ xs. IfErr result (λ e. RefusesBytes e xs)) }
    // The answer is W1 exactly where a read failed.
    ensures count { R.failures r.new ≢ R.failures r.old ↔ IsErrOf result W1 }
    ensures steady { ¬ IsErrOf result W1 → R.failures r.new ≡ R.failures r.old }
    ensures most { IfSome (R.remaining r.old) (λ xs. GaveAtMost 16777217 xs (R.remaining r.new)) }
{
    image_from(read_octets(alloc, r)?)
}
