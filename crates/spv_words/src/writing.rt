ghost use Rattle.std.specs.Prelude.{◌≡◌, ◌≢◌, ◌≤◌, ◌↔◌, ◌*◌, ◌%◌, ◌++◌, ℕ, Some};
ghost use Rattle.std.specs.Prelude.{length, take, IfErr, IfSome, IsErrOf, OnOk, OnErr};
ghost use Rattle.std.specs.Io.KnownBytes.{Appends};
ghost use Rattle.spv_words.specs.Words.{turned};
ghost use Rattle.spv_words.specs.Streams.{HoldsBytes};
ghost use Rattle.spv_words.specs.declared.words.WordError.TheVariants.{W1};

use crate::image::Image;
use crate::order::turn_into;
use crate::stream::Sink;
use crate::words::{Order, WordError};

/// How many bytes are turned at a time, a multiple of 4.
const BLOCK_SIZE: usize = 4096;

/// Writes all the bytes, in order. It takes no memory.
///
/// # Errors
///
/// Only `W1`, where a write failed or took nothing. A beginning of the bytes was then written.
pub fn write_all<W: Sink>(bytes: &[u8], w: &mut W) -> Result<(), WordError>
    ensures all { OnOk result (Appends (W.contents w.old) (W.contents w.new) bytes.now) }
    ensures begun { IfSome (W.contents w.old)
        (λ xs. (n : ℕ) × (n ≤ length bytes.now) × (W.contents w.new ≡ Some (xs ++ take n bytes.now))) }
    ensures only { IfErr result (λ e. e ≡ W1) }
    // The answer is W1 exactly where a write failed.
    ensures count { W.failures w.new ≢ W.failures w.old ↔ IsErrOf result W1 }
    ensures steady { OnOk result (W.failures w.new ≡ W.failures w.old) }
{
    let mut at = 0;
    while at < bytes.len() {
        at += w.write(&bytes[at..])?;
    }
    Ok(())
}

/// Writes all the bytes, each group of four back to front. After a failure a beginning of them was
/// written.
fn write_turned<W: Sink>(bytes: &[u8], w: &mut W) -> Result<(), WordError>
    requires { length bytes.now % 4 ≡ 0 }
    ensures all { OnOk result (Appends (W.contents w.old) (W.contents w.new) (turned bytes.now)) }
    ensures begun { IfSome (W.contents w.old)
        (λ xs. (n : ℕ) × (n ≤ length bytes.now)
        × (W.contents w.new ≡ Some (xs ++ take n (turned bytes.now)))) }
    ensures only { IfErr result (λ e. e ≡ W1) }
    ensures count { W.failures w.new ≢ W.failures w.old ↔ IsErrOf result W1 }
    ensures steady { OnOk result (W.failures w.new ≡ W.failures w.old) }
{
    let mut block = [0u8; BLOCK_SIZE];
    let mut at = 0;
    while at < bytes.len() {
        let size = (bytes.len() - at).min(BLOCK_SIZE);
        let part = &mut block[..size];
        turn_into(&bytes[at..at + size], part);
        write_all(part, w)?;
        at += size;
    }
    Ok(())
}

/// Writes the bytes that stand for an image's words in an order. (2.3) It takes no memory.
///
/// # Errors
///
/// Only `W1`, where a write failed or took nothing. A beginning of the bytes was then written.
pub fn write_image<W: Sink>(image: &Image, order: Order, w: &mut W) -> Result<(), WordError>
    ensures all { OnOk result (IfSome (W.contents w.old)
        (λ xs. HoldsBytes order image.now xs (W.contents w.new) (4 * length image.now))) }
    ensures begun { IfSome (W.contents w.old) (λ xs. (n : ℕ) × HoldsBytes order image.now xs (W.contents w.new) n) }
    ensures only { IfErr result (λ e. e ≡ W1) }
    // The answer is W1 exactly where a write failed.
    ensures count { W.failures w.new ≢ W.failures w.old ↔ IsErrOf result W1 }
    ensures steady { OnOk result (W.failures w.new ≡ W.failures w.old) }
{
    let octets = image.octets();
    match order {
        Order::Little => write_all(octets, w),
        Order::Big => write_turned(octets, w),
    }
}
