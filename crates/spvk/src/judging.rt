//! The verdict on bytes in memory.
ghost use Rattle.std.specs.Prelude.{◌≡◌, ℕ, List, IfOk, IfErr, IsErrOf};
ghost use Rattle.spv_words.specs.Header.{IsModule};
ghost use Rattle.spv_words.specs.declared.words.Order.{Order};
ghost use Rattle.spv_check.specs.Verdict.{IsVerdict};
ghost use Rattle.spv_check.specs.Text.{line_of};
ghost use Rattle.spvk.specs.inner.Refusal.{refusal_of};

use spv_check::{Judgment, Verdict, check};
use spv_extended::Reach;
use spv_table::{Memory, Table};
use spv_words::{Image, WordError, image_of};
use std::alloc::Global;

/// What the code comes to with which bytes gave no image. W1 does not come of bytes in memory, and W9 is want of
/// memory.
pub fn refusal(code: WordError) -> Result<Judgment, Memory>
    ensures { result ≡ refusal_of code }
{
    match code {
        WordError::W1 | WordError::W9 => Err(Memory),
        _ => Ok(Judgment::Refused(code)),
    }
}

/// The verdict on the words of an image. The error is that memory ran out.
fn judged(alloc: Global, table: &Table, reach: Reach, image: &Image) -> Result<Judgment, Memory>
    ensures { (bytes : List ℕ) (order : Order) → IsModule order bytes image.now
        → IfOk result (λ j. IsVerdict table.now reach bytes (line_of j)) }
{
    match check(alloc, table, reach, image) {
        Ok(Verdict::Valid(_)) => Ok(Judgment::Valid),
        Ok(Verdict::Fault(fault)) => Ok(Judgment::Broken(fault)),
        Err(_) => Err(Memory),
    }
}

/// The verdict on these bytes. The error is that memory ran out.
pub fn judge(alloc: Global, table: &Table, reach: Reach, bytes: &[u8]) -> Result<Judgment, Memory>
    ensures { IfOk result (λ j. IsVerdict table.now reach bytes.now (line_of j)) }
{
    match image_of(alloc, bytes) {
        Ok((image, _)) => judged(alloc, table, reach, &image),
        Err(code) => refusal(code),
    }
}
