//! The verdict on the bytes of a stream.
ghost use Rattle.std.specs.Prelude.{◌≡◌, ◌≢◌, ◌⊎◌, ◌↔◌, List, ℕ, IfOk, IfErr, IfSome};
ghost use Rattle.std.specs.Prelude.{IsErrOf, IsTrue};
ghost use Rattle.spv_words.specs.Header.{IsModule};
ghost use Rattle.spv_words.specs.declared.words.Order.{Order};
ghost use Rattle.spv_words.specs.declared.words.WordError.TheVariants.{W1, W9};
ghost use Rattle.spv_check.specs.Outcome.{HasFailed, OfKnown};
ghost use Rattle.spv_check.specs.Verdict.{IsVerdict, valid_line};
ghost use Rattle.spv_check.specs.Text.{line_of, refusal_of};
ghost use Rattle.spv_check.specs.Stream.{Begins, TellsVerdict};

use crate::checked::Verdict;
use crate::judging::check;
use crate::verdict_line::{Judgment, line_for};
use spv_extended::Reach;
use spv_table::Table;
use spv_words::{Image, Sink, Source, WordError, read_image, write_all};
use std::alloc::Global;

/// What the bytes come to that gave no image: W1 and W9 are errors, and the others verdicts.
fn refusal(code: WordError) -> Result<Judgment, WordError>
    ensures { result ≡ refusal_of code }
{
    match code {
        WordError::W1 => Err(WordError::W1),
        WordError::W9 => Err(WordError::W9),
        _ => Ok(Judgment::Refused(code)),
    }
}

/// What the bytes come to that gave an image.
///
/// `W9`: a growth of memory was refused. There is no other error.
fn judged(alloc: Global, table: &Table, reach: Reach, image: &Image) -> Result<Judgment, WordError>
    ensures verdict { (bytes : List ℕ) (order : Order) → IsModule order bytes image.now
        → IfOk result (λ v. IsVerdict table.now reach bytes (line_of v)) }
    ensures only { IfErr result (λ e. e ≡ W9) }
{
    match check(alloc, table, reach, image) {
        Ok(Verdict::Valid(_)) => Ok(Judgment::Valid),
        Ok(Verdict::Fault(fault)) => Ok(Judgment::Broken(fault)),
        Err(_) => Err(WordError::W9),
    }
}

/// The verdict on all the bytes of a reader.
fn verdict_on<R: Source>(
    alloc: Global,
    table: &Table,
    reach: Reach,
    r: &mut R,
) -> Result<Judgment, WordError>
    ensures known { IfSome (R.remaining r.old)
        (λ bytes. IfOk result (λ v. IsVerdict table.now reach bytes (line_of v))) }
    ensures count { HasFailed R.failures r.old r.new ↔ IsErrOf result W1 }
    ensures only { IfErr result (λ e. (e ≡ W1) ⊎ (e ≡ W9)) }
{
    let image = match read_image(alloc, r) {
        Ok((image, _)) => image,
        Err(code) => return refusal(code),
    };
    judged(alloc, table, reach, &image)
}

/// Whether no rule is broken.
fn is_valid(verdict: Judgment) -> bool
    ensures { IsTrue result ↔ (line_of verdict ≡ valid_line) }
{
    match verdict {
        Judgment::Valid => true,
        Judgment::Refused(_) => false,
        Judgment::Broken(_) => false,
    }
}

/// Writes the verdict line of a reader's bytes up to the end of input, as far as they are looked at, and answers
/// whether it is `valid`.
///
/// `W1`: a read or a write failed. After a failed read nothing was written, after a failed write a beginning of the
/// line. `W9`: a growth of memory was refused, and nothing was written. There is no other error: W2 to W8 are verdicts.
pub fn check_stream<R: Source, W: Sink>(
    alloc: Global,
    table: &Table,
    reach: Reach,
    r: &mut R,
    w: &mut W,
) -> Result<bool, WordError>
    // The writer has got the verdict line of all the bytes that the reader still gave.
    ensures verdict { OfKnown (R.remaining r.old) (W.contents w.old)
        (λ bytes old. IfOk result (λ answer. TellsVerdict table.now reach bytes old (W.contents w.new) answer)) }
    // The answer is W1 exactly where a read or a write failed.
    ensures count { (HasFailed R.failures r.old r.new ⊎ HasFailed W.failures w.old w.new) ↔ IsErrOf result W1 }
    ensures only { IfErr result (λ e. (e ≡ W1) ⊎ (e ≡ W9)) }
    // After a failed read, or where memory runs out, the writer is as it was.
    ensures read { HasFailed R.failures r.old r.new → w.new ≡ w.old }
    ensures memory { IsErrOf result W9 → w.new ≡ w.old }
    // After a failed write it has got a beginning of the line.
    ensures begun { HasFailed W.failures w.old w.new
        → OfKnown (R.remaining r.old) (W.contents w.old)
        (λ bytes old. Begins table.now reach bytes old (W.contents w.new)) }
{
    let verdict = verdict_on(alloc, table, reach, r)?;
    let line = line_for(verdict);
    write_all(line.as_slice(), w)?;
    Ok(is_valid(verdict))
}
