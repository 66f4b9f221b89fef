//! Room for what is kept of definitions, by the ids that may come.

ghost use Rattle.std.specs.Prelude.{IfOk, []};
ghost use Rattle.spv_inst.specs.inner.Known.{Knows};

use crate::definitions::{Definitions, LEAST_REACH};
use spv_ranks::{Ranks, dense_bound};
use spv_table::{Head, Table};
use spv_words::{Image, word};
use std::alloc::{AllocError, Global};

/// Adds the word of a number, from 0, if it is that of an instruction that ends before the word `end`, and below a
/// bound, as ids are.
#[inline(always)]
fn push_word(
    image: &Image,
    bound: u32,
    at: u32,
    end: u32,
    ids: &mut Vec<u32>,
) -> Result<(), AllocError> {
    if at < end && at < image.len() {
        let id = word(image, at);
        if id < bound {
            ids.push(id)?;
        }
    }
    Ok(())
}

/// Adds each of the first two words behind the first one of an instruction that has a result of which the front of its
/// pattern does not tell.
fn push_both(
    image: &Image,
    bound: u32,
    first: u32,
    end: u32,
    ids: &mut Vec<u32>,
) -> Result<(), AllocError> {
    push_word(image, bound, first, end, ids)?;
    push_word(image, bound, first.saturating_add(1), end, ids)
}

/// The ids below a bound that may be results of the instructions of an image, as its words look. Nothing is promised of
/// them.
fn results_in(
    alloc: Global,
    table: &Table,
    image: &Image,
    bound: u32,
) -> Result<Vec<u32>, AllocError> {
    let mut ids = Vec::new(alloc);
    let len = image.len();
    let mut at = 5;
    while at < len {
        let begin = word(image, at);
        let count = begin >> 16;
        if count == 0 {
            break;
        }
        let opcode = (begin & 0xffff) as u16;
        let first = at.saturating_add(1);
        let end = at.saturating_add(count);
        match table.front(opcode).head {
            Head::Result => push_word(image, bound, first, end, &mut ids)?,
            Head::TypeAndResult => push_word(image, bound, first.saturating_add(1), end, &mut ids)?,
            Head::Nothing => if table.has_result(opcode, true) {
                push_both(image, bound, first, end, &mut ids)?;
            },
        }
        at = end;
    }
    Ok(ids)
}

/// Room for the definitions of an image, of which nothing is known yet. Where its bound is so great that half of the
/// ids below it cannot be results, ids have places by their ranks.
///
/// An `AllocError` comes only where a growth of memory was refused.
pub fn room_for(alloc: Global, table: &Table, image: &Image) -> Result<Definitions, AllocError>
    ensures { IfOk result (λ d. Knows d []) }
{
    let bound = image.header().bound;
    if bound <= LEAST_REACH.max(image.len() / 2) {
        return Definitions::with_room(alloc, bound);
    }
    let ids = results_in(alloc, table, image, bound)?;
    let reach = dense_bound(ids.as_slice());
    let ranks = Ranks::of(alloc, ids, reach)?;
    Definitions::ranked(alloc, reach, ranks)
}
