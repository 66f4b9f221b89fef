//! Instructions that the fronts of their patterns tell.

ghost use Rattle.std.specs.Prelude.{◌≡◌, ◌++◌, ◌≤◌, ◌+◌, ◌-◌, length, OnOk, vec_len, vec_capacity};
ghost use Rattle.spv_table.specs.inner.Front.{head_len};
ghost use Rattle.spv_inst.specs.inner.Front.{head_operands, id_operands};
ghost use Rattle.spv_inst.specs.inner.Reading.{between};

use spv_module::Operand;
use spv_table::Head;
use spv_words::{Image, word};
use std::alloc::AllocError;

/// Adds the operands of a head to a list that has room for them, and answers the number of the word after them. `first`
/// is that of their first word, in the module from 0.
#[inline(always)]
fn push_head(image: &Image, operands: &mut Vec<Operand<'_>>, head: Head, first: u32) -> u32
    requires fits { first + head_len head ≤ length image.now }
    requires spare { vec_len operands.now + head_len head ≤ vec_capacity operands.now }
    ensures items { operands.new.items ≡ operands.old.items ++ head_operands head image.now first }
    ensures next { result ≡ first + head_len head }
    ensures len { vec_len operands.new ≡ vec_len operands.old + head_len head }
    ensures capacity { vec_capacity operands.new ≡ vec_capacity operands.old }
{
    // The length bounds how many words there are.
    let _ = image.len();
    match head {
        Head::Nothing => first,
        Head::Result => {
            operands.push_reserved(Operand::Result(word(image, first)));
            first + 1
        }
        Head::TypeAndResult => {
            operands.push_reserved(Operand::OfType(word(image, first)));
            operands.push_reserved(Operand::Result(word(image, first + 1)));
            first + 2
        }
    }
}

/// Adds the words of the module from `first` up to `end`, counted from 0, as ids to a list that has room for them.
#[inline(always)]
fn push_ids(image: &Image, operands: &mut Vec<Operand<'_>>, first: u32, end: u32)
    requires order { first ≤ end }
    requires fits { end ≤ length image.now }
    requires spare { vec_len operands.now + (end - first) ≤ vec_capacity operands.now }
    ensures { operands.new.items ≡ operands.old.items ++ id_operands (between image.now first end) }
{
    // Mostly they are few.
    if end - first == 2 {
        operands.push_reserved(Operand::Id(word(image, first)));
        operands.push_reserved(Operand::Id(word(image, first + 1)));
        return;
    }
    let mut at = first;
    while at < end {
        operands.push_reserved(Operand::Id(word(image, at)));
        at += 1;
    }
}

/// Adds the words of the module from `first` up to `end`, counted from 0, to a list as the operands of a head and ids.
///
/// An `AllocError` comes only where a growth of memory was refused, and then nothing is said of what is left of the
/// list.
#[inline(always)]
pub fn read_front(
    image: &Image,
    operands: &mut Vec<Operand<'_>>,
    head: Head,
    first: u32,
    end: u32,
) -> Result<(), AllocError>
    requires order { first + head_len head ≤ end }
    requires fits { end ≤ length image.now }
    ensures { OnOk result (operands.new.items ≡ operands.old.items ++ (head_operands head image.now first
        ++ id_operands (between image.now (first + head_len head) end))) }
{
    operands.reserve((end - first) as usize)?;
    let behind = push_head(image, operands, head, first);
    push_ids(image, operands, behind, end);
    Ok(())
}
