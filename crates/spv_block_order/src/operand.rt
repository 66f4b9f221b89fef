//! The operand that uses a local value before its definition.

ghost use Rattle.std.specs.Prelude.{◌<◌, MatchOption, length};
ghost use Rattle.spv_table.specs.Table.{Table};
ghost use Rattle.spv_flow.specs.walks.inner.Code.{insts_of, IsCode};
ghost use Rattle.spv_block_order.specs.Early.{IsEarlyUse};
ghost use Rattle.spv_block_order.specs.inner.Uses.{IsEarlyAt, IsEarlyAtBy, IsEarlyUseBy, IsLater, IsLaterBy};

use crate::uses::{is_later, used};
use spv_flow::walks::code::Code;

/// The definition of an id that is a local value which no instruction below one has as its result.
fn later_place(code: &Code<'_, '_>, at: u32, id: u32) -> Option<u32>
    ensures { (G : Table) → IsCode G code.now
        → MatchOption result (¬ (IsLater (insts_of code.now) at id)) (IsLaterBy (insts_of code.now) at id) }
{
    if !is_later(code, at, id) {
        return None;
    }
    code.definition(id)
}

/// The definition of the id that operand `n` uses, if that is so.
fn early_place(code: &Code<'_, '_>, at: u32, n: usize) -> Option<u32>
    requires { at < length code.now.insts.now }
    ensures { (G : Table) → IsCode G code.now
        → MatchOption result (¬ (IsEarlyAt G (insts_of code.now) at n)) (IsEarlyAtBy G (insts_of code.now) at n) }
{
    match used(&code.insts[at as usize], n) {
        Some(id) => later_place(code, at, id),
        None => None,
    }
}

/// The first operand by which an instruction breaks O2, and the instruction that defines its id.
pub fn early_operand(code: &Code<'_, '_>, at: u32) -> (u32, u32)
    requires at { at < length code.now.insts.now }
    requires broken { (G : Table) × IsCode G code.now × IsEarlyUse G (insts_of code.now) at }
    ensures { (G : Table) → IsCode G code.now → IsEarlyUseBy G (insts_of code.now) at result.0 result.1 }
{
    let inst = &code.insts[at as usize];
    for n in 0..inst.operands.as_slice().len() {
        if let Some(place) = early_place(code, at, n) {
            return (n as u32, place);
        }
    }
    unreachable!()
}
