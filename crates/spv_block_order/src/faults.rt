//! The first of the two rules that is broken, function by function.

ghost use Rattle.std.specs.Prelude.{◌≡◌, IfOk, length};
ghost use Rattle.spv_table.specs.Table.{Table};
ghost use Rattle.spv_layout.specs.Place.{AreFew};
ghost use Rattle.spv_flow.specs.walks.inner.Code.{insts_of, IsCode};
ghost use Rattle.spv_flow.specs.walks.inner.Starts.{IsExtent};
ghost use Rattle.spv_block_order.specs.inner.First.{IsFirstIn, IsFoundFirst, IsFirstFound};
ghost use Rattle.spv_block_order.specs.inner.Rising.{IsSound};

use crate::blocks::{Buffers, first_in_function};
use crate::rise::rise_of;
use crate::uses::first_early_use;
use spv_flow::walks::code::Code;
use spv_module::Rule;
use spv_module::opcode::FUNCTION;
use std::alloc::{AllocError, Global};

/// A rule that is broken, and at which instruction.
#[derive(Clone, Copy)]
pub struct Found {
    pub rule: Rule,
    pub inst: u32,
}

/// The first broken rule of a function, of which `label` is the first OpLabel at which O1 is broken. Of what is told at
/// an OpLabel, O1 comes first, so that uses are looked at below it alone.
fn first_by(code: &Code<'_, '_>, function: u32, end: u32, label: Option<u32>) -> Option<Found>
    requires code { (G : Table) × IsCode G code.now }
    requires extent { IsExtent (insts_of code.now) function end }
    requires label { (G : Table) → IsCode G code.now → IsFirstIn G (insts_of code.now) function label }
    ensures { (G : Table) → IsCode G code.now → IsFoundFirst G (insts_of code.now) function result }
{
    match label {
        Some(inst) => match first_early_use(code, function, inst) {
            Some(early) => Some(Found {
                rule: Rule::O2,
                inst: early,
            }),
            None => Some(Found {
                rule: Rule::O1,
                inst,
            }),
        },
        None => match first_early_use(code, function, end) {
            Some(early) => Some(Found {
                rule: Rule::O2,
                inst: early,
            }),
            None => None,
        },
    }
}

/// The first broken rule of a function of which no walk comes to some block by lower instructions alone.
#[cold]
#[inline(never)]
fn first_of(
    alloc: Global,
    code: &Code<'_, '_>,
    function: u32,
    end: u32,
    buffers: &mut Buffers,
) -> Result<Option<Found>, AllocError>
    requires code { (G : Table) × IsCode G code.now }
    requires extent { IsExtent (insts_of code.now) function end }
    requires most { AreFew code.now.insts.now }
    ensures { IfOk result (λ o. (G : Table) → IsCode G code.now
        → IsFoundFirst G (insts_of code.now) function o) }
{
    buffers.make_room(alloc, code.insts.len())?;
    let label = first_in_function(alloc, code, function, end, buffers)?;
    Ok(first_by(code, function, end, label))
}

/// The first of the two rules that is broken, and the instruction at which it is.
///
/// An `AllocError` comes only where a growth of memory was refused.
pub fn first_fault(alloc: Global, code: &Code<'_, '_>) -> Result<Option<Found>, AllocError>
    requires code { (G : Table) × IsCode G code.now }
    requires most { AreFew code.now.insts.now }
    ensures { IfOk result (λ o. (G : Table) → IsSound G code.now → IsFirstFound G (insts_of code.now) o) }
{
    let mut buffers = Buffers::empty(alloc);
    let mut marks: Vec<u32> = Vec::new(alloc);
    let count = code.insts.len() as u32;
    let mut at = code.globals;
    while at < count {
        if code.insts[at as usize].opcode == FUNCTION {
            let rise = rise_of(alloc, code, at, &mut marks)?;
            if !rise.whole {
                if let Some(found) = first_of(alloc, code, at, rise.end, &mut buffers)? {
                    return Ok(Some(found));
                }
            }
            at = rise.end;
        } else {
            at += 1;
        }
    }
    Ok(None)
}
