ghost use Rattle.std.specs.Prelude.{◌≡◌, ◌<◌, ◌≤◌, ◌+◌, length, take, drop, IfOk};

use crate::operand::Operand;
use spv_table::Memory;
use std::alloc::{AllocError, Global};
use std::fmt::{self, Debug, Formatter, Write};
use std::marker::Model;
use std::rc::Rc;

/// The operands of an instruction, in order. Contracts see them as a list.
///
/// They are part of a list that instructions may share: those that are decoded one after another do, so that an
/// instruction takes 16 bytes beside its operands, and few growths of memory serve many.
#[derive(Drop)]
pub struct Operands<'a> {
    shared: Rc<Vec<Operand<'a>>>,
    /// The place of the first operand in the shared list, from 0.
    first: u32,
    /// How many they are.
    count: u32,
}

impl<'a> Model for Operands<'a> {
    ghost use Rattle.std.specs.Prelude.{◌≤◌, ◌+◌, List, length, take, drop};
    ghost use Rattle.spv_module.specs.declared.operand.Operand.{Operand};

    ghost Value = { List Operand };

    ghost view = { λ o. take o.count (drop o.first o.shared.value.items) };

    ghost invariant = { λ o. o.first + o.count ≤ length o.shared.value.items };
}

impl<'a> Operands<'a> {
    /// A copy of operands. `Memory` comes where a growth of memory was refused, or where there are 4,294,967,296 or
    /// more.
    pub fn from_slice(alloc: Global, operands: &[Operand<'a>]) -> Result<Operands<'a>, Memory>
        ensures { IfOk result (λ o. o ≡ operands.now) }
    {
        if operands.len() > 0xffff_ffff {
            return Err(Memory);
        }
        let count = operands.len() as u32;
        let shared = Rc::new(alloc, Vec::from_slice(alloc, operands)?)?;
        Ok(Operands {
            shared,
            first: 0,
            count,
        })
    }

    /// So many operands of a shared list, from a place on. The error is that memory ran out.
    pub fn part(
        shared: &Rc<Vec<Operand<'a>>>,
        first: u32,
        count: u32,
    ) -> Result<Operands<'a>, AllocError>
        requires { first + count ≤ length shared.now.value.items }
        ensures { IfOk result (λ o. o ≡ take count (drop first shared.now.value.items)) }
    {
        let shared = shared.clone()?;
        Ok(Operands {
            shared,
            first,
            count,
        })
    }

    /// The operands, in order.
    pub fn as_slice(&self) -> &[Operand<'a>]
        ensures value { result.now ≡ self.now }
        ensures few { length self.now < 4294967296 }
    {
        let items = self.shared.as_ref().as_slice();
        let first = self.first as usize;
        &items[first..first + self.count as usize]
    }

    /// How many they are.
    pub fn len(&self) -> usize
        ensures { result ≡ length self.now }
    {
        self.count as usize
    }
}

impl<'a> Debug for Operands<'a> {
    fn fmt<W: Write>(&self, f: &mut Formatter<W>) -> fmt::Result {
        f.debug_list().slice(self.as_slice()).finish()
    }
}
