ghost use Rattle.std.specs.Prelude.{◌≡◌, ◌++◌, ◌∷◌, ◌≤◌, [], length, take, drop, map, IfOk, OnOk};
ghost use Rattle.spv_module.specs.Module.{plain_inst, plain_operands};
ghost use Rattle.spv_inst.specs.inner.Batch.{batch_insts, head_inst, IsTidy, AreWithin};

use spv_module::{Inst, Operand, Operands};
use std::alloc::{AllocError, Global};
use std::mem::replace;
use std::rc::Rc;

/// An instruction that was read, and where its operands lie.
#[derive(Clone, Copy)]
struct Head {
    opcode: u16,
    /// The place of its first operand in the list of the batch, from 0.
    first: u32,
    /// How many operands it has.
    count: u32,
}

/// The instructions that were read last: their operands lie in one list, which becomes the one that they share.
#[derive(Drop)]
pub struct Batch<'a> {
    /// The operands of the instructions, one after another. Those of an instruction that is being read come last.
    pub operands: Vec<Operand<'a>>,
    heads: Vec<Head>,
}

/// From how many operands or instructions on a batch is moved into the module.
const ENOUGH: usize = 4096;

/// How many operands a new batch has room for: one that the next instruction fills mostly fits.
const ROOM: usize = 4128;

impl<'a> Batch<'a> {
    /// A batch of no instruction, with room for all instructions of so many words, or for as many as a batch has.
    pub fn with_room(alloc: Global, words: usize) -> Result<Batch<'a>, AllocError>
        ensures none { IfOk result (λ b. batch_insts b ≡ []) }
        ensures tidy { IfOk result (λ b. IsTidy b) }
        ensures empty { IfOk result (λ b. b.operands.items ≡ []) }
    {
        let operands = Vec::with_capacity(alloc, words.min(ROOM))?;
        let heads = Vec::with_capacity(alloc, words.min(ENOUGH))?;
        Ok(Batch { operands, heads })
    }

    /// Ends an instruction: its operands are those from a place on. Where memory runs out, nothing is said of what is
    /// left.
    #[inline(always)]
    pub fn close(&mut self, opcode: u16, first: usize) -> Result<(), AllocError>
        requires within { first ≤ length self.old.operands.items }
        requires few { length self.old.operands.items ≤ 4294967295 }
        requires tidy { AreWithin first self.old.heads.items }
        ensures added { OnOk result (batch_insts self.new
            ≡ map (head_inst (take first self.old.operands.items)) self.old.heads.items
            ++ record { opcode = opcode; operands = plain_operands (drop first self.old.operands.items) } ∷ []) }
        ensures tidy { OnOk result (IsTidy self.new) }
        ensures operands { self.new.operands.items ≡ self.old.operands.items }
    {
        let count = self.operands.len() - first;
        self.heads.push(Head {
            opcode,
            first: first as u32,
            count: count as u32,
        })?;
        Ok(())
    }

    /// Adds the instructions of the batch to a list, and empties the batch, which then has room for so many operands.
    /// Where memory runs out, nothing is said of what is left.
    pub fn move_into(
        &mut self,
        alloc: Global,
        insts: &mut Vec<Inst<'a>>,
        room: usize,
    ) -> Result<(), AllocError>
        requires { IsTidy self.old }
        ensures moved { OnOk result (map plain_inst insts.new.items ≡ map plain_inst insts.old.items
            ++ batch_insts self.old) }
        ensures none { OnOk result (batch_insts self.new ≡ []) }
        ensures tidy { OnOk result (IsTidy self.new) }
        ensures empty { OnOk result (self.new.operands.items ≡ []) }
    {
        let emptied = Vec::with_capacity(alloc, room)?;
        let operands = replace(&mut self.operands, emptied);
        let Ok(shared) = Rc::new(alloc, operands) else {
            return Err(AllocError);
        };
        for head in &self.heads {
            let operands = Operands::part(&shared, head.first, head.count)?;
            insts.push(Inst {
                opcode: head.opcode,
                operands,
            })?;
        }
        self.heads.clear();
        Ok(())
    }

    /// Adds the instructions of the batch to a list once there are enough of them. Where memory runs out, nothing is
    /// said of what is left.
    #[inline(always)]
    pub fn settle(&mut self, alloc: Global, insts: &mut Vec<Inst<'a>>) -> Result<(), AllocError>
        requires { IsTidy self.old }
        ensures same { OnOk result (map plain_inst insts.new.items ++ batch_insts self.new
            ≡ map plain_inst insts.old.items ++ batch_insts self.old) }
        ensures tidy { OnOk result (IsTidy self.new) }
        ensures fewer { OnOk result (length self.new.operands.items ≤ length self.old.operands.items) }
    {
        if self.operands.len() >= ENOUGH || self.heads.len() >= ENOUGH {
            self.move_into(alloc, insts, ROOM)?;
        }
        Ok(())
    }
}
