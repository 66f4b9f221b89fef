ghost use Rattle.std.specs.Prelude.{◌≡◌, ◌++◌, ◌∷◌, [], OnOk, OnErr};
ghost use Rattle.spv_module.specs.Module.{plain_inst, plain_insts, plain_operands};
ghost use Rattle.spv_module.specs.Operand.{result_in, type_in};

use crate::operand::Operand;
use crate::operands::Operands;
use crate::results;
use spv_table::Memory;
use spv_words::Header;
use std::alloc::Global;

/// An instruction (SPIR-V Specification 1.6, section 2.3), whatever its operands: `decode` answers those alone that
/// words spell by the grammar table, and `encode` refuses the others.
#[derive(Drop)]
pub struct Inst<'a> {
    /// The low half of its first word.
    pub opcode: u16,
    /// Its operands, in the order of its further words.
    pub operands: Operands<'a>,
}

impl<'a> Inst<'a> {
    /// The id of its result's type: that of its first operand of the kind IdResultType (SPIR-V Specification 1.6,
    /// section 2.2.1). None where it has no such operand.
    pub fn type_id(&self) -> Option<u32>
        ensures { result ≡ type_in (plain_inst self.now).operands }
    {
        results::type_in(self.operands.as_slice())
    }

    /// The id of its result: that of its first operand of the kind IdResult (SPIR-V Specification 1.6, section 2.2.1).
    /// None where it has no such operand.
    pub fn result_id(&self) -> Option<u32>
        ensures { result ≡ result_in (plain_inst self.now).operands }
    {
        results::result_in(self.operands.as_slice())
    }
}

/// A header and a list of instructions (SPIR-V Specification 1.6, section 2.3).
#[derive(Drop)]
pub struct Module<'a> {
    /// Words 1 to 4: the version, the generator, the bound of ids and the schema.
    pub header: Header,
    /// The instructions in order. They are numbered from 0.
    pub insts: Vec<Inst<'a>>,
    /// Where the operands of an instruction that is added are kept.
    alloc: Global,
}

impl<'a> Module<'a> {
    /// A module with that header and no instruction. It takes no memory, and asks nothing of the header: `encode`
    /// refuses one that does not fit.
    pub fn new(alloc: Global, header: Header) -> Module<'a>
        ensures header { result.header ≡ header }
        ensures insts { plain_insts result ≡ [] }
    {
        Module {
            header,
            insts: Vec::new(alloc),
            alloc,
        }
    }

    /// Adds an instruction of that opcode, with those operands in order, at the end of the list. It asks nothing of
    /// them: `encode` refuses those that no words spell.
    ///
    /// `Memory` comes only where a growth of memory was refused, or for 4,294,967,296 operands or more, and then
    /// nothing has changed.
    pub fn push(&mut self, opcode: u16, operands: &[Operand<'a>]) -> Result<(), Memory>
        ensures added { OnOk result (plain_insts self.new ≡ plain_insts self.old
            ++ record { opcode = opcode; operands = plain_operands operands.now } ∷ []) }
        ensures refused { OnErr result (self.new.insts.items ≡ self.old.insts.items) }
        ensures header { self.new.header ≡ self.old.header }
    {
        let operands = Operands::from_slice(self.alloc, operands)?;
        self.insts.push(Inst { opcode, operands })?;
        Ok(())
    }
}
