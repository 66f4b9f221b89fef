//! What there is to ask of the instructions of an opcode.

ghost use Rattle.std.specs.Prelude.{◌≡◌, ℕ, List, Some, IsTrue, false, slice_get};
ghost use Rattle.spv_table.specs.Table.{Table};
ghost use Rattle.spv_module.specs.Module.{plain_inst};
ghost use Rattle.spv_module.specs.Operand.{PlainInst};
ghost use Rattle.spv_versions.specs.declared.late.Late.{Late};
ghost use Rattle.spv_versions.specs.inner.Late.{IsLateBy};
ghost use Rattle.spv_standard.specs.inner.Asked.{AreFit, AreNoted, IsAskedAt, IsAskedBy};

use crate::silent::silent_of;
use crate::told::are_told;
use spv_module::Inst;
use spv_versions::Late;

/// Which of the rules on single instructions there are to ask of an instruction.
#[derive(Clone, Copy)]
pub struct Asked {
    /// Whether it is known what there is to ask.
    is_known: bool,
    /// O14 to O20, and O23.
    pub operands: bool,
    /// O21.
    pub version: bool,
    /// O22.
    pub limits: bool,
    /// How many operands at the beginning never call for O21 and O22; if one of the others does, they are asked.
    silent: u8,
}

impl Asked {
    /// Whether there is nothing to ask of an instruction.
    #[inline(always)]
    pub fn is_nothing(self) -> bool
        ensures { IsTrue result → (self.operands ≡ false) × (self.version ≡ false) × (self.limits ≡ false) }
    {
        !self.operands && !self.version && !self.limits
    }

    /// What there is to ask of an instruction, by that of its opcode.
    #[inline(always)]
    fn at(self, late: &Late, inst: &Inst<'_>) -> Asked
        ensures { (G : Table) (minor : ℕ) (is : List PlainInst) (n : ℕ) → IsLateBy G minor is late.now
            → slice_get is n ≡ Some (plain_inst inst.now)
            → IsAskedBy G minor is late.now (plain_inst inst.now).opcode self → IsAskedAt G minor is n result }
    {
        if !are_told(late, inst.operands.as_slice(), self.silent) {
            return self;
        }
        Asked {
            is_known: true,
            operands: self.operands,
            version: true,
            limits: true,
            silent: self.silent,
        }
    }
}

/// What there is to ask of the instructions of an opcode.
fn asked_of(late: &Late, opcode: u16) -> Asked
    ensures { (G : Table) (minor : ℕ) (is : List PlainInst) → IsLateBy G minor is late.now → AreFit G is
        → IsAskedBy G minor is late.now opcode result }
{
    let is_kept = spv_kernel_operands::is_quiet(opcode);
    let is_timely = late.is_quiet(opcode);
    let is_uncounted = spv_limits::is_quiet(opcode);
    Asked {
        is_known: true,
        operands: !is_kept,
        version: !is_timely,
        limits: !is_uncounted,
        silent: silent_of(opcode),
    }
}

/// Of how many opcodes it is noted what there is to ask: nearly all instructions have lower ones.
const NOTED: usize = 400;

/// Of an opcode of which nothing is noted.
const UNKNOWN: Asked = Asked {
    is_known: false,
    operands: false,
    version: false,
    limits: false,
    silent: 0,
};

/// What is noted of the opcodes below that number.
#[derive(Drop)]
pub struct Notes {
    notes: [Asked; NOTED],
}

impl Notes {
    /// Nothing is noted yet.
    pub fn new() -> Notes
        ensures { (G : Table) (minor : ℕ) (is : List PlainInst) (late : Late) → AreNoted G minor is late result.notes }
    {
        Notes {
            notes: [UNKNOWN; NOTED],
        }
    }

    /// What there is to ask of the instructions of an opcode, which is noted.
    #[inline(always)]
    fn asked(&mut self, late: &Late, opcode: u16) -> Asked
        ensures asked { (G : Table) (minor : ℕ) (is : List PlainInst) → IsLateBy G minor is late.now → AreFit G is
            → AreNoted G minor is late.now self.old.notes → IsAskedBy G minor is late.now opcode result }
        ensures noted { (G : Table) (minor : ℕ) (is : List PlainInst) → IsLateBy G minor is late.now → AreFit G is
            → AreNoted G minor is late.now self.old.notes → AreNoted G minor is late.now self.new.notes }
    {
        let place = usize::from(opcode);
        if place < NOTED {
            let asked = self.notes[place];
            if asked.is_known {
                return asked;
            }
        }
        self.ask(late, opcode)
    }

    /// What there is to ask of the instructions of an opcode of which nothing is noted.
    #[inline(never)]
    fn ask(&mut self, late: &Late, opcode: u16) -> Asked
        ensures asked { (G : Table) (minor : ℕ) (is : List PlainInst) → IsLateBy G minor is late.now → AreFit G is
            → IsAskedBy G minor is late.now opcode result }
        ensures noted { (G : Table) (minor : ℕ) (is : List PlainInst) → IsLateBy G minor is late.now → AreFit G is
            → AreNoted G minor is late.now self.old.notes → AreNoted G minor is late.now self.new.notes }
    {
        let asked = asked_of(late, opcode);
        let place = usize::from(opcode);
        if place < NOTED {
            self.notes[place] = asked;
        }
        asked
    }

    /// What there is to ask of an instruction. That of its opcode is noted.
    #[inline(always)]
    pub fn asked_at(&mut self, late: &Late, inst: &Inst<'_>) -> Asked
        ensures asked { (G : Table) (minor : ℕ) (is : List PlainInst) (n : ℕ) → IsLateBy G minor is late.now
            → AreFit G is → AreNoted G minor is late.now self.old.notes → slice_get is n ≡ Some (plain_inst inst.now)
            → IsAskedAt G minor is n result }
        ensures noted { (G : Table) (minor : ℕ) (is : List PlainInst) → IsLateBy G minor is late.now → AreFit G is
            → AreNoted G minor is late.now self.old.notes → AreNoted G minor is late.now self.new.notes }
    {
        let asked = self.asked(late, inst.opcode);
        asked.at(late, inst)
    }
}
