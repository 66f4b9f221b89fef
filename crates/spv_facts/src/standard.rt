//! The facts of evidence on what the standard asks of a kernel besides.
ghost use Rattle.std.specs.Prelude.{◌≡◌, ◌++◌, option_map, OnOk};
ghost use Rattle.spv_module.specs.Module.{plain_inst, plain_insts};
ghost use Rattle.spv_facts.specs.Facts as lists;
ghost use Rattle.spv_facts.specs.Versions.{extensions_of};
ghost use Rattle.spv_facts.specs.inner.Parts as parts;

use crate::about::About;
use crate::fact::Fact;
use crate::facts::{push_form_facts, push_one, push_two};
use crate::versions::{extensions, first_version};
use spv_evidence::{Evidence, Lister};
use spv_module::Inst;
use std::alloc::AllocError;

/// Adds the opcode of an instruction, if there is one.
fn push_opcode(facts: &mut Vec<Fact>, inst: Option<&Inst<'_>>) -> Result<(), AllocError>
    ensures { OnOk result (facts.new.items ≡ facts.old.items ++ lists.opcode_facts
        (option_map (λ i. plain_inst i.now) inst.entry)) }
{
    match inst {
        Some(inst) => push_one(
            facts,
            Fact::Opcode {
                opcode: inst.opcode,
            },
        ),
        None => Ok(()),
    }
}

/// Adds the first version that has something, if one has.
fn push_first_version(facts: &mut Vec<Fact>, minor: Option<u8>) -> Result<(), AllocError>
    ensures { OnOk result (facts.new.items ≡ facts.old.items ++ lists.since_facts minor) }
{
    match minor {
        Some(minor) => push_one(facts, Fact::Since { minor }),
        None => Ok(()),
    }
}

/// Adds the extensions that a line of the table of versions names, if it names some.
fn push_extensions(facts: &mut Vec<Fact>, line: u32) -> Result<(), AllocError>
    ensures { OnOk result (facts.new.items ≡ facts.old.items ++ lists.extension_facts line (extensions_of line)) }
{
    match extensions(line) {
        [_, ..] => push_one(facts, Fact::Extensions { line }),
        [] => Ok(()),
    }
}

impl<'m, 'a> About<'m, 'a> {
    /// Adds what an instruction has that a version lacks: its opcode, a value, or a bit of a mask.
    fn push_lack(&self, facts: &mut Vec<Fact>, inst: u32, lister: Lister) -> Result<(), AllocError>
        ensures { OnOk result (facts.new.items ≡ facts.old.items ++ lists.lack_facts
            (plain_insts self.now.«module».now) inst lister) }
    {
        match lister {
            Lister::Entry => push_opcode(facts, self.inst(inst)),
            _ => self.push_lister(facts, inst, lister),
        }
    }

    /// Adds that, and the version and the extensions that have it.
    fn push_late(
        &self,
        facts: &mut Vec<Fact>,
        inst: u32,
        lister: Lister,
        line: u32,
    ) -> Result<(), AllocError>
        ensures { OnOk result (facts.new.items ≡ facts.old.items ++ lists.late_facts
            (plain_insts self.now.«module».now) inst lister line) }
    {
        self.push_lack(facts, inst, lister)?;
        push_first_version(facts, first_version(line))?;
        push_extensions(facts, line)
    }

    /// Adds the facts of evidence on what the standard asks besides, or those of forms and ids.
    pub fn push_standard_facts(
        &self,
        facts: &mut Vec<Fact>,
        inst: u32,
        evidence: &Evidence,
    ) -> Result<(), AllocError>
        ensures { OnOk result (facts.new.items ≡ facts.old.items ++ parts.standard_facts
            (plain_insts self.now.«module».now) inst evidence.now) }
    {
        match *evidence {
            Evidence::OnTheWay { block } => push_one(facts, Fact::OnTheWay { block }),
            Evidence::Pair { first, second } => push_two(
                facts,
                Fact::Operand {
                    inst,
                    operand: first,
                },
                Fact::OtherOperand {
                    inst,
                    operand: second,
                },
            ),
            Evidence::ByGroup {
                operand,
                inst: place,
            } => push_two(
                facts,
                Fact::Operand { inst, operand },
                Fact::Given { inst: place },
            ),
            Evidence::Late { lister, line } => self.push_late(facts, inst, lister, line),
            Evidence::Past { most } => push_one(facts, Fact::Most { count: Some(most) }),
            _ => push_form_facts(facts, inst, evidence),
        }
    }
}
