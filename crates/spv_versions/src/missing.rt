//! Which lines of the table are missing in a module.

ghost use Rattle.std.specs.Prelude.{◌≡◌, ◌≤◌, ◌<◌, ◌↔◌, ◌&&◌, ◌∷◌, ◌++◌, ℕ, List, [], Some, IsTrue, MatchOption, codes, length, not};
ghost use Rattle.std.specs.Prelude.{option_map, slice_get, slice_index};
ghost use Rattle.std.specs.Str.{bytes_eq};
ghost use Rattle.spv_module.specs.declared.opcode.TheConstants as opcodes;
ghost use Rattle.spv_module.specs.Module.{plain_inst};
ghost use Rattle.spv_module.specs.Operand.{PlainInst};
ghost use Rattle.spv_versions.specs.declared.table.Kind.TheVariants as kind;
ghost use Rattle.spv_versions.specs.Table as spec;
ghost use Rattle.spv_versions.specs.inner.Lines.{IsListed, IsListedAt};
ghost use Rattle.spv_versions.specs.inner.Told.{AreLeast, AreTold, extension_in, place_of};

use crate::lines::{declare, is_listed, lacking, least_numbers, listed_line};
use crate::table::{ALL_KINDS, COUNT, Kind, table};
use spv_module::{Inst, Operand, opcode};
use spv_type_forms::Definitions;

/// What is missing in a module.
#[derive(Clone, Copy)]
pub struct Missing {
    /// Of each line whether what it speaks of is missing.
    lines: [bool; COUNT],
    /// By the place of a kind a number that no number of the kind that is missing is below.
    least: [u32; ALL_KINDS],
    /// Whether sets of no meaning are.
    pub is_without_meaning: bool,
}

/// The name that an OpExtension has.
fn extension<'a>(inst: &Inst<'a>) -> Option<&'a str>
    ensures { option_map (λ name. name.now) result ≡ extension_in (plain_inst inst.now) }
{
    if inst.opcode != opcode::EXTENSION {
        return None;
    }
    match inst.operands.as_slice() {
        [Operand::Text(name), ..] => Some(*name),
        _ => None,
    }
}

/// The extension that has sets of no meaning, and the first minor version that has them without it.
const NO_MEANING: &str = "SPV_KHR_non_semantic_info";

const WITH_NO_MEANING: u8 = 6;

/// Whether sets of no meaning are still missing once an extension is declared.
fn is_still_without(is_without_meaning: bool, name: &str) -> bool
    ensures { result ≡ (is_without_meaning && not (bytes_eq name.now (codes "SPV_KHR_non_semantic_info"))) }
{
    is_without_meaning && name != NO_MEANING
}

impl Missing {
    /// What is missing in a version, if no extension is declared.
    fn in_version(minor: u8) -> Missing
        ensures { AreTold minor [] result.lines result.is_without_meaning }
    {
        Missing {
            lines: lacking(table(), minor),
            least: [0; ALL_KINDS],
            is_without_meaning: minor < WITH_NO_MEANING,
        }
    }

    /// Takes note of an extension.
    fn declare(&mut self, name: &str)
        ensures { (minor : ℕ) (is : List PlainInst) (i : PlainInst) → extension_in i ≡ Some name.now
            → AreTold minor is self.old.lines self.old.is_without_meaning
            → AreTold minor (is ++ (i ∷ [])) self.new.lines self.new.is_without_meaning }
    {
        declare(table(), &mut self.lines, name);
        self.is_without_meaning = is_still_without(self.is_without_meaning, name);
    }

    /// Takes note of the next instruction.
    fn note(&mut self, inst: &Inst<'_>)
        ensures { (minor : ℕ) (is : List PlainInst)
            → AreTold minor is self.old.lines self.old.is_without_meaning
            → AreTold minor (is ++ (plain_inst inst.now ∷ [])) self.new.lines self.new.is_without_meaning }
    {
        match extension(inst) {
            Some(name) => self.declare(name),
            None => {}
        }
    }

    /// What is missing in a module of version 1.`minor`. All its OpExtensions are among its first `front` instructions.
    pub fn of_front(definitions: &Definitions, minor: u8, front: u32) -> Missing
        requires within { front ≤ length definitions.now }
        requires front { (n : ℕ) (i : PlainInst) → slice_get definitions.now n ≡ Some i
            → i.opcode ≡ opcodes.EXTENSION → n < front }
        ensures told { AreTold minor definitions.now result.lines result.is_without_meaning }
        ensures least { AreLeast result.lines result.least }
    {
        let mut missing = Missing::in_version(minor);
        for number in 0..front {
            missing.note(definitions.inst(number));
        }
        missing.least = least_numbers(table(), &missing.lines);
        missing
    }

    /// What is missing in a module of version 1.`minor`; `total` is how many instructions there are.
    pub fn of(definitions: &Definitions, minor: u8, total: u32) -> Missing
        requires { total ≡ length definitions.now }
        ensures told { AreTold minor definitions.now result.lines result.is_without_meaning }
        ensures least { AreLeast result.lines result.least }
    {
        Missing::of_front(definitions, minor, total)
    }

    /// A number that no number of a kind that is missing is below.
    pub fn least_of(&self, kind: Kind) -> u32
        ensures { result ≡ slice_index self.now.least (place_of kind) }
    {
        self.least[kind as usize]
    }

    /// Whether a number of a kind is missing.
    #[inline(never)]
    pub fn has(&self, kind: Kind, number: u32) -> bool
        ensures { IsTrue result ↔ IsListed spec.lines self.now.lines kind number }
    {
        is_listed(table(), &self.lines, kind, number)
    }

    /// The line by which a number of a kind is missing, if one is.
    pub fn line_of(&self, kind: Kind, number: u32) -> Option<u32>
        ensures { MatchOption result (¬ (IsListed spec.lines self.now.lines kind number))
            (IsListedAt spec.lines self.now.lines kind number) }
    {
        listed_line(table(), &self.lines, kind, number)
    }

    /// Whether an opcode is missing.
    #[inline(always)]
    pub fn has_opcode(&self, number: u16) -> bool
        ensures { AreLeast self.now.lines self.now.least
            → IsTrue result ↔ IsListed spec.lines self.now.lines kind.Opcode number }
    {
        let number = u32::from(number);
        if number < self.least_of(Kind::Opcode) {
            return false;
        }
        self.has(Kind::Opcode, number)
    }
}
