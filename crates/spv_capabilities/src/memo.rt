//! What was asked of a table's entries and enumerants, and the rule C2.

ghost use Rattle.std.specs.Prelude.{◌≡◌, ◌↔◌, ◌^◌, ◌/◌, ◌%◌, ◌<◌, IsTrue, IfOk, nat_eq};
ghost use Rattle.std.specs.Prelude.{true};
ghost use Rattle.std.specs.List.{AllByRecursion};
ghost use Rattle.spv_module.specs.Module.{plain_inst, plain_operand, plain_operands};
ghost use Rattle.spv_capabilities.specs.inner.Subject.{Subject};
ghost use Rattle.spv_capabilities.specs.Capable.{IsCoveredValue, IsCoveredMask, IsCoveredOperand, IsCapable};
ghost use Rattle.spv_capabilities.specs.Asked.{IsCoveredEntry, IsOtherKind};
ghost use Rattle.spv_capabilities.specs.inner.Known as known;
ghost use Rattle.spv_capabilities.specs.inner.Known.{IsKnown, IsAskedAlone, AreCovered, answer_of};

use crate::capable::{
    has_needed, is_capability_kind, is_covered_entry, is_covered_value, known_at_once,
};
use crate::surveyed::Survey;
use spv_module::{Inst, Operand, opcode};
use spv_table::Memory;
use std::alloc::{AllocError, Global};
use std::collections::BTreeMap;

/// How many opcodes have a place in the list of answers: up to the last one of the profile.
const OPCODES: usize = opcode::MODULE_PROCESSED as usize + 1;

/// What was answered, if it was asked.
#[derive(Clone, Copy)]
pub enum Answer {
    Unknown,
    Yes,
    No,
    /// Yes, and nothing else is asked of an instruction of the opcode: it has no value and no mask, and no other rule
    /// speaks of it.
    Free,
}

/// How many places there are for the enumerants that were met of late.
const RECENT: usize = 16;

/// An enumerant, by the number of its kind and its value.
#[derive(Clone, Copy)]
struct Enumerated {
    kind: u32,
    value: u32,
}

/// What was asked about a module.
#[derive(Drop)]
pub struct Memo {
    /// Of each opcode, as far as the list goes, whether its entry is covered.
    entries: Vec<Answer>,
    /// Of the enumerants that were met and list many capabilities, by their kinds and values, whether they are covered.
    enumerants: BTreeMap<(u32, u32), bool>,
    /// A mask whose set bits are all covered, the last that was asked of, or 0; and its kind.
    mask: u32,
    mask_kind: u32,
    /// Enumerants that are covered, each at its place among so many: of two that share a place the one that was asked
    /// of last.
    recent: [Option<Enumerated>; RECENT],
}

/// The number of one bit.
fn bit_at(position: u32) -> u32
    requires { position < 32 }
    ensures { result ≡ 2 ^ position }
{
    1 << position
}

/// A mask without the bits below a position.
fn bits_above(mask: u32, position: u32) -> u32
    requires { position < 32 }
    ensures { result ≡ mask / 2 ^ position }
{
    mask >> position
}

/// Whether the lowest bit is set.
fn is_odd(bits: u32) -> bool
    ensures { result ≡ nat_eq (bits % 2) 1 }
{
    bits % 2 == 1
}

/// Whether a rule other than C2 speaks of an opcode other than that of OpFunction, or it declares a type that C2 asks
/// more of.
#[inline(always)]
pub fn is_asked_more(number: u16) -> bool
    ensures { result ≡ known.is_asked_more number }
{
    if number > opcode::TYPE_SAMPLER {
        return number == opcode::EXECUTION_MODE_ID;
    }
    match number {
        opcode::MEMORY_MODEL
        | opcode::ENTRY_POINT
        | opcode::EXECUTION_MODE
        | opcode::TYPE_INT
        | opcode::TYPE_FLOAT
        | opcode::TYPE_VECTOR
        | opcode::TYPE_IMAGE
        | opcode::TYPE_SAMPLER => true,
        _ => false,
    }
}

/// Whether nothing is asked of an instruction of an opcode but that its entry is covered.
fn is_asked_alone(survey: &Survey<'_, '_>, number: u16) -> bool
    ensures { IsTrue result → IsAskedAlone survey.now.insts number }
{
    if is_asked_more(number) || number == opcode::FUNCTION {
        return false;
    }
    survey.is_unkinded(number)
}

/// The answer that is kept of an opcode, and whether nothing else is asked there.
fn kept_answer(covered: bool, alone: bool) -> Answer
    ensures { result ≡ answer_of covered alone }
{
    if !covered {
        Answer::No
    } else if alone {
        Answer::Free
    } else {
        Answer::Yes
    }
}

/// The place of the enumerant of a value of a kind among those that were met of late.
#[inline(always)]
fn recent_place(kind: u32, value: u32) -> usize
    ensures { result < RECENT }
{
    (kind ^ value) as usize % RECENT
}

impl Memo {
    /// Nothing was asked.
    pub fn new(alloc: Global) -> Result<Memo, AllocError>
        ensures { IfOk result (λ m. (s : Subject) → IsKnown s m) }
    {
        Ok(Memo {
            entries: vec![in alloc; Answer::Unknown; OPCODES]?,
            enumerants: BTreeMap::new(alloc),
            mask: 0,
            mask_kind: 0,
            recent: [None; RECENT],
        })
    }

    /// Asks of an opcode's entry for the first time.
    #[inline(never)]
    fn ask_entry(&mut self, survey: &Survey<'_, '_>, opcode: u16) -> bool
        requires { IsKnown survey.now self.old }
        ensures answer { IsTrue result ↔ IsCoveredEntry survey.now.table survey.now.insts opcode }
        ensures known { IsKnown survey.now self.new }
    {
        let covered = is_covered_entry(survey, opcode);
        let place = usize::from(opcode);
        if place < self.entries.len() {
            self.entries[place] = kept_answer(covered, is_asked_alone(survey, opcode));
        }
        covered
    }

    /// Whether the entry of an opcode is covered.
    #[inline(always)]
    fn is_covered_entry(&mut self, survey: &Survey<'_, '_>, opcode: u16) -> bool
        requires { IsKnown survey.now self.old }
        ensures answer { IsTrue result ↔ IsCoveredEntry survey.now.table survey.now.insts opcode }
        ensures known { IsKnown survey.now self.new }
    {
        match self.entries.get(usize::from(opcode)) {
            Some(Answer::Free) => true,
            Some(Answer::Yes) => true,
            Some(Answer::No) => false,
            _ => self.ask_entry(survey, opcode),
        }
    }

    /// Whether it is known that no instruction of an opcode breaks a rule: its entry is covered, and nothing else is
    /// asked there.
    #[inline(always)]
    pub fn is_free(&self, number: u16) -> bool
        ensures { (s : Subject) → IsKnown s self.now → IsTrue result
            → IsCoveredEntry s.table s.insts number × IsAskedAlone s.insts number }
    {
        match self.entries.get(usize::from(number)) {
            Some(Answer::Free) => true,
            _ => false,
        }
    }

    /// Whether the enumerant of a value of a kind is covered, if there is one. What is answered is kept.
    #[inline(never)]
    fn is_covered_listing(
        &mut self,
        survey: &Survey<'_, '_>,
        kind: u32,
        value: u32,
    ) -> Result<bool, Memory>
        requires { IsKnown survey.now self.old }
        ensures answer { IfOk result (λ b. IsTrue b ↔ IsCoveredValue survey.now.table survey.now.insts kind value) }
        ensures known { IsKnown survey.now self.new }
    {
        if let Some(covered) = self.enumerants.get(&(kind, value)).copied() {
            return Ok(covered);
        }
        let covered = is_covered_value(survey, kind, value);
        self.enumerants.insert((kind, value), covered)?;
        Ok(covered)
    }

    /// Whether it is known at once that the enumerant of a value of a kind is covered.
    #[inline(always)]
    fn is_recent(&self, kind: u32, value: u32) -> bool
        ensures { (s : Subject) → IsKnown s self.now → IsTrue result → IsCoveredValue s.table s.insts kind value }
    {
        match self.recent[recent_place(kind, value)] {
            Some(met) => met.kind == kind && met.value == value,
            None => false,
        }
    }

    /// Keeps that the enumerant of a value of a kind is covered.
    fn keep_recent(&mut self, kind: u32, value: u32)
        ensures { (s : Subject) → IsKnown s self.old → IsCoveredValue s.table s.insts kind value → IsKnown s self.new }
    {
        self.recent[recent_place(kind, value)] = Some(Enumerated { kind, value });
    }

    /// Asks of a value that is not among those met of late.
    #[inline(never)]
    fn ask_value(&mut self, survey: &Survey<'_, '_>, kind: u32, value: u32) -> Result<bool, Memory>
        requires { IsKnown survey.now self.old }
        ensures answer { IfOk result (λ b. IsTrue b ↔ IsCoveredValue survey.now.table survey.now.insts kind value) }
        ensures known { IsKnown survey.now self.new }
    {
        let covered = match known_at_once(survey, kind, value) {
            Some(covered) => covered,
            None => self.is_covered_listing(survey, kind, value)?,
        };
        if covered {
            self.keep_recent(kind, value);
        }
        Ok(covered)
    }

    /// Whether the enumerant of a value of a kind is covered, if there is one.
    #[inline(always)]
    fn is_covered_value(
        &mut self,
        survey: &Survey<'_, '_>,
        kind: u32,
        value: u32,
    ) -> Result<bool, Memory>
        requires { IsKnown survey.now self.old }
        ensures answer { IfOk result (λ b. IsTrue b ↔ IsCoveredValue survey.now.table survey.now.insts kind value) }
        ensures known { IsKnown survey.now self.new }
    {
        if self.is_recent(kind, value) {
            return Ok(true);
        }
        self.ask_value(survey, kind, value)
    }

    /// Whether a bit is not set, or its enumerant is covered. `bits` has it as the lowest.
    fn is_covered_bit(
        &mut self,
        survey: &Survey<'_, '_>,
        kind: u32,
        bits: u32,
        position: u32,
    ) -> Result<bool, Memory>
        requires known { IsKnown survey.now self.old }
        requires position { position < 32 }
        ensures answer { IfOk result (λ b. IsTrue b
            ↔ (nat_eq (bits % 2) 1 ≡ true
            → IsCoveredValue survey.now.table survey.now.insts kind (2 ^ position))) }
        ensures known { IsKnown survey.now self.new }
    {
        if !is_odd(bits) {
            return Ok(true);
        }
        self.is_covered_value(survey, kind, bit_at(position))
    }

    /// Whether the enumerants of a mask's set bits are covered, bit by bit.
    fn are_covered_bits(
        &mut self,
        survey: &Survey<'_, '_>,
        kind: u32,
        mask: u32,
    ) -> Result<bool, Memory>
        requires { IsKnown survey.now self.old }
        ensures answer { IfOk result (λ b. IsTrue b ↔ IsCoveredMask survey.now.table survey.now.insts kind mask) }
        ensures known { IsKnown survey.now self.new }
    {
        for position in 0..32u32 {
            let bits = bits_above(mask, position);
            if bits == 0 {
                return Ok(true);
            }
            if !self.is_covered_bit(survey, kind, bits, position)? {
                return Ok(false);
            }
        }
        Ok(true)
    }

    /// Asks of a mask that is not the last.
    #[inline(never)]
    fn ask_mask(&mut self, survey: &Survey<'_, '_>, kind: u32, mask: u32) -> Result<bool, Memory>
        requires { IsKnown survey.now self.old }
        ensures answer { IfOk result (λ b. IsTrue b
            ↔ (IsOtherKind survey.now.table kind → IsCoveredMask survey.now.table survey.now.insts kind mask)) }
        ensures known { IsKnown survey.now self.new }
    {
        if is_capability_kind(survey, kind) {
            return Ok(true);
        }
        let covered = self.are_covered_bits(survey, kind, mask)?;
        if covered {
            self.mask = mask;
            self.mask_kind = kind;
        }
        Ok(covered)
    }

    /// Whether a mask is of kind Capability, or the enumerants of its set bits are covered.
    #[inline(always)]
    fn is_covered_mask(
        &mut self,
        survey: &Survey<'_, '_>,
        kind: u32,
        mask: u32,
    ) -> Result<bool, Memory>
        requires { IsKnown survey.now self.old }
        ensures answer { IfOk result (λ b. IsTrue b
            ↔ (IsOtherKind survey.now.table kind → IsCoveredMask survey.now.table survey.now.insts kind mask)) }
        ensures known { IsKnown survey.now self.new }
    {
        if mask == self.mask && kind == self.mask_kind {
            return Ok(true);
        }
        self.ask_mask(survey, kind, mask)
    }

    /// Whether an operand is of kind Capability, or its value or each set bit of its mask is covered.
    #[inline(always)]
    fn is_covered_operand(
        &mut self,
        survey: &Survey<'_, '_>,
        operand: &Operand<'_>,
    ) -> Result<bool, Memory>
        requires { IsKnown survey.now self.old }
        ensures answer { IfOk result (λ b. IsTrue b
            ↔ IsCoveredOperand survey.now.table survey.now.insts (plain_operand operand.now)) }
        ensures known { IsKnown survey.now self.new }
    {
        match operand {
            Operand::Value { kind, value } => if is_capability_kind(survey, *kind) {
                Ok(true)
            } else {
                self.is_covered_value(survey, *kind, *value)
            },
            Operand::Mask { kind, value } => self.is_covered_mask(survey, *kind, *value),
            _ => Ok(true),
        }
    }

    /// Whether all operands are covered.
    #[inline(always)]
    fn are_covered_operands(
        &mut self,
        survey: &Survey<'_, '_>,
        operands: &[Operand<'_>],
    ) -> Result<bool, Memory>
        requires { IsKnown survey.now self.old }
        ensures answer { IfOk result (λ b. IsTrue b
            ↔ AllByRecursion (IsCoveredOperand survey.now.table survey.now.insts) (plain_operands operands.now)) }
        ensures known { IsKnown survey.now self.new }
    {
        for operand in operands {
            if !self.is_covered_operand(survey, operand)? {
                return Ok(false);
            }
        }
        Ok(true)
    }

    /// Whether the entry of an instruction and all its operands are covered.
    #[inline(always)]
    pub fn are_covered(&mut self, survey: &Survey<'_, '_>, inst: &Inst<'_>) -> Result<bool, Memory>
        requires { IsKnown survey.now self.old }
        ensures answer { IfOk result (λ b. IsTrue b
            ↔ AreCovered survey.now.table survey.now.insts (plain_inst inst.now)) }
        ensures known { IsKnown survey.now self.new }
    {
        if !self.is_covered_entry(survey, inst.opcode) {
            return Ok(false);
        }
        self.are_covered_operands(survey, inst.operands.as_slice())
    }

    /// Whether C2 is unbroken at an instruction.
    pub fn is_capable(&mut self, survey: &Survey<'_, '_>, inst: &Inst<'_>) -> Result<bool, Memory>
        requires { IsKnown survey.now self.old }
        ensures answer { IfOk result (λ b. IsTrue b
            ↔ IsCapable survey.now.table survey.now.insts (plain_inst inst.now)) }
        ensures known { IsKnown survey.now self.new }
    {
        if !has_needed(survey, inst) {
            return Ok(false);
        }
        self.are_covered(survey, inst)
    }
}
