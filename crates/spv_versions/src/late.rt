//! Which instructions have what their module's version does not have.

ghost use Rattle.std.specs.Prelude.{◌≡◌, ◌≤◌, ◌<◌, ◌↔◌, ℕ, Bool, false, Some, IsTrue, List, length};
ghost use Rattle.std.specs.Prelude.{slice_get, slice_index};
ghost use Rattle.std.specs.Int.{bit_at};
ghost use Rattle.spv_table.specs.Table.{Table};
ghost use Rattle.spv_module.specs.declared.opcode.TheConstants as opcode;
ghost use Rattle.spv_module.specs.Module.{plain_inst, plain_operand, plain_operands};
ghost use Rattle.spv_module.specs.Operand.{PlainInst};
ghost use Rattle.spv_versions.specs.Missing.{IsLateAt};
ghost use Rattle.spv_versions.specs.inner.Late.{AreFloored, AreFloors, AreHitIn, AreListed, IsHitIn, IsLateBy};
ghost use Rattle.spv_versions.specs.inner.Told.{AreHit, AreLeast, IsAnyHit, IsInstHit, kinds as all_kinds};
ghost use Rattle.spv_versions.specs.inner.Told.{place_of};

use crate::kinds::Kinds;
use crate::lines::lower;
use crate::missing::Missing;
use crate::shapes::{has_late_form, may_have_late_form};
use crate::table::{KIND_COUNT, Kind, kinds, low_bits};
use spv_module::{Inst, Operand};
use spv_table::Table;
use spv_type_forms::Definitions;

/// Kinds of operands whose numbers in a grammar are below this one have a floor.
const FLOORED: usize = 64;

/// What a module has too early, or no more: what there is to know of it before its instructions are looked at.
#[derive(Clone, Copy)]
pub struct Late {
    missing: Missing,
    kinds: Kinds,
    minor: u8,
    /// By the number of a kind of operands in a grammar: a number that no value of the kind that is missing is below,
    /// and no mask with a bit that is.
    floors: [u32; FLOORED],
    /// By the number of a kind of operands in a grammar: the bits of its values below 64 that may be missing.
    listed: [u64; FLOORED],
}

/// Lowers the floor of the kind of a number, if it has one.
#[inline(always)]
fn lower_floor(floors: &mut [u32; FLOORED], number: Option<u32>, least: u32)
    ensures length { length floors.new ≡ length floors.old }
    ensures others { (j : ℕ) → slice_index floors.new j ≤ slice_index floors.old j }
    ensures own { (j : ℕ) → number ≡ Some j → j < length floors.old → slice_index floors.new j ≤ least }
{
    if let Some(number) = number {
        lower(floors, number as usize, least);
    }
}

/// The floors of the kinds of a grammar.
fn floors(missing: &Missing, numbers: &Kinds) -> [u32; FLOORED]
    ensures { AreLeast missing.now.lines missing.now.least
        → AreFloors missing.now.lines numbers.now.numbers result }
{
    let mut floors = [u32::MAX; FLOORED];
    for place in 0..KIND_COUNT {
        lower_floor(
            &mut floors,
            numbers.numbers[place],
            missing.least_of(kinds()[place]),
        );
    }
    floors
}

/// Sets bits of the word at a place, if there is that place.
#[inline(always)]
fn set_bits(words: &mut [u64], place: usize, bits: u64)
    ensures length { length words.new ≡ length words.old }
    ensures others { (j v : ℕ) → bit_at (slice_index words.old j) v ≡ 1 → bit_at (slice_index words.new j) v ≡ 1 }
    ensures own { (v : ℕ) → place < length words.old → bit_at bits v ≡ 1
        → bit_at (slice_index words.new place) v ≡ 1 }
{
    if place < words.len() {
        words[place] |= bits;
    }
}

/// Sets bits of the word of the kind of a number, if it has one.
#[inline(always)]
fn set_listed(words: &mut [u64; FLOORED], number: Option<u32>, bits: u64)
    ensures length { length words.new ≡ length words.old }
    ensures others { (j v : ℕ) → bit_at (slice_index words.old j) v ≡ 1 → bit_at (slice_index words.new j) v ≡ 1 }
    ensures own { (j v : ℕ) → number ≡ Some j → j < length words.old → bit_at bits v ≡ 1
        → bit_at (slice_index words.new j) v ≡ 1 }
{
    if let Some(number) = number {
        set_bits(words, number as usize, bits);
    }
}

/// The bits of the values below 64 that may be missing, by the numbers of their kinds in a grammar.
fn listed(numbers: &Kinds) -> [u64; FLOORED]
    ensures { (flags : List Bool) → AreListed flags numbers.now.numbers result }
{
    let mut words = [0; FLOORED];
    for place in 0..KIND_COUNT {
        set_listed(&mut words, numbers.numbers[place], low_bits(kinds()[place]));
    }
    words
}

/// Whether there is a bit at a position, and it is not set.
#[inline(always)]
fn is_clear(word: u64, position: u32) -> bool
    ensures within { IsTrue result → position < 64 }
    ensures clear { IsTrue result → ¬ (bit_at word position ≡ 1) }
{
    position < u64::BITS && (word >> position) % 2 == 0
}

impl Late {
    /// What a module of version 1.`minor` has too early, or no more. All its OpExtensions are among its first `front`
    /// instructions.
    pub fn of(table: &Table, definitions: &Definitions, minor: u8, front: u32) -> Late
        requires within { front ≤ length definitions.now }
        requires front { (n : ℕ) (i : PlainInst) → slice_get definitions.now n ≡ Some i
            → i.opcode ≡ opcode.EXTENSION → n < front }
        ensures { IsLateBy table.now minor definitions.now result }
    {
        let missing = Missing::of_front(definitions, minor, front);
        let kinds = Kinds::of_missing(table, &missing);
        Late {
            missing,
            kinds,
            minor,
            floors: floors(&missing, &kinds),
            listed: listed(&kinds),
        }
    }

    /// Whether a value or a mask of the kind of a number is below the floor of that kind.
    #[inline(always)]
    fn is_below(&self, kind: u32, value: u32) -> bool
        ensures { AreFloors self.now.missing.lines self.now.kinds.numbers self.now.floors → IsTrue result
            → (is_mask : Bool)
            → ¬ (IsAnyHit self.now.missing.lines self.now.kinds.numbers kind is_mask value) }
    {
        let place = kind as usize;
        place < FLOORED && value < self.floors[place]
    }

    /// Whether a value of the kind of a number is below 64, and of no line of the table.
    #[inline(always)]
    fn is_unlisted(&self, kind: u32, value: u32) -> bool
        ensures { AreListed self.now.missing.lines self.now.kinds.numbers self.now.listed → IsTrue result
            → ¬ (IsAnyHit self.now.missing.lines self.now.kinds.numbers kind false value) }
    {
        let place = kind as usize;
        place < FLOORED && is_clear(self.listed[place], value)
    }

    /// Whether it is told at once that a value of the kind of a number is not missing, nor a set bit of a mask.
    #[inline(always)]
    fn is_surely_there(&self, kind: u32, is_mask: bool, value: u32) -> bool
        ensures { AreFloored self.now → IsTrue result
            → ¬ (IsAnyHit self.now.missing.lines self.now.kinds.numbers kind is_mask value) }
    {
        if self.is_below(kind, value) {
            return true;
        }
        !is_mask && self.is_unlisted(kind, value)
    }

    /// Whether a value of the kind of a number is missing, or a set bit of a mask.
    #[inline(always)]
    fn is_any_hit(&self, kind: u32, is_mask: bool, value: u32) -> bool
        ensures { AreFloored self.now
            → IsTrue result ↔ IsAnyHit self.now.missing.lines self.now.kinds.numbers kind is_mask value }
    {
        if self.is_surely_there(kind, is_mask, value) {
            return false;
        }
        self.kinds.is_any_hit(&self.missing, kind, is_mask, value)
    }

    /// Whether an operand is a value, or has a set bit, that is missing: each instruction that has it breaks O21.
    #[inline(always)]
    pub fn is_operand_missing(&self, operand: Operand<'_>) -> bool
        ensures { AreFloored self.now → IsTrue result ↔ IsHitIn self.now (plain_operand operand.entry) }
    {
        match operand {
            Operand::Value { kind, value } => self.is_any_hit(kind, false, value),
            Operand::Mask { kind, value } => self.is_any_hit(kind, true, value),
            _ => false,
        }
    }

    /// Whether one of some operands is so.
    #[inline(always)]
    fn are_missing(&self, operands: &[Operand<'_>]) -> bool
        ensures { AreFloored self.now → IsTrue result
            ↔ AreHit self.now.missing.lines self.now.kinds.numbers (plain_operands operands.now) }
    {
        for operand in operands {
            if self.is_operand_missing(*operand) {
                return true;
            }
        }
        false
    }

    /// Whether the opcode of an instruction, or a value or a set bit among its operands, is missing.
    #[inline(always)]
    fn has_missing(&self, inst: &Inst<'_>) -> bool
        ensures { AreLeast self.now.missing.lines self.now.missing.least
            → AreFloored self.now → IsTrue result
            ↔ IsInstHit self.now.missing.lines self.now.kinds.numbers (plain_inst inst.now) }
    {
        if self.missing.has_opcode(inst.opcode) {
            return true;
        }
        self.are_missing(inst.operands.as_slice())
    }

    /// Whether no instruction of an opcode breaks O21 but by a value or a mask among its operands.
    pub fn is_quiet(&self, number: u16) -> bool
        ensures { IsTrue result → (G : Table) (minor : ℕ) (is : List PlainInst) → IsLateBy G minor is self.now
            → (n : ℕ) (i : PlainInst) → slice_get is n ≡ Some i → i.opcode ≡ number
            → ¬ (AreHitIn self.now i.operands) → ¬ (IsLateAt G minor is n) }
    {
        !self.missing.has_opcode(number) && !may_have_late_form(&self.missing, self.minor, number)
    }

    /// Whether the instruction of a number, from 0, breaks O21 (SPIR-V Specification 1.6, section 3).
    ///
    /// Time is linear in its words. It takes no memory.
    pub fn is_late(&self, definitions: &Definitions, number: u32) -> bool
        requires { number < length definitions.now }
        ensures { (G : Table) (minor : ℕ) → IsLateBy G minor definitions.now self.now
            → IsTrue result ↔ IsLateAt G minor definitions.now number }
    {
        let inst = definitions.inst(number);
        if self.has_missing(inst) {
            return true;
        }
        has_late_form(definitions, &self.missing, self.minor, inst)
    }
}
