//! What stands behind the number of an extended instruction.

ghost use Rattle.std.specs.Prelude.{◌≡◌, ◌<◌};
ghost use Rattle.spv_extended.specs.Facts as spec;
ghost use Rattle.spv_extended.specs.Facts.{facts_of, signature_in, read_fact};

use crate::facts::{DEBUG_INFO, OPENCL_DEBUG_INFO, OPENCL_STD};
use crate::set::Set;

/// How many operands an extended instruction may have beyond those that it must have.
#[derive(Clone, Copy)]
pub enum More {
    /// None.
    Nothing,
    /// One at most.
    One,
    /// Any number.
    Any,
    /// The set has no instruction of that number, or is not known.
    Unknown,
}

/// What stands behind the number of an extended instruction.
#[derive(Clone, Copy)]
pub struct Signature {
    /// How many operands it has at least.
    pub least: u32,
    /// How many it may have beyond these.
    pub more: More,
    /// Which of its operands are literals: a bit for each place from 0, that of place 25 for all from there on.
    pub literals: u32,
}

/// The last place that has a bit of its own.
const LAST_PLACE: usize = 25;

/// The fact on a number that a set does not have.
const UNKNOWN: u32 = 0x30;

/// What two bits of a fact tell.
#[inline(always)]
fn more_of(bits: u32) -> More
    ensures { result ≡ spec.more_of bits }
{
    match bits {
        0 => More::Nothing,
        1 => More::One,
        2 => More::Any,
        _ => More::Unknown,
    }
}

/// How a fact is read.
#[inline(always)]
fn read(fact: u32) -> Signature
    ensures { result ≡ read_fact fact }
{
    Signature {
        least: fact % 16,
        more: more_of(fact / 16 % 4),
        literals: fact / 64,
    }
}

/// The facts of a set, by number.
#[inline(always)]
fn facts(set: Set) -> &'static [u32]
    ensures { result.now ≡ facts_of set }
{
    match set {
        Set::OpenClStd => &OPENCL_STD,
        Set::OpenClDebugInfo => &OPENCL_DEBUG_INFO,
        Set::DebugInfo => &DEBUG_INFO,
        Set::Other => &[],
    }
}

/// What a list of facts tells of the instruction of a number.
#[inline(always)]
fn signature_among(facts: &[u32], number: u32) -> Signature
    ensures { result ≡ signature_in facts.now number }
{
    match facts.get(number as usize) {
        Some(fact) => read(*fact),
        None => read(UNKNOWN),
    }
}

/// What a set tells of the instruction of a number.
#[inline(always)]
pub fn signature_of(set: Set, number: u32) -> Signature
    ensures { result ≡ spec.signature_of set number }
{
    signature_among(facts(set), number)
}

/// The place whose bit tells of a place.
#[inline(always)]
fn told_place(place: usize) -> u32
    ensures value { result ≡ spec.told_place place }
    ensures few { result < 32 }
{
    if place < LAST_PLACE {
        place as u32
    } else {
        LAST_PLACE as u32
    }
}

impl Signature {
    /// Whether a literal stands at a place behind the number, from 0.
    #[inline(always)]
    pub fn is_literal(self, place: usize) -> bool
        ensures { result ≡ spec.is_literal self place }
    {
        (self.literals >> told_place(place)) % 2 == 1
    }

    /// Whether so many operands may stand behind the number.
    pub fn takes(self, count: usize) -> bool
        ensures { result ≡ spec.takes self count }
    {
        let least = self.least as usize;
        if count < least {
            return false;
        }
        match self.more {
            More::Nothing => count == least,
            More::One => count - least <= 1,
            More::Any => true,
            More::Unknown => false,
        }
    }
}
