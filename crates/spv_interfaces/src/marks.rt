//! What is known of some entry points, or variables, together: each has a bit of a word.

ghost use Rattle.std.specs.Prelude.{◌≡◌, ◌+◌, ◌≤◌, ◌<◌, ◌^◌, ◌↔◌, ◌⊎◌, ℕ, length, IfOk, IsTrue, MatchOption, Some};
ghost use Rattle.std.specs.Prelude.{slice_get};
ghost use Rattle.spv_ids.specs.Definition.{IsDefinedAt};
ghost use Rattle.spv_flow.specs.calls.inner.Graph.{AreWithin};
ghost use Rattle.spv_interfaces.specs.inner.Marks.{Adds, Grows, HasBit, IsClosed, IsMarked, IsMissing, IsOpen, Rises};
ghost use Rattle.spv_interfaces.specs.inner.Marks.{word_of};

use crate::used::Use;
use spv_flow::calls::Call;
use spv_type_forms::Definitions;
use std::alloc::{AllocError, Global};

/// How many entry points or variables are looked at together: as many as a word has bits.
pub const TOGETHER: usize = 64;

/// The bits of instructions: of entry points, or of variables.
#[derive(Drop)]
pub struct Marks {
    /// Of each instruction that is an OpFunction the entry points from which a chain of calls leads to it; or the
    /// variables that it uses, itself or by calls.
    pub reached: Vec<u64>,
    /// Of each instruction that is a variable the entry points that have it in their interface; or itself.
    pub named: Vec<u64>,
}

/// The word of one bit.
pub fn bit(k: usize) -> u64
    requires { k < 64 }
    ensures { result ≡ 2 ^ k }
{
    1 << k
}

/// Words for so many instructions, without a bit.
///
/// An `AllocError` comes only where a growth of memory was refused.
pub fn blank(alloc: Global, total: usize) -> Result<Vec<u64>, AllocError>
    ensures count { IfOk result (λ words. length words.items ≡ total) }
    ensures blank { IfOk result (λ words. (f k : ℕ) → ¬ (IsMarked words.items f k)) }
{
    Ok(vec![in alloc; 0u64; total]?)
}

/// The word of an instruction.
#[inline(always)]
pub fn word_at(words: &[u64], number: u32) -> u64
    ensures { result ≡ word_of words.now number }
{
    match words.get(number as usize) {
        Some(word) => *word,
        None => 0,
    }
}

/// Sets bits of the word of an instruction.
#[inline(always)]
pub fn set(words: &mut Vec<u64>, number: u32, bits: u64)
    ensures adds { Adds bits (λ f. f ≡ number) words.old.items words.new.items }
    ensures rises { Rises words.old.items words.new.items }
{
    let at = number as usize;
    if at < words.len() {
        words[at] |= bits;
    }
}

/// Sets bits where an id is defined.
#[inline(always)]
pub fn enter(words: &mut Vec<u64>, definitions: &Definitions, x: u32, bits: u64)
    ensures { Adds bits (IsDefinedAt definitions.now x) words.old.items words.new.items }
{
    if let Some(number) = definitions.number(x) {
        set(words, number, bits);
    }
}

/// Comes along a call.
#[inline(always)]
fn follow(words: &mut Vec<u64>, call: Call)
    ensures adds { Adds (word_of words.old.items call.caller) (λ f. f ≡ call.callee)
        words.old.items words.new.items }
    ensures rises { Rises words.old.items words.new.items }
{
    let bits = word_at(words.as_slice(), call.caller);
    set(words, call.callee, bits);
}

/// Comes along all calls.
fn follow_all(words: &mut Vec<u64>, calls: &[Call])
    ensures { Grows calls.now words.old.items words.new.items }
{
    for call in calls {
        follow(words, *call);
    }
}

/// Comes along the calls in an order, given by their places.
fn follow_in_order(words: &mut Vec<u64>, calls: &[Call], order: &[u32])
    ensures { Grows calls.now words.old.items words.new.items }
{
    for place in order {
        if let Some(call) = calls.get(*place as usize) {
            follow(words, *call);
        }
    }
}

/// Whether a call leads from a function that has a bit which its callee has not.
#[inline(always)]
fn is_open(words: &[u64], call: Call) -> bool
    ensures { IsTrue result ↔ ((k : ℕ) × IsMarked words.now call.caller k × ¬ (IsMarked words.now call.callee k)) }
{
    word_at(words, call.caller) & !word_at(words, call.callee) != 0
}

/// A call from a function that has a bit which its callee has not.
fn open_call(words: &[u64], calls: &[Call]) -> Option<Call>
    ensures { MatchOption result (IsClosed calls.now words.now) (IsOpen calls.now words.now) }
{
    for call in calls {
        if is_open(words, *call) {
            return Some(*call);
        }
    }
    None
}

/// Comes along the calls in an order; and then, as long as one is open, along all. Where that order has callers
/// first, none is.
pub fn spread(words: &mut Vec<u64>, calls: &[Call], order: &[u32])
    requires { AreWithin (length words.old.items) calls.now }
    ensures grows { Grows calls.now words.old.items words.new.items }
    ensures closed { IsClosed calls.now words.new.items }
{
    follow_in_order(words, calls, order);
    while let Some(call) = open_call(words, calls) {
        follow(words, call);
        follow_all(words, calls);
    }
}

impl Marks {
    /// No marks, in a module of so many instructions.
    pub fn new(alloc: Global, total: usize) -> Result<Marks, AllocError>
        ensures reached { IfOk result (λ m. length m.reached.items ≡ total) }
        ensures named { IfOk result (λ m. length m.named.items ≡ total) }
        ensures not_reached { IfOk result (λ m. (f k : ℕ) → ¬ (IsMarked m.reached.items f k)) }
        ensures not_named { IfOk result (λ m. (f k : ℕ) → ¬ (IsMarked m.named.items f k)) }
    {
        Ok(Marks {
            reached: blank(alloc, total)?,
            named: blank(alloc, total)?,
        })
    }

    /// The entry points that do not name a variable which their call tree uses.
    pub fn missing(&self, uses: &[Use]) -> u64
        ensures { (k : ℕ) → k < 64 → HasBit result k
            ↔ IsMissing self.now.reached.items self.now.named.items uses.now (length uses.now) k }
    {
        let mut missing = 0;
        for found in uses {
            let reached = word_at(self.reached.as_slice(), found.function);
            missing |= reached & !word_at(self.named.as_slice(), found.variable);
        }
        missing
    }
}
