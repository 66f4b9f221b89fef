ghost use Rattle.std.specs.Prelude.{◌≡◌, ◌≤◌, ◌<◌, ◌∷◌, [], ℕ, List, length, map, slice_get, IfOk};
ghost use Rattle.std.specs.Prelude.{◌+◌, IfErr, IfSome, IfNone, Some, vec_len, vec_capacity};
ghost use Rattle.spv_words.specs.Header.{greatest_length};
ghost use Rattle.spv_module.specs.Module.{plain_inst, plain_insts};
ghost use Rattle.spv_module.specs.Operand.{PlainInst};
ghost use Rattle.spv_module.specs.declared.fault.Rule.TheVariants as rule;
ghost use Rattle.spv_module.specs.declared.fault.Stop.TheVariants as stop;
ghost use Rattle.spv_layout.specs.First.{IsFirst};
ghost use Rattle.spv_layout.specs.Stage.{of_profile};
ghost use Rattle.spv_layout.specs.Broken.{Broken};
ghost use Rattle.spv_layout.specs.DeadPlace.{IsDeadPlace};
ghost use Rattle.spv_layout.specs.Profile.{FitsProfile};
ghost use Rattle.spv_layout.specs.Place.{AreFew, IsAt, IsShort, first_word_of};
ghost use Rattle.spv_layout.specs.declared.class.Class.TheVariants.{Function};
ghost use Rattle.spv_layout.specs.declared.place.Early.{Early as EarlyKept};
ghost use Rattle.spv_layout.specs.inner.Kept.{AreSectioned, IsUnsectioned};
ghost use Rattle.spv_layout.specs.inner.Outcome.{ArePlacesOf, IsStopAt};
ghost use Rattle.spv_layout.specs.inner.Pass.{IsReached, Kept};
ghost use Rattle.spv_layout.specs.inner.Span.{no_spans};
ghost use Rattle.spv_layout.specs.Plan.{IsPlan, IsLaidOut, IsRefusal};

use crate::fitting::fitting;
use crate::kinds::Kinds;
use crate::place::{Early, Place, Standing, inst_words, words_of};
use crate::rows::row;
use crate::span::Spans;
use crate::state::{State, next_seen, stops};
use spv_module::{Fault, Inst, Module, Profile, Rule, Stop};
use spv_table::Table;
use std::alloc::Global;
use std::marker::Model;

/// The places of a module's instructions. Contracts see it as their list.
///
/// It keeps 8 bytes for an instruction of sections 1 to 8, and 12 for one of sections 9 to 11.
#[derive(Drop)]
pub struct Plan {
    /// Where section 10 begins, as in `Spans`.
    functions: u32,
    /// The instructions of sections 1 to 8.
    early: Vec<Early>,
    /// Those after them.
    late: Vec<Standing>,
    /// Where section 11 begins, as in `Spans`.
    definitions: u32,
}

impl Model for Plan {
    ghost use Rattle.std.specs.Prelude.{List};
    ghost use Rattle.spv_layout.specs.declared.place.Place.{Place};
    ghost use Rattle.spv_layout.specs.inner.Kept.{places_in, AreEarly};

    ghost Value = { List Place };

    ghost view = { λ p. places_in p.functions p.definitions p.early.items p.late.items };

    ghost invariant = { λ p. AreEarly p.functions p.early.items };
}

impl Plan {
    /// The place of an instruction, if the module has one of that number, from 0. It takes no memory.
    #[inline(always)]
    pub fn at(&self, inst: u32) -> Option<Place>
        ensures { result ≡ slice_get self.now inst }
    {
        let at = inst as usize;
        let early = self.early.len();
        if at < early {
            Some(self.early[at].place())
        } else if at - early < self.late.len() {
            Some(self.late[at - early].place(self.functions, self.definitions, inst))
        } else {
            None
        }
    }

    /// How many instructions stand before the first OpFunction: all, where there is none. It takes no memory.
    #[inline(always)]
    pub fn before_functions(&self) -> u32
        requires few { AreFew self.now }
        ensures within { result ≤ length self.now }
        ensures before { (is : List PlainInst) (n : ℕ) → ArePlacesOf is self.now → n < result
            → ¬ (IsAt is n (Function ∷ [])) }
        ensures next { (is : List PlainInst) → ArePlacesOf is self.now → result < length self.now
            → IsAt is result (Function ∷ []) }
    {
        let count = self.early.len() + self.late.len();
        self.functions.min(count as u32)
    }

    /// The fault of a rule at an instruction, with that one's first word. The module has an instruction of that number,
    /// from 0. It takes no memory.
    pub fn stop_at(&self, rule: Rule, inst: u32) -> Stop
        requires { inst < length self.now }
        ensures { (is : List PlainInst) → ArePlacesOf is self.now → IsStopAt is rule inst result }
    {
        let Some(place) = self.at(inst) else {
            unreachable!();
        };
        Stop::Fault(Fault {
            rule,
            inst,
            word: place.word,
        })
    }
}

/// A broken rule at an instruction with that first word.
#[cold]
#[inline(never)]
fn fault(rule: Rule, inst: usize, word: u32) -> Stop
    requires { inst ≤ greatest_length }
    ensures { result ≡ stop.Fault (record { rule = rule; inst = inst; word = word }) }
{
    Stop::Fault(Fault {
        rule,
        inst: inst as u32,
        word,
    })
}

/// The first instruction that does not fit its row, or has none in the profile.
fn first_misfit(profile: Profile, kinds: &Kinds<'_>, insts: &[Inst<'_>]) -> Option<usize>
    ensures some { IfSome result
        (λ n. IsFirst (Broken profile kinds.now (map plain_inst insts.now)) of_profile rule.P1 n) }
    ensures within { IfSome result (λ n. n < length insts.now) }
    ensures none { IfNone result ((n : ℕ) (i : PlainInst) → slice_get (map plain_inst insts.now) n ≡ Some i
        → FitsProfile profile kinds.now i) }
{
    for (i, inst) in insts.iter().enumerate() {
        let Some(_) = fitting(profile, kinds, inst) else {
            return Some(i);
        };
    }
    None
}

/// The number of an instruction's first word, or at the end of all words.
fn word_at(insts: &[Inst<'_>], n: usize) -> u32
    requires words { IsShort (map plain_inst insts.now) }
    requires within { n ≤ length insts.now }
    ensures { result ≡ first_word_of (map plain_inst insts.now) n }
{
    let mut word = 5;
    for i in 0..n {
        word += inst_words(&insts[i]);
    }
    word
}

/// The first broken rule of a module with a dead place, whose first word is told: P1 at the first instruction that does
/// not fit its row, or has none in the profile, or the rule of the place.
#[cold]
#[inline(never)]
fn refused(
    profile: Profile,
    kinds: &Kinds<'_>,
    insts: &[Inst<'_>],
    rule: Rule,
    inst: usize,
    word: u32,
) -> Stop
    requires words { IsShort (map plain_inst insts.now) }
    requires dead { IsDeadPlace profile (map plain_inst insts.now) rule inst }
    requires within { inst ≤ length insts.now }
    requires word { word ≡ first_word_of (map plain_inst insts.now) inst }
    ensures { IsRefusal profile kinds.now (map plain_inst insts.now) result }
{
    match first_misfit(profile, kinds, insts) {
        Some(misfit) => fault(Rule::P1, misfit, word_at(insts, misfit)),
        None => fault(rule, inst, word),
    }
}

/// How many instructions stand before the first one of a class of sections 9 to 11.
fn count_early(insts: &[Inst<'_>]) -> usize
    ensures within { result ≤ length insts.now }
    ensures early { AreSectioned (map plain_inst insts.now) result }
    ensures late { IsUnsectioned (map plain_inst insts.now) result }
{
    for (i, inst) in insts.iter().enumerate() {
        let Some(row) = row(inst.opcode) else {
            return i;
        };
        if row.section.is_none() {
            return i;
        }
    }
    insts.len()
}

/// What a pass over instructions has come to.
#[derive(Clone, Copy)]
pub struct Reached {
    /// The state of the automaton of the layout after those before.
    pub state: State,
    /// What they leave open.
    pub spans: Spans,
    /// The number of the next one's first word.
    pub word: u32,
}

/// Lays out the instructions of sections 1 to 8, which stand first.
#[inline(always)]
fn lay_early(
    profile: Profile,
    kinds: &Kinds<'_>,
    insts: &[Inst<'_>],
    count: usize,
    early: &mut Vec<Early>,
) -> Result<Reached, Stop>
    requires words { IsShort (map plain_inst insts.now) }
    requires within { count ≤ length insts.now }
    requires early { AreSectioned (map plain_inst insts.now) count }
    requires none { early.now.items ≡ [] }
    requires size { vec_len early.now ≡ 0 }
    requires room { count ≤ vec_capacity early.now }
    ensures reached { IfOk result (λ r. IsReached profile kinds.now insts.now count r) }
    ensures spans { IfOk result (λ r. r.spans ≡ no_spans) }
    ensures kept { IfOk result (λ r. Kept (map plain_inst insts.now) count r.state early.new.items []) }
    ensures refused { IfErr result (λ s. IsRefusal profile kinds.now (map plain_inst insts.now) s) }
{
    let mut state = State::Capabilities;
    let mut word = 5;
    for i in 0..count {
        let inst = &insts[i];
        let Some(row) = fitting(profile, kinds, inst) else {
            return Err(fault(Rule::P1, i, word));
        };
        let Some(after) = next_seen(profile, state, row.class) else {
            return Err(refused(profile, kinds, insts, Rule::L1, i, word));
        };
        state = after;
        if let Some(section) = row.section {
            early.push_reserved(Early { section, word });
        }
        word += words_of(inst, row);
    }
    Ok(Reached {
        state,
        spans: Spans::new(),
        word,
    })
}

/// Lays out the instructions from a number on, where those before are all of sections 1 to 8, but for none of them.
#[inline(always)]
fn lay_late(
    profile: Profile,
    kinds: &Kinds<'_>,
    insts: &[Inst<'_>],
    count: usize,
    begun: Reached,
    late: &mut Vec<Standing>,
) -> Result<Reached, Stop>
    requires words { IsShort (map plain_inst insts.now) }
    requires within { count ≤ length insts.now }
    requires late { IsUnsectioned (map plain_inst insts.now) count }
    requires begun { IsReached profile kinds.now insts.now count begun }
    requires none { late.now.items ≡ [] }
    requires size { vec_len late.now ≡ 0 }
    requires room { length insts.now ≤ count + vec_capacity late.now }
    ensures reached { IfOk result (λ r. IsReached profile kinds.now insts.now (length insts.now) r) }
    ensures kept { IfOk result (λ r. (early : List EarlyKept)
        → Kept (map plain_inst insts.now) count begun.state early []
        → Kept (map plain_inst insts.now) (length insts.now) r.state early late.new.items) }
    ensures refused { IfErr result (λ s. IsRefusal profile kinds.now (map plain_inst insts.now) s) }
{
    let mut state = begun.state;
    let mut spans = begun.spans;
    let mut word = begun.word;
    for at in count..insts.len() {
        let inst = &insts[at];
        let Some(row) = fitting(profile, kinds, inst) else {
            return Err(fault(Rule::P1, at, word));
        };
        let Some(after) = next_seen(profile, state, row.class) else {
            return Err(refused(profile, kinds, insts, Rule::L1, at, word));
        };
        state = after;
        spans.enter(row.class, at as u32);
        late.push_reserved(Standing {
            function: spans.function,
            block: spans.block,
            word,
        });
        spans.leave(row.class);
        word += words_of(inst, row);
    }
    Ok(Reached { state, spans, word })
}

/// Lays instructions out, in one pass.
#[inline(never)]
fn plan_of(
    alloc: Global,
    profile: Profile,
    kinds: &Kinds<'_>,
    insts: &[Inst<'_>],
) -> Result<Plan, Stop>
    requires words { IsShort (map plain_inst insts.now) }
    ensures plan { IfOk result (λ p. IsPlan kinds.now (map plain_inst insts.now) p) }
    ensures laid_out { IfOk result (λ p. IsLaidOut profile kinds.now (map plain_inst insts.now)) }
    ensures refused { IfErr result (λ s. IsRefusal profile kinds.now (map plain_inst insts.now) s) }
{
    let count = count_early(insts);
    let mut early = Vec::with_capacity(alloc, count)?;
    let mut late = Vec::with_capacity(alloc, insts.len() - count)?;
    let begun = lay_early(profile, kinds, insts, count, &mut early)?;
    let reached = lay_late(profile, kinds, insts, count, begun, &mut late)?;
    if !stops(reached.state) {
        return Err(refused(profile, kinds, insts, Rule::L2, insts.len(), reached.word));
    }
    Ok(Plan {
        early,
        late,
        functions: reached.spans.functions,
        definitions: reached.spans.definitions,
    })
}

/// Lays a module out under a profile: each instruction has the operands that the row of its opcode asks for (own), and
/// all together stand in the order of the sections (SPIR-V Specification 1.6, section 2.4).
///
/// A `Fault` tells the first broken rule, the number of its instruction, from 0, and that of the instruction's first
/// word in the module:
/// - P1, wherever it stands: the opcode has no row in the profile, or the operands do not fit it (own).
/// - L1, where no instruction breaks P1: no module goes on with this instruction after those before it (2.4).
/// - L2, where none breaks P1 or L1: the module ends too early. The numbers are those of all instructions and all
///   words.
///
/// `Memory` comes only where a growth of memory was refused.
///
/// A module that was decoded has few enough words: the law `word_counts` says how many.
pub fn lay_out(
    alloc: Global,
    profile: Profile,
    table: &Table,
    module: &Module<'_>,
) -> Result<Plan, Stop>
    requires { IsShort (plain_insts «module».now) }
    // What places are rests on no profile; what the profile asks besides is kept.
    ensures plan { IfOk result (λ p. IsPlan table.now (plain_insts «module».now) p) }
    ensures laid_out { IfOk result (λ p. IsLaidOut profile table.now (plain_insts «module».now)) }
    ensures refused { IfErr result (λ s. IsRefusal profile table.now (plain_insts «module».now) s) }
{
    let kinds = Kinds::of(table);
    plan_of(alloc, profile, &kinds, module.insts.as_slice())
}
