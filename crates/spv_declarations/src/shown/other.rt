//! O8: the first instruction by which an id has the other of Restrict and Aliased.

ghost use Rattle.std.specs.Prelude.{◌≡◌, ◌↔◌, ◌+◌, ◌<◌, ℕ, IfOk, IsTrue, MatchOption, OnOk, Option, length};
ghost use Rattle.spv_module.specs.Module.{plain_inst, plain_operands};
ghost use Rattle.spv_declarations.specs.Decorated.{HasBy, IsLeastBy, IsSecond};
ghost use Rattle.spv_declarations.specs.Given.{Gives, HasId};
ghost use Rattle.spv_declarations.specs.Shown.{IsOtherOf};
ghost use Rattle.spv_declarations.specs.inner.Said.{AreSaid, HasAt, IsKnown};
ghost use Rattle.spv_declarations.specs.inner.Sets.{AnyId, IsOf};
ghost use Rattle.spv_declarations.specs.inner.Shown.{AreBothBefore, IsDecorated, IsNewIn, IsSecondOf};

use crate::decorated::{behind_first, given};
use crate::said::Said;
use crate::second::{ALIASED, RESTRICT, add_with};
use crate::shown::ids::{decorates, gives};
use spv_module::{Inst, Operand};
use spv_type_forms::Definitions;
use std::alloc::{AllocError, Global};
use std::collections::BTreeSet;

/// The ids that have Restrict, and those that have Aliased.
#[derive(Drop)]
pub struct Both {
    restricted: BTreeSet<u32>,
    aliased: BTreeSet<u32>,
}

impl Both {
    /// Adds what an instruction of the module gives.
    fn add(&mut self, definitions: &Definitions, said: &Said, number: u32) -> Result<(), AllocError>
        requires within { number < length definitions.now }
        requires said { (l : Option ℕ) × AreSaid l definitions.now said.now }
        ensures { OnOk result (AreBothBefore definitions.now number self.old
            → AreBothBefore definitions.now (number + 1) self.new) }
    {
        let inst = definitions.inst(number);
        add_with(&mut self.restricted, definitions, said, inst, RESTRICT)?;
        add_with(&mut self.aliased, definitions, said, inst, ALIASED)
    }

    /// The ids that have them by the instructions before one.
    fn before(
        alloc: Global,
        definitions: &Definitions,
        said: &Said,
        inst: u32,
    ) -> Result<Both, AllocError>
        requires within { inst < length definitions.now }
        requires said { (l : Option ℕ) × AreSaid l definitions.now said.now }
        ensures { IfOk result (AreBothBefore definitions.now inst) }
    {
        let mut both = Both {
            restricted: BTreeSet::new(alloc),
            aliased: BTreeSet::new(alloc),
        };
        for number in 0..inst {
            both.add(definitions, said, number)?;
        }
        Ok(both)
    }

    /// Whether an id that is not in both is so, if it gets the one and the other as told.
    fn is_new(&self, by_restricted: bool, by_aliased: bool, x: u32) -> bool
        ensures { IsTrue result ↔ IsNewIn self.now by_restricted by_aliased x }
    {
        let was_restricted = self.restricted.contains(&x);
        let was_aliased = self.aliased.contains(&x);
        if was_restricted && was_aliased {
            return false;
        }
        (was_restricted || by_restricted) && (was_aliased || by_aliased)
    }

    /// The first of some operands that is such an id.
    fn new_target(
        &self,
        by_restricted: bool,
        by_aliased: bool,
        targets: &[Operand<'_>],
    ) -> Option<u32>
        ensures { MatchOption result
            (¬ (AnyId (IsNewIn self.now by_restricted by_aliased) (plain_operands targets.now)))
            (λ x. HasId (plain_operands targets.now) x × IsNewIn self.now by_restricted by_aliased x) }
    {
        for target in targets {
            if let Operand::Id(x) = target {
                if self.is_new(by_restricted, by_aliased, *x) {
                    return Some(*x);
                }
            }
        }
        None
    }

    /// The first id that an instruction decorates and that is such an id.
    fn new_id(&self, by_restricted: bool, by_aliased: bool, inst: &Inst<'_>) -> u32
        requires { (x : ℕ) × IsDecorated (plain_inst inst.now) x × IsNewIn self.now by_restricted by_aliased x }
        ensures { IsDecorated (plain_inst inst.now) result × IsNewIn self.now by_restricted by_aliased result }
    {
        if let Some((x, _)) = given(inst) {
            return x;
        }
        match self.new_target(by_restricted, by_aliased, behind_first(inst)) {
            Some(x) => x,
            None => unreachable!(),
        }
    }
}

/// An id by which an instruction breaks O8.
fn second_id(
    alloc: Global,
    definitions: &Definitions,
    said: &Said,
    inst: u32,
) -> Result<u32, AllocError>
    requires within { inst < length definitions.now }
    requires said { (l : Option ℕ) × AreSaid l definitions.now said.now }
    requires broken { IsSecond definitions.now inst }
    ensures { IfOk result (IsSecondOf definitions.now inst) }
{
    let both = Both::before(alloc, definitions, said, inst)?;
    let own = definitions.inst(inst);
    let by_restricted = gives(definitions, said, own, RESTRICT);
    let by_aliased = gives(definitions, said, own, ALIASED);
    Ok(both.new_id(by_restricted, by_aliased, own))
}

/// Whether an id has a decoration by an instruction of the module.
fn has(definitions: &Definitions, said: &Said, inst: &Inst<'_>, x: u32, decoration: u32) -> bool
    requires known { IsKnown decoration }
    requires said { (l : Option ℕ) × AreSaid l definitions.now said.now }
    requires inst { IsOf definitions.now (plain_inst inst.now) }
    ensures { IsTrue result ↔ HasAt definitions.now (Gives decoration) x (plain_inst inst.now) }
{
    decorates(inst, x) && gives(definitions, said, inst, decoration)
}

/// The first instruction by which an id has a decoration.
fn first_by(definitions: &Definitions, said: &Said, total: u32, x: u32, decoration: u32) -> u32
    requires total { total ≡ length definitions.now }
    requires known { IsKnown decoration }
    requires said { (l : Option ℕ) × AreSaid l definitions.now said.now }
    requires there { (m : ℕ) × HasBy definitions.now x decoration m }
    ensures { IsLeastBy definitions.now x decoration result }
{
    for number in 0..total {
        if has(definitions, said, definitions.inst(number), x, decoration) {
            return number;
        }
    }
    unreachable!()
}

/// The first instruction by which an id has the one of Restrict (19) and Aliased (20), where an instruction that breaks
/// O8 is the first by which it has the other. `total` is how many instructions there are.
///
/// Time is near-linear in their words. An `AllocError` comes only where a growth of memory was refused.
pub fn other_inst(
    alloc: Global,
    definitions: &Definitions,
    total: u32,
    inst: u32,
) -> Result<u32, AllocError>
    requires total { total ≡ length definitions.now }
    requires broken { IsSecond definitions.now inst }
    ensures { IfOk result (IsOtherOf definitions.now inst) }
{
    let said = Said::gather(alloc, definitions, None, total)?;
    let x = second_id(alloc, definitions, &said, inst)?;
    let restricted = first_by(definitions, &said, total, x, RESTRICT);
    let aliased = first_by(definitions, &said, total, x, ALIASED);
    if restricted < aliased {
        return Ok(restricted);
    }
    Ok(aliased)
}
