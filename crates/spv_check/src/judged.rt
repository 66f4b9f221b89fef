//! What a module comes to, stage by stage.

ghost use Rattle.std.specs.Prelude.{ℕ, List, IfOk};
ghost use Rattle.spv_module.specs.Module.{plain_insts};
ghost use Rattle.spv_layout.specs.Place.{IsShort};
ghost use Rattle.spv_check.specs.Judged.{AreWordsOf, IsJudged, RefusesAs};

use crate::checked::Checked;
use crate::extended::extended_check;
use crate::flow::flow_check;
use crate::fork::fork_of;
use crate::standard::standard_of;
use crate::std_types::std_types_check;
use crate::types::type_check;
use spv_extended::{Reach, profile_of};
use spv_ids::laws::sound_uses;
use spv_ids::{Ids, number};
use spv_layout::laws::member_or_dead;
use spv_layout::{Plan, lay_out};
use spv_module::{Fault, Module, Stop};
use spv_table::{Memory, Table};
use std::alloc::Global;

/// What a module comes to.
#[derive(Drop)]
pub enum Judged<'a> {
    /// No rule is broken.
    Valid(Checked<'a>),
    /// A rule is broken.
    Broken {
        /// The first rule that is broken, with the instruction and the word by which it is told.
        fault: Fault,
        /// The module, with texts lent by its image.
        module: Module<'a>,
        /// The stages before the one that refused the module.
        reached: Reached,
    },
}

/// Which stages a module passed before the one that refused it, and what they made.
#[derive(Drop)]
pub enum Reached {
    /// None: the rules P and L were asked.
    Decoded,
    /// Its instructions have their places, and the rules D were asked.
    Placed(Plan),
    /// Its ids are numbered too, and the rules Y, C, M and E were asked.
    Numbered(Plan, Ids),
    /// Its types are known too, and the rules F, A and G were asked.
    Typed(Plan, Ids),
    /// It breaks no rule of the profile, and Y9 was asked.
    Sound,
    /// It breaks no rule up to Y9, and Y10 was asked.
    Called(Plan, Ids),
    /// It breaks no rule up to Y10, and the rules O were asked.
    Settled(Plan, Ids),
}

/// What the refusal of a stage comes to.
fn refused<'a>(stop: Stop, module: Module<'a>, reached: Reached) -> Result<Judged<'a>, Memory>
    ensures { RefusesAs stop «module».entry reached result }
{
    match stop {
        Stop::Fault(fault) => Ok(Judged::Broken {
            fault,
            module,
            reached,
        }),
        Stop::Memory => Err(Memory),
    }
}

/// Looks for the first rule that a module breaks, stage by stage: the shapes and the layout, the ids, their roles, then
/// capabilities, entry points and types, where branches lead, values on every walk, and cycles of calls (own). Where
/// one is broken, the module comes back with what the stages before made. `reach` is how far the module is looked at,
/// as `read` answered it; where its extended instructions are looked at, what they take is asked after that (Y9), and
/// of a kernel of OpenCL the types of its calls of OpenCL.std (Y10), and at last what the standard asks besides (O).
///
/// `Memory` comes only where a growth of memory was refused.
pub fn judge<'a>(
    alloc: Global,
    table: &Table,
    reach: Reach,
    module: Module<'a>,
) -> Result<Judged<'a>, Memory>
    // The condition of `lay_out`, and that it is the module of some words, as `read` answers it.
    requires short { IsShort (plain_insts «module») }
    requires words { (words : List ℕ) × AreWordsOf table.now reach «module» words }
    ensures { IfOk result (λ j. IsJudged table.now reach «module».entry.header.bound (plain_insts «module».entry) j) }
{
    member_or_dead();
    sound_uses();
    let plan = match lay_out(alloc, profile_of(reach), table, &module) {
        Ok(plan) => plan,
        Err(stop) => return refused(stop, module, Reached::Decoded),
    };
    let ids = match number(alloc, &module, &plan) {
        Ok(ids) => ids,
        Err(stop) => return refused(stop, module, Reached::Placed(plan)),
    };
    let types = match type_check(alloc, &*table, &module, &plan, &ids) {
        Ok(types) => types,
        Err(stop) => return refused(stop, module, Reached::Numbered(plan, ids)),
    };
    let flow = match flow_check(alloc, &module, &plan, &ids, &types, fork_of(reach)) {
        Ok(flow) => flow,
        Err(stop) => {
            drop(types);
            return refused(stop, module, Reached::Typed(plan, ids));
        }
    };
    let mistyped = match extended_check(alloc, reach, &module, &plan, &types) {
        Ok(mistyped) => mistyped,
        Err(stop) => {
            drop(types);
            return refused(stop, module, Reached::Sound);
        }
    };
    match std_types_check(reach, &module, &plan, mistyped) {
        Ok(()) => (),
        Err(stop) => {
            drop(types);
            return refused(stop, module, Reached::Called(plan, ids));
        }
    }
    let standard = standard_of(alloc, reach, &types, &module, &plan, &ids);
    drop(types);
    match standard {
        Ok(()) => Ok(Judged::Valid(Checked::new(module, plan, ids, flow))),
        Err(stop) => refused(stop, module, Reached::Settled(plan, ids)),
    }
}
