//! A module that breaks no rule, and the verdict on words.

use crate::flow::Flow;
use spv_ids::Ids;
use spv_layout::Plan;
use spv_module::{Fault, Module};
use std::marker::Model;

/// A module that breaks no rule, with what the layers know of it. `check` makes one.
///
/// Contracts see the bound of its ids and its instructions. That it is the module of some words, and breaks no rule, by
/// some table, and that the parts are its own, is true of every value of this type.
#[derive(Drop)]
pub struct Checked<'a> {
    /// The module, with texts lent by its image.
    module: Module<'a>,
    /// Where each instruction stands.
    plan: Plan,
    /// Which instruction defines each id.
    ids: Ids,
    /// What is known of its flow.
    flow: Flow,
}

/// The parts of a checked module.
#[derive(Clone, Copy)]
pub struct Parts<'m, 'a> {
    /// The module, with texts lent by its image.
    pub module: &'m Module<'a>,
    /// Where each instruction stands.
    pub plan: &'m Plan,
    /// Which instruction defines each id.
    pub ids: &'m Ids,
    /// What is known of its flow.
    pub flow: &'m Flow,
}

/// The verdict on the words of a module.
#[derive(Drop)]
pub enum Verdict<'a> {
    /// No rule is broken.
    Valid(Checked<'a>),
    /// The first rule that is broken, with the instruction and the word by which it is told.
    Fault(Fault),
}

impl<'a> Model for Checked<'a> {
    ghost use Rattle.spv_check.specs.Program.{Program};

    ghost Value = { Program };

    ghost use Rattle.spv_table.specs.Table.{Table};
    ghost use Rattle.spv_module.specs.Module.{plain_insts};
    ghost use Rattle.spv_check.specs.Checked.{IsCheckedBy};

    ghost view = { λ c. record { bound = c.«module».header.bound; insts = plain_insts c.«module» } };

    ghost invariant = { λ c. (G : Table) × IsCheckedBy G c.«module» c.plan c.ids c.flow };
}

impl<'a> Checked<'a> {
    ghost use Rattle.std.specs.Prelude.{◌≡◌};
    ghost use Rattle.spv_table.specs.Table.{Table};
    ghost use Rattle.spv_module.specs.Module.{plain_insts};
    ghost use Rattle.spv_extended.specs.declared.reach.Reach.{Reach};
    ghost use Rattle.spv_check.specs.Checked.{IsCheckedBy, IsKept};
    ghost use Rattle.spv_check.specs.Answer.{ArePartsOf};

    /// A module with what `lay_out`, `number` and `flow_check` answered of it, where no rule is broken. It takes no
    /// memory.
    pub(crate) fn new(module: Module<'a>, plan: Plan, ids: Ids, flow: Flow) -> Checked<'a>
        requires { (G : Table) × IsCheckedBy G «module» plan ids flow }
        ensures { result ≡ record { bound = «module».entry.header.bound; insts = plain_insts «module».entry } }
    {
        Checked {
            module,
            plan,
            ids,
            flow,
        }
    }

    /// The module alone. It takes no memory.
    pub fn into_module(self) -> Module<'a>
        ensures bound { result.header.bound ≡ self.entry.bound }
        ensures insts { plain_insts result ≡ self.entry.insts }
    {
        let Checked { module, .. } = self;
        module
    }

    /// The module, and what the layers know of it. It takes no memory.
    pub fn parts(&self) -> Parts<'_, 'a>
        ensures some { (G : Table) × (reach : Reach) × ArePartsOf G reach self.now result }
        ensures each { (G : Table) (reach : Reach) → IsKept G reach self.now → ArePartsOf G reach self.now result }
    {
        Parts {
            module: &self.module,
            plan: &self.plan,
            ids: &self.ids,
            flow: &self.flow,
        }
    }
}
