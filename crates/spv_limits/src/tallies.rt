//! Execution modes and variables, counted.

ghost use Rattle.std.specs.Prelude.{◌≡◌, ◌≤◌, ◌<◌, ◌↔◌, ◌+◌, ℕ, List, IfOk, IsTrue, Some, slice_get, if◌then◌else◌};
ghost use Rattle.spv_module.specs.Module.{plain_inst};
ghost use Rattle.spv_module.specs.Operand.{PlainInst};
ghost use Rattle.spv_limits.specs.declared.table.Limit.TheVariants as limit;
ghost use Rattle.spv_limits.specs.Table as table;
ghost use Rattle.spv_limits.specs.inner.Counting.{AreModes, AreVariables, HasModeTooMany, IsAnswer, IsVariableTooMany};
ghost use Rattle.spv_limits.specs.inner.Counting as counting;
ghost use Rattle.spv_limits.specs.inner.Kept.{kept};

use crate::counted::mode_of;
use crate::kept::{keep, kept_at};
use crate::table::{Limit, most};
use spv_module::{Inst, opcode};
use std::alloc::AllocError;
use std::collections::BTreeMap;

/// Takes note of an instruction, and answers whether it gives a function a mode too many.
pub fn has_mode_too_many(
    modes: &mut BTreeMap<u32, u32>,
    inst: &Inst<'_>,
) -> Result<bool, AllocError>
    requires { (f : ℕ) → kept modes.old f ≤ 255 }
    ensures { IfOk result (λ b. (is : List PlainInst) (n : ℕ) → slice_get is n ≡ Some (plain_inst inst.now)
        → AreModes is n modes.old
        → IsAnswer b (HasModeTooMany is n (plain_inst inst.now)) (AreModes is (n + 1) modes.new)) }
{
    match mode_of(inst) {
        Some(f) => {
            let count = kept_at(modes, f) + 1;
            keep(modes, f, count)?;
            Ok(most(Limit::Modes) < count)
        }
        None => Ok(false),
    }
}

/// The limit of variables in functions, or before them.
fn limit_of(are_local: bool) -> Limit
    ensures { result ≡ counting.limit_of are_local }
{
    if are_local {
        Limit::Locals
    } else {
        Limit::Globals
    }
}

/// How many variables there were: before the functions, or, from the first OpFunction on, in functions.
#[derive(Clone, Copy)]
pub struct Variables {
    pub are_local: bool,
    pub count: u32,
}

impl Variables {
    /// Takes note of an instruction, and answers whether it is a variable too many.
    pub fn is_too_many(&mut self, inst: &Inst<'_>) -> bool
        requires { self.old.count ≤ table.most limit.Locals }
        ensures { (is : List PlainInst) (n : ℕ) → slice_get is n ≡ Some (plain_inst inst.now)
            → AreVariables is n self.old.are_local self.old.count
            → IsAnswer result (IsVariableTooMany is n (plain_inst inst.now))
            (AreVariables is (n + 1) self.new.are_local self.new.count) }
    {
        match inst.opcode {
            opcode::VARIABLE => self.add(),
            opcode::FUNCTION => {
                self.begin();
                false
            }
            _ => false,
        }
    }

    /// One variable more. Whether there are too many now.
    fn add(&mut self) -> bool
        requires { self.old.count ≤ table.most limit.Locals }
        ensures local { self.new.are_local ≡ self.old.are_local }
        ensures count { self.new.count ≡ self.old.count + 1 }
        ensures answer { IsTrue result ↔ (table.most (counting.limit_of self.old.are_local) < self.old.count + 1) }
    {
        self.count = self.count + 1;
        most(limit_of(self.are_local)) < self.count
    }

    /// Functions begin, if they have not begun.
    fn begin(&mut self)
        ensures local { IsTrue self.new.are_local }
        ensures count { self.new.count ≡ (if self.old.are_local then self.old.count else 0) }
    {
        if !self.are_local {
            self.are_local = true;
            self.count = 0;
        }
    }
}
