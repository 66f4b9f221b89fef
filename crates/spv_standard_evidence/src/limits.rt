//! What shows that O22 is broken: the number that is passed.

ghost use Rattle.std.specs.Prelude.{◌≡◌, ◌↔◌, ◌<◌, ◌≤◌, IsTrue, Some, length, slice_get};
ghost use Rattle.spv_module.specs.Module.{plain_inst};
ghost use Rattle.spv_module.specs.declared.fault.Rule.TheVariants.{O22};
ghost use Rattle.spv_limits.specs.declared.table.Limit.TheVariants as limit;
ghost use Rattle.spv_limits.specs.Broken.{Broken};
ghost use Rattle.spv_limits.specs.Counted as counted;
ghost use Rattle.spv_limits.specs.Past.{IsInFunctions, Passes};
ghost use Rattle.spv_limits.specs.Table as table;
ghost use Rattle.spv_standard_evidence.specs.Limits.{IsEvidence, limit_by};
ghost use Rattle.spv_standard_evidence.specs.inner.Limits as inner;

use spv_evidence::Evidence;
use spv_limits::{Limit, has_long_text, most};
use spv_module::{Inst, opcode};
use spv_type_forms::Definitions;

/// Whether an OpFunction stands before the instruction of a number.
fn is_in_functions(definitions: &Definitions, number: u32) -> bool
    requires { number ≤ length definitions.now }
    ensures { IsTrue result ↔ IsInFunctions definitions.now number }
{
    for before in 0..number {
        if definitions.inst(before).opcode == opcode::FUNCTION {
            return true;
        }
    }
    false
}

/// Whether an instruction has more operands behind the first than a struct may have members.
fn has_many(inst: &Inst<'_>) -> bool
    ensures { IsTrue result ↔ (table.most limit.Members < counted.member_count (plain_inst inst.now).operands) }
{
    inst.operands.len().saturating_sub(1) > most(Limit::Members) as usize
}

/// What an instruction of an opcode may have too many of, beside the characters of a text.
fn limit_of(code: u16, has_many: bool, is_local: bool) -> Limit
    ensures { result ≡ inner.limit_of code has_many is_local }
{
    match code {
        opcode::TYPE_STRUCT => {
            if has_many {
                Limit::Members
            } else {
                Limit::Depth
            }
        }
        opcode::TYPE_FUNCTION => Limit::Parameters,
        opcode::SWITCH => Limit::Pairs,
        opcode::EXT_INST => Limit::Arguments,
        opcode::EXECUTION_MODE | opcode::EXECUTION_MODE_ID => Limit::Modes,
        opcode::VARIABLE => {
            if is_local {
                Limit::Locals
            } else {
                Limit::Globals
            }
        }
        _ => Limit::Indexes,
    }
}

/// The limit that an instruction passes, which passes one.
fn passed(definitions: &Definitions, number: u32, inst: &Inst<'_>) -> Limit
    requires there { slice_get definitions.now number ≡ Some (plain_inst inst.now) }
    requires number { number < length definitions.now }
    requires passes { Passes definitions.now number (plain_inst inst.now) }
    ensures { (p : Passes definitions.now number (plain_inst inst.now)) × (limit_by p ≡ result) }
{
    if has_long_text(inst.operands.as_slice()) {
        return Limit::Characters;
    }
    let is_local = is_in_functions(definitions, number);
    limit_of(inst.opcode, has_many(inst), is_local)
}

/// What shows that O22 is broken at the instruction of a number, from 0: the greatest number that is allowed, which it
/// passes.
///
/// Time is linear in the instructions before. It takes no memory.
pub fn limit_evidence(definitions: &Definitions, inst: u32) -> Evidence
    requires { Broken definitions.now O22 inst }
    ensures { IsEvidence definitions.now O22 inst result }
{
    let limit = passed(definitions, inst, definitions.inst(inst));
    Evidence::Past { most: most(limit) }
}
