//! The calls of OpenCL.std that break Y10.

ghost use Rattle.std.specs.Prelude.{◌≡◌, ◌<◌, ◌↔◌, IsTrue, MatchOption, length};
ghost use Rattle.spv_module.specs.Module.{plain_inst, plain_operands};
ghost use Rattle.spv_extended.specs.declared.set.Set.TheVariants.{OpenClStd, Other};
ghost use Rattle.spv_extended.specs.Sets.{imported_by, or_later, set_in};
ghost use Rattle.spv_std_types.specs.Mistyped.{BreaksCall, IsMistyped, IsMistypedBy, Mistypes};
ghost use Rattle.spv_std_types.specs.inner.Failing.{BreaksBy, IsFound};

use crate::condition::Condition;
use crate::first::first_failing;
use crate::table::conditions_of;
use spv_extended::{Set, import};
use spv_module::{Inst, Operand, opcode};
use spv_type_forms::Definitions;

/// The set that an instruction imports for an id.
fn set_by(inst: &Inst<'_>, id: u32) -> Set
    ensures { result ≡ or_later id (imported_by (plain_inst inst.now)) Other }
{
    match import(inst) {
        Some((own, set)) => { if own == id { set } else { Set::Other } }
        None => Set::Other,
    }
}

/// The set that an id stands for: that of the one instruction that defines it.
fn set_of(definitions: &Definitions, id: u32) -> Set
    ensures { result ≡ set_in definitions.now id }
{
    match definitions.number(id) {
        Some(number) => set_by(definitions.inst(number), id),
        None => Set::Other,
    }
}

/// Whether an id stands for OpenCL.std.
pub fn is_std(definitions: &Definitions, id: u32) -> bool
    ensures { IsTrue result ↔ (set_in definitions.now id ≡ OpenClStd) }
{
    match set_of(definitions, id) {
        Set::OpenClStd => true,
        _ => false,
    }
}

/// The first condition that a call breaks, if it is one of OpenCL.std and breaks one: by its result type, its set, its
/// number there and the operands behind that.
fn failing(
    definitions: &Definitions,
    r: u32,
    set: u32,
    number: u32,
    behind: &[Operand],
) -> Option<Condition>
    ensures { IsFound (BreaksCall definitions.now r set number (plain_operands behind.now)) result }
{
    if is_std(definitions, set) {
        first_failing(definitions, r, behind, conditions_of(number))
    } else {
        None
    }
}

/// The first condition that operands of an OpExtInst break, if they are those of a call of OpenCL.std and break one.
fn failing_call(definitions: &Definitions, operands: &[Operand]) -> Option<Condition>
    ensures { IsFound (Mistypes definitions.now (plain_operands operands.now)) result }
{
    match operands {
        [
            Operand::OfType(r),
            Operand::Result(_),
            Operand::Id(set),
            Operand::Word(number),
            behind @ ..,
        ] => failing(definitions, *r, *set, *number, behind),
        _ => None,
    }
}

/// The first condition that an instruction breaks, if it is a call of OpenCL.std and breaks one.
#[inline(always)]
fn failing_inst(definitions: &Definitions, inst: &Inst<'_>) -> Option<Condition>
    ensures { IsFound (BreaksBy definitions.now (plain_inst inst.now)) result }
{
    if inst.opcode == opcode::EXT_INST {
        failing_call(definitions, inst.operands.as_slice())
    } else {
        None
    }
}

/// The condition by which an instruction breaks Y10: it is a call of OpenCL.std, and this is the first condition of its
/// line of the table that does not hold. None where it does not break it. `number` is that of the instruction, from 0.
///
/// It takes no memory, and its time does not depend on the module.
#[inline(always)]
pub fn mistyping_at(definitions: &Definitions, number: u32) -> Option<Condition>
    requires { number < length definitions.now }
    ensures { MatchOption result (¬ (IsMistyped definitions.now number)) (IsMistypedBy definitions.now number) }
{
    failing_inst(definitions, definitions.inst(number))
}
