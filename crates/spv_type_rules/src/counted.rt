ghost use Rattle.std.specs.Prelude.{◌≡◌, ◌<◌, ◌+◌, ℕ, List, Some, slice_get, nat_eq};
ghost use Rattle.std.specs.Prelude.{if◌then◌else◌};
ghost use Rattle.spv_module.specs.declared.opcode.TheConstants as opcode;
ghost use Rattle.spv_module.specs.Operand.{PlainInst};
ghost use Rattle.spv_module.specs.Module.{plain_inst};
ghost use Rattle.spv_type_rules.specs.inner.Counted.{AreCounted};

use spv_module::{Inst, opcode};

/// How many parameters stand after the last OpFunction before the instruction after one of an opcode.
#[inline(always)]
fn count_after(number: u16, count: u32) -> u32
    requires { count < 4294967295 }
    ensures { result ≡ (if nat_eq number opcode.FUNCTION then 0
        else (if nat_eq number opcode.FUNCTION_PARAMETER then count + 1 else count)) }
{
    if number == opcode::FUNCTION {
        0
    } else if number == opcode::FUNCTION_PARAMETER {
        count + 1
    } else {
        count
    }
}

/// How many parameters stand after the last OpFunction before the next instruction, by how many before this one.
#[inline(always)]
pub fn next_count(inst: &Inst<'_>, count: u32) -> u32
    requires { count < 4294967295 }
    ensures { (is : List PlainInst) (n : ℕ) → slice_get is n ≡ Some (plain_inst inst.now)
        → AreCounted is n count → AreCounted is (n + 1) result }
{
    count_after(inst.opcode, count)
}
