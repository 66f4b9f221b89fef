//! The first calls of OpenCL.std that break Y9 and Y10, by one pass over the instructions.

ghost use Rattle.std.specs.Prelude.{◌≡◌, ◌<◌, ◌+◌, ◌↔◌, IsTrue, MatchOption, Some, None, length, slice_get};
ghost use Rattle.spv_module.specs.Module.{plain_inst, plain_operands};
ghost use Rattle.spv_module.specs.declared.opcode.TheConstants as opcode;
ghost use Rattle.spv_extended.specs.declared.set.Set.TheVariants.{OpenClStd};
ghost use Rattle.spv_extended.specs.Miscalled.{IsFirstMiscalled, IsMiscalled, is_miscall, misses};
ghost use Rattle.spv_extended.specs.Sets.{set_in};
ghost use Rattle.spv_std_types.specs.Mistyped.{BreaksCall, IsFirstMistyped, Mistypes};
ghost use Rattle.spv_std_types.specs.inner.Looking.{FindsStd, IsFirstUpTo, IsPassed, Tells};

use crate::condition::Condition;
use crate::first::first_failing;
use crate::mistyped::is_std;
use crate::table::conditions_of;
use spv_extended::{Set, signature_of};
use spv_module::{Inst, Operand, opcode};
use spv_type_forms::Definitions;

/// The first calls of OpenCL.std that break Y9 and Y10, by the numbers of the instructions, from 0.
#[derive(Clone, Copy)]
pub struct Miscalls {
    /// The first instruction that breaks Y9.
    pub miscalled: Option<u32>,
    /// The first one that breaks Y10. It says nothing where an instruction breaks Y9.
    pub mistyped: Option<u32>,
}

/// What a look at the operands of an OpExtInst tells.
#[derive(Clone, Copy)]
enum Look {
    /// They call no instruction of OpenCL.std.
    Other,
    /// They call what OpenCL.std does not have.
    Missing,
    /// They call an instruction of OpenCL.std, for which this id stands, and break this condition of it, or none.
    Std(u32, Option<Condition>),
}

/// What was found in the instructions that a pass has looked at, where none of them breaks Y9.
#[derive(Clone, Copy)]
struct Pass {
    /// An id that stands for OpenCL.std, so that its name is compared once.
    known: Option<u32>,
    /// The first instruction that breaks Y10.
    mistyped: Option<u32>,
}

/// Whether an id stands for OpenCL.std, where one may be known that does.
#[inline(always)]
fn is_known(definitions: &Definitions, known: Option<u32>, id: u32) -> bool
    requires { FindsStd definitions.now known }
    ensures { IsTrue result ↔ (set_in definitions.now id ≡ OpenClStd) }
{
    match known {
        Some(own) => own == id || is_std(definitions, id),
        None => is_std(definitions, id),
    }
}

/// What a call tells: by its result type, its set, its number there and the operands behind that.
fn look_behind(
    definitions: &Definitions,
    known: Option<u32>,
    r: u32,
    set: u32,
    number: u32,
    behind: &[Operand],
) -> Look
    requires { FindsStd definitions.now known }
    ensures { Tells definitions.now (misses (set_in definitions.now set) number (length (plain_operands behind.now)))
        (BreaksCall definitions.now r set number (plain_operands behind.now)) result }
{
    if !is_known(definitions, known, set) {
        return Look::Other;
    }
    if !signature_of(Set::OpenClStd, number).takes(behind.len()) {
        return Look::Missing;
    }
    Look::Std(
        set,
        first_failing(definitions, r, behind, conditions_of(number)),
    )
}

/// What the operands of an OpExtInst tell.
fn look_at(definitions: &Definitions, known: Option<u32>, operands: &[Operand]) -> Look
    requires { FindsStd definitions.now known }
    ensures { Tells definitions.now (is_miscall (set_in definitions.now) (plain_operands operands.now))
        (Mistypes definitions.now (plain_operands operands.now)) result }
{
    match operands {
        [
            Operand::OfType(r),
            Operand::Result(_),
            Operand::Id(set),
            Operand::Word(number),
            behind @ ..,
        ] => look_behind(definitions, known, *r, *set, *number, behind),
        _ => Look::Other,
    }
}

/// The first instruction that breaks Y10, where the one of this number breaks this condition, or none.
fn first_of(mistyped: Option<u32>, number: u32, condition: Option<Condition>) -> Option<u32>
    ensures first { MatchOption mistyped (Unit {0}) (λ m. result ≡ Some m) }
    ensures next { mistyped ≡ None → MatchOption condition (result ≡ None) (λ _. result ≡ Some number) }
{
    match (mistyped, condition) {
        (None, Some(_)) => Some(number),
        _ => mistyped,
    }
}

/// What was found where a pass has looked at one more instruction, which is an OpExtInst. None where it breaks Y9.
fn pass_over(definitions: &Definitions, pass: Pass, number: u32, inst: &Inst<'_>) -> Option<Pass>
    requires passed { IsPassed definitions.now number pass }
    requires there { slice_get definitions.now number ≡ Some (plain_inst inst.now) }
    requires called { (plain_inst inst.now).opcode ≡ opcode.EXT_INST }
    ensures { MatchOption result (IsMiscalled definitions.now number) (IsPassed definitions.now (number + 1)) }
{
    match look_at(definitions, pass.known, inst.operands.as_slice()) {
        Look::Other => Some(pass),
        Look::Missing => None,
        Look::Std(set, condition) => Some(Pass {
            known: Some(set),
            mistyped: first_of(pass.mistyped, number, condition),
        }),
    }
}

/// The first instruction that breaks Y9: a call of OpenCL.std whose number is none of the set's, or that has fewer or
/// more operands behind it than the set's instruction takes (own); and where there is none, the first one that breaks
/// Y10: such a call whose result type, the type of an operand or a number among the operands is not what the
/// instruction of the set asks (own; the OpenCL Extended Instruction Set Specification). `count` is how many
/// instructions there are.
///
/// Time is linear in the number of instructions. It takes no memory.
pub fn first_miscalls(definitions: &Definitions, count: u32) -> Miscalls
    requires { count ≡ length definitions.now }
    ensures miscalled { IsFirstMiscalled definitions.now result.miscalled }
    ensures mistyped { result.miscalled ≡ None → IsFirstMistyped definitions.now result.mistyped }
{
    let mut pass = Pass {
        known: None,
        mistyped: None,
    };
    for number in 0..count {
        let inst = definitions.inst(number);
        if inst.opcode != opcode::EXT_INST {
            continue;
        }
        let Some(next) = pass_over(definitions, pass, number, inst) else {
            return Miscalls {
                miscalled: Some(number),
                mistyped: None,
            };
        };
        pass = next;
    }
    Miscalls {
        miscalled: None,
        mistyped: pass.mistyped,
    }
}
