//! What shows that an instruction calls what OpenCL.std does not have.

pub mod laws;

ghost use Rattle.std.specs.Prelude.{◌≡◌, ◌<◌, IfOk};
ghost use Rattle.spv_module.specs.Module.{plain_insts};
ghost use Rattle.spv_module.specs.declared.fault.Rule.TheVariants as rule;
ghost use Rattle.spv_extended.specs.Miscalled.{IsMiscalled};
ghost use Rattle.spv_form_evidence.specs.extended.Evidence.{IsEvidence, least_with, most_with};

use spv_evidence::Evidence;
use spv_extended::{More, Set, Signature, call_at, signature_of};
use spv_module::Module;
use std::alloc::{AllocError, Global};

/// How many operands an instruction takes at least, if there is one.
fn least_of(signature: Signature) -> Option<u32>
    ensures { result ≡ least_with signature.more signature.least }
{
    match signature.more {
        More::Unknown => None,
        _ => Some(signature.least),
    }
}

/// How many it takes at most, if it does not take any number.
fn most_of(signature: Signature) -> Option<u32>
    requires { signature.least < 16 }
    ensures { result ≡ most_with signature.more signature.least }
{
    match signature.more {
        More::Nothing => Some(signature.least),
        More::One => Some(signature.least + 1),
        More::Any => None,
        More::Unknown => None,
    }
}

/// What shows that Y9 is broken at the instruction of a number, from 0: the number of the extended instruction in
/// OpenCL.std, how many operands stand behind it, and how many that instruction takes at least and at most. There is no
/// least where the set has no instruction of that number, and no most there, or where it takes any number.
///
/// Time is linear in the number of instructions.
///
/// The error comes only where a growth of memory was refused.
pub fn extended_evidence(
    alloc: Global,
    module: &Module<'_>,
    inst: u32,
) -> Result<Evidence, AllocError>
    requires broken { IsMiscalled (plain_insts «module».now) inst }
    ensures { IfOk result (λ e. IsEvidence (plain_insts «module».now) rule.Y9 inst e) }
{
    let Some(call) = call_at(alloc, module, inst)? else {
        unreachable!();
    };
    let signature = signature_of(Set::OpenClStd, call.number);
    Ok(Evidence::Miscalled {
        number: call.number,
        operands: call.operands,
        least: least_of(signature),
        most: most_of(signature),
    })
}
