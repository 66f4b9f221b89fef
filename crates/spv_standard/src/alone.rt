//! The first of the rules that single instructions break: O14 to O23.

ghost use Rattle.std.specs.Prelude.{◌≡◌, ◌+◌, ◌<◌, ℕ, None, false, IfOk, length};
ghost use Rattle.spv_table.specs.Table.{Table};
ghost use Rattle.spv_module.specs.declared.fault.Rule.{Rule};
ghost use Rattle.spv_kernel_operands.specs.Broken as operands;
ghost use Rattle.spv_versions.specs.Broken as versions;
ghost use Rattle.spv_versions.specs.Missing.{IsLateAt};
ghost use Rattle.spv_versions.specs.inner.Late.{IsLateBy};
ghost use Rattle.spv_limits.specs.Broken as limits;
ghost use Rattle.spv_limits.specs.Depth.{AreLower};
ghost use Rattle.spv_limits.specs.Past.{IsPast};
ghost use Rattle.spv_limits.specs.inner.Counting.{IsUpTo};
ghost use Rattle.spv_standard.specs.inner.Alone.{Alone, At};
ghost use Rattle.spv_standard.specs.inner.Asked.{AreFit, IsAskedAt};
ghost use Rattle.spv_standard.specs.inner.First.{IsFirstIn};

use crate::asked::{Asked, Notes};
use crate::found::{Found, earlier};
use spv_capabilities::Capabilities;
use spv_kernel_operands::broken_at;
use spv_limits::Counts;
use spv_module::Rule;
use spv_type_forms::Definitions;
use spv_versions::Late;
use std::alloc::{AllocError, Global};

/// The first of O14 to O20 and O23 that the instruction of a number breaks, if they are asked of it.
fn operands_at(
    alloc: Global,
    capabilities: &Capabilities<'_, '_>,
    definitions: &Definitions,
    number: u32,
    is_asked: bool,
) -> Result<Option<Found>, AllocError>
    requires same { capabilities.now.insts ≡ definitions.now }
    requires number { number < length definitions.now }
    ensures { (is_asked ≡ false → (r : Rule) → ¬ (operands.Broken capabilities.now.table definitions.now r number))
        → IfOk result (IsFirstIn (At number (operands.Broken capabilities.now.table definitions.now))) }
{
    if !is_asked {
        return Ok(None);
    }
    match broken_at(alloc, capabilities, definitions, number)? {
        Some(rule) => Ok(Some(Found { rule, inst: number })),
        None => Ok(None),
    }
}

/// O21, if the instruction of a number breaks it and it is asked of it.
fn version_at(late: &Late, definitions: &Definitions, number: u32, is_asked: bool) -> Option<Found>
    requires { number < length definitions.now }
    ensures { (G : Table) (minor : ℕ) → IsLateBy G minor definitions.now late.now
        → (is_asked ≡ false → ¬ (IsLateAt G minor definitions.now number))
        → IsFirstIn (At number (versions.Broken G minor definitions.now)) result }
{
    if is_asked && late.is_late(definitions, number) {
        return Some(Found {
            rule: Rule::O21,
            inst: number,
        });
    }
    None
}

/// O22, if the instruction of a number breaks it and it is asked of it. If it does not, it is counted.
fn limits_at(
    counts: &mut Counts,
    definitions: &Definitions,
    number: u32,
    is_asked: bool,
) -> Result<Option<Found>, AllocError>
    requires lower { AreLower definitions.now }
    requires number { number < length definitions.now }
    requires counted { IsUpTo definitions.now number counts.old }
    ensures first { (is_asked ≡ false → ¬ (IsPast definitions.now number))
        → IfOk result (IsFirstIn (At number (limits.Broken definitions.now))) }
    ensures counted { (is_asked ≡ false → IsUpTo definitions.now (number + 1) counts.old)
        → IfOk result (λ o. o ≡ None → IsUpTo definitions.now (number + 1) counts.new) }
{
    if !is_asked {
        return Ok(None);
    }
    if counts.is_past(definitions, number)? {
        return Ok(Some(Found {
            rule: Rule::O22,
            inst: number,
        }));
    }
    Ok(None)
}

/// The first of these rules that the instruction of a number breaks. If it breaks none, it is counted.
#[inline(never)]
fn found_by_all(
    alloc: Global,
    capabilities: &Capabilities<'_, '_>,
    definitions: &Definitions,
    late: &Late,
    counts: &mut Counts,
    number: u32,
    asked: Asked,
) -> Result<Option<Found>, AllocError>
    requires same { capabilities.now.insts ≡ definitions.now }
    requires lower { AreLower definitions.now }
    requires number { number < length definitions.now }
    requires counted { IsUpTo definitions.now number counts.old }
    ensures { (minor : ℕ) → IsLateBy capabilities.now.table minor definitions.now late.now
        → IsAskedAt capabilities.now.table minor definitions.now number asked
        → IfOk result (λ o. IsFirstIn (At number (Alone capabilities.now.table minor definitions.now)) o
        × (o ≡ None → IsUpTo definitions.now (number + 1) counts.new)) }
{
    let operands = operands_at(alloc, capabilities, definitions, number, asked.operands)?;
    let version = version_at(late, definitions, number, asked.version);
    let limits = limits_at(counts, definitions, number, asked.limits)?;
    if operands.is_none() && version.is_none() && limits.is_none() {
        return Ok(None);
    }
    let found = earlier(operands, version);
    Ok(earlier(found, limits))
}

/// The first of the rules O14 to O23 that is broken, by instruction and then by number. `late` is what the module has
/// too early, and `count` how many instructions there are.
///
/// What there is to ask of an instruction is noted by its opcode, so that of most instructions the operands alone are
/// looked at, or nothing. Time is near-linear in the words of the module. An `AllocError` comes only where a growth of
/// memory was refused.
pub fn first_alone(
    alloc: Global,
    capabilities: &Capabilities<'_, '_>,
    definitions: &Definitions,
    late: &Late,
    count: u32,
) -> Result<Option<Found>, AllocError>
    requires same { capabilities.now.insts ≡ definitions.now }
    requires count { count ≡ length definitions.now }
    requires lower { AreLower definitions.now }
    requires fit { AreFit capabilities.now.table definitions.now }
    requires late { (minor : ℕ) × IsLateBy capabilities.now.table minor definitions.now late.now }
    ensures { (minor : ℕ) → IsLateBy capabilities.now.table minor definitions.now late.now
        → IfOk result (IsFirstIn (Alone capabilities.now.table minor definitions.now)) }
{
    let mut notes = Notes::new();
    let mut counts = Counts::new(alloc);
    for number in 0..count {
        let asked = notes.asked_at(late, definitions.inst(number));
        if asked.is_nothing() {
            continue;
        }
        if let Some(found) = found_by_all(
            alloc,
            capabilities,
            definitions,
            late,
            &mut counts,
            number,
            asked,
        )? {
            return Ok(Some(found));
        }
    }
    Ok(None)
}
