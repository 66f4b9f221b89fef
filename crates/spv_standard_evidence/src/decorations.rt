//! What shows that one of the rules O8 to O11 is broken: what speaks against a decoration, or members of a struct.

ghost use Rattle.std.specs.Prelude.{◌≡◌, ℕ, IfOk, length};
ghost use Rattle.spv_table.specs.Table as tables;
ghost use Rattle.spv_module.specs.declared.fault.Rule.TheVariants as rules;
ghost use Rattle.spv_declarations.specs.Broken.{Broken};
ghost use Rattle.spv_declarations.specs.Decorated.{IsHalfBuiltIn, IsInitialized, IsLinkedEntry, IsSecond};
ghost use Rattle.spv_standard_evidence.specs.Declarations.{IsDecorating, IsEvidence};

use spv_declarations::{Mixture, half_built_in, linking_entry, other_inst, outside_inst};
use spv_evidence::Evidence;
use spv_module::Rule;
use spv_table::Table;
use spv_type_forms::Definitions;
use std::alloc::{AllocError, Global};

/// O8: the first instruction by which the id has the other decoration.
fn second_evidence(
    alloc: Global,
    definitions: &Definitions,
    total: u32,
    number: u32,
) -> Result<Evidence, AllocError>
    requires total { total ≡ length definitions.now }
    requires broken { IsSecond definitions.now number }
    ensures { (G : tables.Table) → IfOk result (IsEvidence G definitions.now rules.O8 number) }
{
    let inst = other_inst(alloc, definitions, total, number)?;
    Ok(Evidence::Earlier { inst })
}

/// O9: the first OpEntryPoint of the function.
fn linked_evidence(
    alloc: Global,
    definitions: &Definitions,
    total: u32,
    number: u32,
) -> Result<Evidence, AllocError>
    requires total { total ≡ length definitions.now }
    requires broken { IsLinkedEntry definitions.now number }
    ensures { (G : tables.Table) → IfOk result (IsEvidence G definitions.now rules.O9 number) }
{
    let inst = linking_entry(alloc, definitions, total, number)?;
    Ok(Evidence::Earlier { inst })
}

/// O10: the storage class, or the first instruction that imports the variable.
fn initialized_evidence(
    alloc: Global,
    table: &Table,
    definitions: &Definitions,
    total: u32,
    number: u32,
) -> Result<Evidence, AllocError>
    requires total { total ≡ length definitions.now }
    requires broken { IsInitialized table.now definitions.now number }
    ensures { IfOk result (IsEvidence table.now definitions.now rules.O10 number) }
{
    match outside_inst(alloc, table, definitions, total, number)? {
        Some(inst) => Ok(Evidence::Earlier { inst }),
        None => Ok(Evidence::Operand { operand: 2 }),
    }
}

/// O11: a member that has BuiltIn and one that has not, or one that is a struct with such a member.
fn half_evidence(
    alloc: Global,
    definitions: &Definitions,
    total: u32,
    number: u32,
) -> Result<Evidence, AllocError>
    requires total { total ≡ length definitions.now }
    requires broken { IsHalfBuiltIn definitions.now number }
    ensures { (G : tables.Table) → IfOk result (IsEvidence G definitions.now rules.O11 number) }
{
    match half_built_in(alloc, definitions, total, number)? {
        Mixture::Members { built_in, other } => Ok(Evidence::Pair {
            first: built_in,
            second: other,
        }),
        Mixture::Within { operand } => Ok(Evidence::Operand { operand }),
    }
}

/// What shows that one of the rules O8 to O11 is broken at the instruction of a number, from 0. `total` is how many
/// instructions there are.
///
/// Time is near-linear in their words. An `AllocError` comes only where a growth of memory was refused.
pub fn decoration_evidence(
    alloc: Global,
    table: &Table,
    definitions: &Definitions,
    total: u32,
    rule: Rule,
    inst: u32,
) -> Result<Evidence, AllocError>
    requires total { total ≡ length definitions.now }
    requires rule { IsDecorating rule }
    requires broken { Broken table.now definitions.now rule inst }
    ensures { IfOk result (IsEvidence table.now definitions.now rule inst) }
{
    match rule {
        Rule::O8 => second_evidence(alloc, definitions, total, inst),
        Rule::O9 => linked_evidence(alloc, definitions, total, inst),
        Rule::O10 => initialized_evidence(alloc, table, definitions, total, inst),
        _ => half_evidence(alloc, definitions, total, inst),
    }
}
