//! The edges between the blocks of a function.
ghost use Rattle.std.specs.Prelude.{◌≡◌, ◌≤◌, ◌++◌, ◌∷◌, [], Option, Some, IsSome, MatchOption, OnOk, decimal, drop};
ghost use Rattle.std.specs.Prelude.{flat_map, length, string_bytes};
ghost use Rattle.spv_module.specs.Module.{plain_inst, plain_operands};
ghost use Rattle.spv_pictures.specs.Blocks.{branch_edges, case_edges, conditional_edges, edge_text, edge_to, edges_of};
ghost use Rattle.spv_pictures.specs.Blocks.{step_mark, switch_edges, word_mark};
ghost use Rattle.spv_pictures.specs.inner.Marks.{AreMarks};

use crate::label::push_node_name;
use crate::marks::Marks;
use itoa::Buffer;
use spv_module::{Inst, Operand, opcode};
use std::alloc::AllocError;

/// Adds the word at an edge, if it has one.
fn push_word(out: &mut String, word: &str) -> Result<(), AllocError>
    ensures { OnOk result (string_bytes out.new ≡ string_bytes out.old ++ word_mark word.now) }
{
    if word.is_empty() {
        return Ok(());
    }
    out.push_str(" [label=\"")?;
    out.push_str(word)?;
    out.push_str("\"]")
}

/// Adds what marks an edge that the fault's walk takes.
fn push_step(out: &mut String, taken: bool) -> Result<(), AllocError>
    ensures { OnOk result (string_bytes out.new ≡ string_bytes out.old ++ step_mark taken) }
{
    if taken {
        return out.push_str(" [color=red fontcolor=red]");
    }
    Ok(())
}

/// Adds an edge.
fn push_edge(
    out: &mut String,
    marks: &Marks<'_>,
    from: Option<u32>,
    to: u32,
    word: &str,
) -> Result<(), AllocError>
    requires { AreMarks marks.now }
    ensures { OnOk result (string_bytes out.new
        ≡ string_bytes out.old ++ edge_text marks.now.finding from (edge_to to word.now)) }
{
    out.push_str("  ")?;
    push_node_name(out, from)?;
    out.push_str(" -> ")?;
    push_node_name(out, Some(to))?;
    push_word(out, word)?;
    push_step(out, marks.goes(from, to))?;
    out.push_str(";\n")
}

/// Adds the edge of an OpBranch.
fn push_branch(
    out: &mut String,
    marks: &Marks<'_>,
    from: Option<u32>,
    operands: &[Operand<'_>],
) -> Result<(), AllocError>
    requires { AreMarks marks.now }
    ensures { OnOk result (string_bytes out.new ≡ string_bytes out.old
        ++ flat_map (edge_text marks.now.finding from) (branch_edges (plain_operands operands.now))) }
{
    match operands {
        [Operand::Id(to), ..] => push_edge(out, marks, from, *to, ""),
        _ => Ok(()),
    }
}

/// Adds the edges of an OpBranchConditional.
fn push_conditional(
    out: &mut String,
    marks: &Marks<'_>,
    from: Option<u32>,
    operands: &[Operand<'_>],
) -> Result<(), AllocError>
    requires { AreMarks marks.now }
    ensures { OnOk result (string_bytes out.new ≡ string_bytes out.old
        ++ flat_map (edge_text marks.now.finding from) (conditional_edges (plain_operands operands.now))) }
{
    match operands {
        [Operand::Id(_), Operand::Id(yes), Operand::Id(no), ..] => {
            push_edge(out, marks, from, *yes, "true")?;
            push_edge(out, marks, from, *no, "false")
        }
        _ => Ok(()),
    }
}

/// Adds the edge of a case of an OpSwitch.
fn push_case(
    out: &mut String,
    marks: &Marks<'_>,
    from: Option<u32>,
    number: u64,
    to: u32,
) -> Result<(), AllocError>
    requires { AreMarks marks.now }
    ensures { OnOk result (string_bytes out.new
        ≡ string_bytes out.old ++ edge_text marks.now.finding from (edge_to to (decimal number))) }
{
    let mut buffer = Buffer::new();
    push_edge(out, marks, from, to, buffer.format(number))
}

/// The first case of an OpSwitch, its number and where it leads, if there is one.
fn first_case(operands: &[Operand<'_>]) -> Option<(u64, u32)>
    ensures within { IsSome result → 2 ≤ length operands.now }
    ensures first { MatchOption result (case_edges (plain_operands operands.now) ≡ [])
        (λ p. case_edges (plain_operands operands.now)
        ≡ edge_to p.1 (decimal p.0) ∷ case_edges (plain_operands (drop 2 operands.now))) }
{
    match operands {
        [Operand::Number { low, high, .. }, Operand::Id(to), ..] => {
            Some((u64::from(*low) + 4_294_967_296 * u64::from(*high), *to))
        }
        _ => None,
    }
}

/// Adds the edges of the cases of an OpSwitch.
fn push_cases(
    out: &mut String,
    marks: &Marks<'_>,
    from: Option<u32>,
    operands: &[Operand<'_>],
) -> Result<(), AllocError>
    requires { AreMarks marks.now }
    ensures { OnOk result (string_bytes out.new ≡ string_bytes out.old
        ++ flat_map (edge_text marks.now.finding from) (case_edges (plain_operands operands.now))) }
{
    let mut rest = operands;
    while let Some((number, to)) = first_case(rest) {
        push_case(out, marks, from, number, to)?;
        rest = &rest[2..];
    }
    Ok(())
}

/// Adds the edges of an OpSwitch.
fn push_switch(
    out: &mut String,
    marks: &Marks<'_>,
    from: Option<u32>,
    operands: &[Operand<'_>],
) -> Result<(), AllocError>
    requires { AreMarks marks.now }
    ensures { OnOk result (string_bytes out.new ≡ string_bytes out.old
        ++ flat_map (edge_text marks.now.finding from) (switch_edges (plain_operands operands.now))) }
{
    match operands {
        [Operand::Id(_), Operand::Id(to), cases @ ..] => {
            push_edge(out, marks, from, *to, "default")?;
            push_cases(out, marks, from, cases)
        }
        _ => Ok(()),
    }
}

/// Adds the edges of an instruction of a block.
pub fn push_edges(
    out: &mut String,
    marks: &Marks<'_>,
    from: Option<u32>,
    inst: &Inst<'_>,
) -> Result<(), AllocError>
    requires { AreMarks marks.now }
    ensures { OnOk result (string_bytes out.new ≡ string_bytes out.old
        ++ flat_map (edge_text marks.now.finding from) (edges_of (plain_inst inst.now))) }
{
    let operands = inst.operands.as_slice();
    match inst.opcode {
        opcode::BRANCH => push_branch(out, marks, from, operands),
        opcode::BRANCH_CONDITIONAL => push_conditional(out, marks, from, operands),
        opcode::SWITCH => push_switch(out, marks, from, operands),
        _ => Ok(()),
    }
}
