//! The lines of single instructions of a module.

ghost use Rattle.std.specs.Prelude.{◌≡◌, ◌<◌, ◌++◌, ◌∷◌, [], ℕ, List, OnOk, IfOk, length, map, take};
ghost use Rattle.std.specs.Prelude.{string_bytes};
ghost use Rattle.std.specs.List.{list_any};
ghost use Rattle.spv_module.specs.Module.{plain_inst, plain_insts};
ghost use Rattle.spv_module.specs.Operand.{PlainInst};
ghost use Rattle.spv_inst.specs.inner.Known.{Knows};
ghost use Rattle.spv_lines.specs.Text.{ShownLines, ended, inst_line};
ghost use Rattle.spv_printer.specs.inner.Printer.{IsReady, KnowsFor, is_number};

use crate::printer::Printer;
use spv_inst::due::Definitions;
use spv_module::{Inst, Module, Operand};
use spv_table::Table;
use std::alloc::{AllocError, Global};

/// Keeps what some instructions tell, in order. Where memory runs out, nothing is said of what is left.
fn add_all(definitions: &mut Definitions, insts: &[Inst<'_>]) -> Result<(), AllocError>
    ensures { (before : List PlainInst) → Knows definitions.old before
        → OnOk result (Knows definitions.new (before ++ map plain_inst insts.now)) }
{
    for inst in insts {
        definitions.add(inst.opcode, inst.operands.as_slice())?;
    }
    Ok(())
}

/// Whether an operand is a number.
fn has_number(operands: &[Operand]) -> bool
    ensures { result ≡ list_any is_number operands.now }
{
    operands
        .iter()
        .any(|operand| matches!(operand, Operand::Number { .. }))
}

/// Makes the printer, which keeps what the instructions before `from` tell, keep what those before `at` tell, where one
/// of the operands is a number; gives before which instruction it keeps all then. Where memory runs out, nothing is
/// said of what is left.
fn prepare<'t>(
    alloc: Global,
    printer: &mut Printer<'t>,
    table: &'t Table,
    insts: &[Inst<'_>],
    operands: &[Operand],
    from: usize,
    at: usize,
) -> Result<usize, AllocError>
    requires ready { IsReady table.now printer.old }
    requires knows { Knows printer.old.definitions (map plain_inst (take from insts.now)) }
    requires within { at < length insts.now }
    ensures enough { OnOk result (KnowsFor printer.new.definitions (map plain_inst (take at insts.now)) operands.now) }
    ensures knows { IfOk result (λ n. Knows printer.new.definitions (map plain_inst (take n insts.now))) }
    ensures ready { OnOk result (IsReady table.now printer.new) }
{
    if !has_number(operands) {
        return Ok(from);
    }
    if from > at {
        *printer = Printer::new(alloc, table)?;
        add_all(&mut printer.definitions, &insts[..at])?;
        return Ok(at);
    }
    add_all(&mut printer.definitions, &insts[from..at])?;
    Ok(at)
}

/// Adds the line of an instruction by its place in a list, without its line feed. The printer keeps what those before
/// `from` tell; gives before which one it keeps what all tell then. Where memory runs out, nothing is said of what is
/// left.
fn push_at<'t>(
    alloc: Global,
    printer: &mut Printer<'t>,
    out: &mut String,
    table: &'t Table,
    insts: &[Inst<'_>],
    from: usize,
    at: usize,
) -> Result<usize, AllocError>
    requires ready { IsReady table.now printer.old }
    requires knows { Knows printer.old.definitions (map plain_inst (take from insts.now)) }
    requires within { at < length insts.now }
    ensures line { (lines : List (List ℕ)) → ShownLines table.now [] (map plain_inst insts.now) lines
        → OnOk result (string_bytes out.new ≡ string_bytes out.old ++ inst_line lines at) }
    ensures knows { IfOk result (λ n. Knows printer.new.definitions (map plain_inst (take n insts.now))) }
    ensures ready { OnOk result (IsReady table.now printer.new) }
{
    let inst = &insts[at];
    let operands = inst.operands.as_slice();
    let known = prepare(alloc, printer, table, insts, operands, from, at)?;
    printer.push_inst(out, table, inst.opcode, operands)?;
    Ok(known)
}

/// Adds the line of an instruction by its place in a list, with its line feed; the line feed alone where the list has
/// no such place. The printer keeps what those before `from` tell; gives before which one it keeps what all tell then.
fn push_chosen<'t>(
    alloc: Global,
    printer: &mut Printer<'t>,
    out: &mut String,
    table: &'t Table,
    insts: &[Inst<'_>],
    from: usize,
    at: usize,
) -> Result<usize, AllocError>
    requires ready { IsReady table.now printer.old }
    requires knows { Knows printer.old.definitions (map plain_inst (take from insts.now)) }
    ensures line { (lines : List (List ℕ)) → ShownLines table.now [] (map plain_inst insts.now) lines
        → IfOk result (λ n. string_bytes out.new ≡ string_bytes out.old ++ (inst_line lines at ++ 10 ∷ [])) }
    ensures knows { IfOk result (λ n. Knows printer.new.definitions (map plain_inst (take n insts.now))) }
    ensures ready { IfOk result (λ n. IsReady table.now printer.new) }
{
    if at >= insts.len() {
        out.push('\n')?;
        return Ok(from);
    }
    let known = push_at(alloc, printer, out, table, insts, from, at)?;
    out.push('\n')?;
    Ok(known)
}

/// The line of an instruction of a module by its number, from 0, as it stands in the text of the whole module, without
/// its line feed. Empty where there is no instruction of that number. Time is linear in its words; where it has a
/// number whose width depends on a type, also in the instructions before it.
///
/// Of a module that words spell, as `decode` makes them, each instruction has such a line.
///
/// An `AllocError` comes only where a growth of memory was refused.
pub fn show_inst(
    alloc: Global,
    table: &Table,
    module: &Module<'_>,
    number: u32,
) -> Result<String, AllocError>
    ensures { (lines : List (List ℕ)) → ShownLines table.now [] (plain_insts «module».now) lines
        → IfOk result (λ t. string_bytes t ≡ inst_line lines number) }
{
    let insts = module.insts.as_slice();
    let at = number as usize;
    let mut out = String::new(alloc);
    if at >= insts.len() {
        return Ok(out);
    }
    let mut printer = Printer::of_few(alloc, table);
    push_at(alloc, &mut printer, &mut out, table, insts, 0, at)?;
    Ok(out)
}

/// The lines of instructions of a module by their numbers, each as `show_inst` gives it, ended by a line feed. Time is
/// linear in the words of these instructions. Where some have a number whose width depends on a type, the instructions
/// before these are gone through too: once, if the numbers stand in order, and anew for each that is less than the one
/// before it.
///
/// An `AllocError` comes only where a growth of memory was refused.
pub fn show_insts(
    alloc: Global,
    table: &Table,
    module: &Module<'_>,
    numbers: &[u32],
) -> Result<String, AllocError>
    ensures { (lines : List (List ℕ)) → ShownLines table.now [] (plain_insts «module».now) lines
        → IfOk result (λ t. string_bytes t ≡ ended (map (inst_line lines) numbers.now)) }
{
    let insts = module.insts.as_slice();
    let mut out = String::new(alloc);
    let mut printer = Printer::new(alloc, table)?;
    let mut known = 0;
    for number in numbers {
        let at = *number as usize;
        known = push_chosen(alloc, &mut printer, &mut out, table, insts, known, at)?;
    }
    Ok(out)
}
