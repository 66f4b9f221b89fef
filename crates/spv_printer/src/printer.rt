//! Lines of instructions, one after another.

ghost use Rattle.std.specs.Prelude.{◌≡◌, ◌++◌, ◌∷◌, [], ℕ, List, Option, OnOk, IfOk, map};
ghost use Rattle.std.specs.Prelude.{string_bytes};
ghost use Rattle.spv_table.specs.Table.{entry_of};
ghost use Rattle.spv_inst.specs.Flat.{due};
ghost use Rattle.spv_inst.specs.inner.Known.{Knows};
ghost use Rattle.spv_inst.specs.inner.Pending.{items_of};
ghost use Rattle.spv_module.specs.Module.{plain_operands};
ghost use Rattle.spv_module.specs.Operand.{PlainInst, start};
ghost use Rattle.spv_lines.specs.Line.{IsShownLine, shown_result};
ghost use Rattle.spv_lines.specs.Operand.{Shown};
ghost use Rattle.spv_lines.specs.Written.{Written};
ghost use Rattle.spv_printer.specs.inner.Printer.{IsReady, KnowsFor};

use crate::name::push_name;
use crate::names::Names;
use crate::number::push_marked;
use crate::operand::push_piece;
use spv_inst::due::{Definitions, Form, Known, Pending, known_after};
use spv_module::{Operand, result_in};
use spv_table::{PatternRef, Table};
use std::alloc::{AllocError, Global};

/// What is kept from one instruction of a module to the next.
#[derive(Drop)]
pub struct Printer<'t> {
    /// The form of each kind.
    pub forms: &'t [Form],
    /// What the instructions so far tell of ids.
    pub definitions: Definitions,
    pub names: Names,
    /// What is due in an instruction, while it is read or shown.
    pub pending: Pending<'t>,
}

/// Adds a result and ` = `, if there is a result. Where memory runs out, nothing is said of what is left.
fn push_result(out: &mut String, id: Option<u32>) -> Result<(), AllocError>
    ensures { OnOk result (string_bytes out.new ≡ string_bytes out.old ++ shown_result id) }
{
    let Some(id) = id else {
        return Ok(());
    };
    push_marked(out, '%', id)?;
    out.push_str(" = ")
}

impl<'t> Printer<'t> {
    /// Before the first instruction.
    pub fn new(alloc: Global, table: &'t Table) -> Result<Printer<'t>, AllocError>
        ensures ready { IfOk result (λ p. IsReady table.now p) }
        ensures knows { IfOk result (λ p. Knows p.definitions []) }
    {
        Ok(Printer {
            forms: table.forms(),
            definitions: Definitions::new(alloc),
            names: Names::new(alloc)?,
            pending: Pending::new(alloc),
        })
    }

    /// Before the first instruction, where a few are to be shown.
    pub fn of_few(alloc: Global, table: &'t Table) -> Printer<'t>
        ensures ready { IsReady table.now result }
        ensures knows { Knows result.definitions [] }
    {
        Printer {
            forms: table.forms(),
            definitions: Definitions::new(alloc),
            names: Names::of_few(alloc),
            pending: Pending::new(alloc),
        }
    }

    /// Adds the operands of an instruction by its pattern, each after a space, without the result, which stands in
    /// front. Where no words spell the operands, or memory runs out, nothing is said of what is left.
    fn push_operands(
        &mut self,
        out: &mut String,
        table: &'t Table,
        pattern: &PatternRef<'t>,
        opcode: u16,
        operands: &[Operand],
    ) -> Result<(), AllocError>
        requires ready { IsReady table.now self.old }
        ensures text { (before : List PlainInst) (r : Option ℕ) (us t : List ℕ)
            → KnowsFor self.old.definitions before operands.now
            → Written (Shown table.now) table.now r (start before opcode) (map due (items_of pattern.now))
            (plain_operands operands.now) us t
            → OnOk result (string_bytes out.new ≡ string_bytes out.old ++ t) }
        ensures ready { IsReady table.now self.new }
        ensures same { self.new.definitions ≡ self.old.definitions }
    {
        self.pending.start(pattern);
        let mut known = Known::new(opcode);
        let mut has_result = false;
        for (number, operand) in operands.iter().enumerate() {
            let next = self.pending.next_leaf(table, self.forms, true)?;
            let Some(asked) = next else {
                return Ok(());
            };
            has_result = push_piece(
                out,
                table,
                &self.definitions,
                &mut self.names,
                known,
                has_result,
                asked,
                operand,
            )?;
            self.pending.open(table, operand)?;
            known = known_after(known, &operands[..number], operand);
        }
        Ok(())
    }

    /// Adds the line of an instruction, without its line feed, by its opcode and operands. Where no words spell it,
    /// nothing is said of what is added.
    ///
    /// An `AllocError` comes only where a growth of memory was refused, and then nothing is said of what is left.
    #[inline(always)]
    pub fn push_inst(
        &mut self,
        out: &mut String,
        table: &'t Table,
        opcode: u16,
        operands: &[Operand],
    ) -> Result<(), AllocError>
        requires ready { IsReady table.now self.old }
        ensures line { (before : List PlainInst) (further line : List ℕ)
            → KnowsFor self.old.definitions before operands.now
            → IsShownLine table.now before (record { opcode = opcode; operands = plain_operands operands.now })
            further line
            → OnOk result (string_bytes out.new ≡ string_bytes out.old ++ line) }
        ensures ready { IsReady table.now self.new }
        ensures same { self.new.definitions ≡ self.old.definitions }
    {
        let Some(entry) = table.entry(opcode) else {
            return Ok(());
        };
        push_result(out, result_in(operands))?;
        push_name(out, table, &mut self.names, opcode, &entry)?;
        self.push_operands(out, table, entry.operands(), opcode, operands)
    }

    /// Adds the line of an instruction, with its line feed, by its opcode and operands, and keeps what the instruction
    /// tells. Where no words spell it, nothing is said of what is added.
    ///
    /// An `AllocError` comes only where a growth of memory was refused, and then nothing is said of what is left.
    pub fn push_line(
        &mut self,
        out: &mut String,
        table: &'t Table,
        opcode: u16,
        operands: &[Operand],
    ) -> Result<(), AllocError>
        requires ready { IsReady table.now self.old }
        ensures line { (before : List PlainInst) (further line : List ℕ) → Knows self.old.definitions before
            → IsShownLine table.now before (record { opcode = opcode; operands = plain_operands operands.now })
            further line
            → OnOk result (string_bytes out.new ≡ string_bytes out.old ++ (line ++ 10 ∷ [])) }
        ensures knows { OnOk result ((before : List PlainInst) → Knows self.old.definitions before
            → Knows self.new.definitions
            (before ++ record { opcode = opcode; operands = plain_operands operands.now } ∷ [])) }
        ensures ready { IsReady table.now self.new }
    {
        self.push_inst(out, table, opcode, operands)?;
        out.push('\n')?;
        self.definitions.add(opcode, operands)
    }
}
