//! What is gathered of a module's instructions.

ghost use Rattle.std.specs.Prelude.{◌≡◌, ◌+◌, ◌&&◌, ℕ, List, Option, Some, IfOk, OnOk, length, map};
ghost use Rattle.std.specs.Prelude.{nat_eq, slice_get};
ghost use Rattle.spv_module.specs.Operand.{PlainInst};
ghost use Rattle.spv_module.specs.Module.{plain_inst, plain_operands};
ghost use Rattle.spv_ids.specs.Outcome.{IsDefinitionOf, definition_in};
ghost use Rattle.spv_capabilities.specs.Capable as capable;
ghost use Rattle.spv_capabilities.specs.Entry as spec;
ghost use Rattle.spv_capabilities.specs.inner.Survey.{AreGathered, AreMarked};

use spv_ids::Ids;
use spv_module::{Inst, Operand, opcode};
use std::alloc::{AllocError, Global};

/// The number of the decoration LinkageAttributes.
const LINKAGE_ATTRIBUTES: u32 = 41;

/// The number of the linkage type Import.
const IMPORT: u32 = 1;

/// What some instructions at the front of a module declare and name.
#[derive(Drop)]
pub struct Gathered {
    /// The declared capabilities, in order.
    pub declared: Vec<u32>,
    /// Whether there is an OpEntryPoint.
    pub entry: bool,
    /// Of each instruction of the module whether it defines a function that is called,
    pub called: Vec<bool>,
    /// that is the function of an entry point,
    pub entered: Vec<bool>,
    /// or that is imported.
    pub imported: Vec<bool>,
}

/// The capability that the operands of an OpCapability declare.
fn first_value(operands: &[Operand<'_>]) -> Option<u32>
    ensures { result ≡ capable.first_value (plain_operands operands.now) }
{
    match operands {
        [Operand::Value { value, .. }, ..] => Some(*value),
        _ => None,
    }
}

/// The function that the operands of an OpFunctionCall call.
fn third_id(operands: &[Operand<'_>]) -> Option<u32>
    ensures { result ≡ spec.third_id (plain_operands operands.now) }
{
    match operands {
        [Operand::OfType(_), Operand::Result(_), Operand::Id(f), ..] => Some(*f),
        _ => None,
    }
}

/// The function that the operands of an OpEntryPoint name.
fn second_id(operands: &[Operand<'_>]) -> Option<u32>
    ensures { result ≡ spec.second_id (plain_operands operands.now) }
{
    match operands {
        [Operand::Value { .. }, Operand::Id(f), ..] => Some(*f),
        _ => None,
    }
}

/// Whether a decoration imports, where the kind LinkageType has that number.
fn is_import(linkage: u32, decoration: u32, kind: u32, value: u32) -> bool
    ensures { result ≡ (nat_eq decoration 41 && nat_eq kind linkage && nat_eq value 1) }
{
    decoration == LINKAGE_ATTRIBUTES && kind == linkage && value == IMPORT
}

/// What the operands of an OpDecorate import, where the kind LinkageType has that number.
pub fn linked_id(linkage: Option<u32>, operands: &[Operand<'_>]) -> Option<u32>
    ensures { result ≡ spec.linked_id linkage (plain_operands operands.now) }
{
    let linkage = linkage?;
    match operands {
        [
            Operand::Id(f),
            Operand::Value {
                value: decoration,
                ..
            },
            Operand::Text(_),
            Operand::Value { kind, value },
            ..
        ] => if is_import(linkage, *decoration, *kind, *value) {
            Some(*f)
        } else {
            None
        },
        _ => None,
    }
}

/// Marks what defines an id, if there is an id.
fn mark(marks: &mut Vec<bool>, ids: &Ids, id: Option<u32>)
    ensures { (names : PlainInst → Option ℕ) (is : List PlainInst) (to : ℕ) (i : PlainInst)
        → ((x : ℕ) → IsDefinitionOf is x (definition_in ids.now x)) → slice_get is to ≡ Some i
        → names i ≡ id
        → AreMarked names is to marks.old.items → AreMarked names is (to + 1) marks.new.items }
{
    let Some(id) = id else {
        return;
    };
    let Some(inst) = ids.definition(id) else {
        return;
    };
    let place = inst as usize;
    if place < marks.len() {
        marks[place] = true;
    }
}

impl Gathered {
    /// Nothing is gathered yet of so many instructions.
    fn new(alloc: Global, count: usize) -> Result<Gathered, AllocError>
        ensures { IfOk result (λ g. (linkage : Option ℕ) (is : List PlainInst) → length is ≡ count
            → AreGathered linkage is 0 g) }
    {
        Ok(Gathered {
            declared: Vec::new(alloc),
            entry: false,
            called: vec![in alloc; false; count]?,
            entered: vec![in alloc; false; count]?,
            imported: vec![in alloc; false; count]?,
        })
    }

    /// Gathers of one instruction more, where the kind LinkageType has that number.
    fn add(&mut self, ids: &Ids, linkage: Option<u32>, inst: &Inst<'_>) -> Result<(), AllocError>
        ensures { OnOk result ((is : List PlainInst) (to : ℕ)
            → ((x : ℕ) → IsDefinitionOf is x (definition_in ids.now x))
            → slice_get is to ≡ Some (plain_inst inst.now)
            → AreGathered linkage is to self.old → AreGathered linkage is (to + 1) self.new) }
    {
        match inst.opcode {
            opcode::CAPABILITY => if let Some(capability) = first_value(inst.operands.as_slice()) {
                self.declared.push(capability)?;
            },
            opcode::ENTRY_POINT => {
                self.entry = true;
                mark(&mut self.entered, ids, second_id(inst.operands.as_slice()));
            }
            opcode::FUNCTION_CALL => mark(
                &mut self.called,
                ids,
                third_id(inst.operands.as_slice()),
            ),
            opcode::DECORATE => mark(
                &mut self.imported,
                ids,
                linked_id(linkage, inst.operands.as_slice()),
            ),
            _ => {}
        }
        Ok(())
    }
}

/// Gathers of a module's instructions, where the kind LinkageType has that number.
///
/// An `AllocError` comes only where a growth of memory was refused.
pub fn gather(
    alloc: Global,
    insts: &[Inst<'_>],
    ids: &Ids,
    linkage: Option<u32>,
) -> Result<Gathered, AllocError>
    requires { (x : ℕ) → IsDefinitionOf (map plain_inst insts.now) x (definition_in ids.now x) }
    ensures { IfOk result (λ g. AreGathered linkage (map plain_inst insts.now) (length (map plain_inst insts.now)) g) }
{
    let mut gathered = Gathered::new(alloc, insts.len())?;
    for inst in insts {
        gathered.add(ids, linkage, inst)?;
    }
    Ok(gathered)
}
