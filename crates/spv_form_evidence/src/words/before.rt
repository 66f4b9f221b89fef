//! The instructions before one.

ghost use Rattle.std.specs.Prelude.{◌≡◌, ℕ, drop, map, IfOk};
ghost use Rattle.spv_table.specs.Table.{IsWhole};
ghost use Rattle.spv_module.specs.declared.fault.Rule.{Rule};
ghost use Rattle.spv_module.specs.Malformed.{IsMalformedAt};
ghost use Rattle.spv_table.specs.inner.Form.{form_of};
ghost use Rattle.spv_form_evidence.specs.words.inner.Before.{IsBefore};

use spv_inst::due::{Definitions, Form, Pending, Scene, read_apart};
use spv_module::Stop;
use spv_table::{Memory, Table};
use spv_words::Image;
use std::alloc::Global;

/// Where an instruction begins, and what those before it tell.
#[derive(Drop)]
pub struct Before {
    /// What the instructions before tell of ids.
    pub definitions: Definitions,
    /// The number of its first word in the module.
    pub at: u32,
}

/// Reads the instructions before the malformed one, whose number is given.
///
/// `Memory` comes only where a growth of memory was refused.
pub fn read_before(
    alloc: Global,
    table: &Table,
    forms: &[Form],
    image: &Image,
    inst: u32,
) -> Result<Before, Memory>
    requires forms { forms.now ≡ map form_of table.now.kinds }
    requires whole { IsWhole table.now }
    requires dead { (rule : Rule) × (word : ℕ) × IsMalformedAt table.now (drop 5 image.now) rule inst word }
    ensures { IfOk result (λ b. IsBefore table.now image.now inst b.at b.definitions) }
{
    let mut definitions = Definitions::new(alloc);
    let mut pending = Pending::new(alloc);
    let mut operands = Vec::new(alloc);
    let mut at = 5;
    for number in 0..inst {
        let scene = Scene {
            table,
            forms,
            definitions: &definitions,
            image,
        };
        operands.clear();
        let read = match read_apart(&scene, &mut pending, &mut operands, number, at) {
            Ok(read) => read,
            Err(Stop::Memory) => return Err(Memory),
            Err(Stop::Fault(_)) => unreachable!(),
        };
        definitions.add(read.opcode, &operands)?;
        at = read.end;
    }
    Ok(Before { definitions, at })
}
