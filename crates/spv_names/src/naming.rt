//! What gives names to ids.
ghost use Rattle.std.specs.Prelude.{◌≡◌, option_map};
ghost use Rattle.spv_module.specs.Module.{plain_inst};
ghost use Rattle.spv_names.specs.Names.{named_by};

use spv_module::{Inst, Operand, opcode};

/// What gives a name to an id.
#[derive(Clone, Copy)]
pub enum Naming {
    /// An OpName.
    Name,
    /// An OpEntryPoint, which names a function.
    EntryPoint,
}

/// The id that an instruction names in that way, and its name.
pub fn named<'a>(naming: Naming, inst: &Inst<'a>) -> Option<(u32, &'a str)>
    ensures { option_map (λ p. (p.0, p.1.now)) result ≡ named_by naming (plain_inst inst.now) }
{
    match (naming, inst.opcode, inst.operands.as_slice()) {
        (Naming::Name, opcode::NAME, [Operand::Id(id), Operand::Text(name), ..]) => {
            Some((*id, *name))
        }
        (
            Naming::EntryPoint,
            opcode::ENTRY_POINT,
            [
                Operand::Value { .. },
                Operand::Id(id),
                Operand::Text(name),
                ..
            ],
        ) => Some((*id, *name)),
        _ => None,
    }
}
