//! Which function and which block an instruction is of, whatever rule is broken.
ghost use Rattle.std.specs.Prelude.{◌≡◌};
ghost use Rattle.spv_module.specs.Module.{plain_insts};
ghost use Rattle.spv_facts.specs.Place as places;

use crate::about::About;
use crate::fact::Place;
use spv_module::opcode;

/// Whether an opcode is that of a block's last instruction.
fn is_terminator(code: u16) -> bool
    ensures { result ≡ places.is_terminator code }
{
    matches!(
        code,
        opcode::BRANCH
            | opcode::BRANCH_CONDITIONAL
            | opcode::SWITCH
            | opcode::RETURN
            | opcode::RETURN_VALUE
            | opcode::UNREACHABLE
    )
}

/// Where an instruction of that number and opcode stands, by what those before it leave open.
fn entered(inst: u32, code: u16, before: Place) -> Place
    ensures { result ≡ places.entered inst code before }
{
    match code {
        opcode::FUNCTION => Place {
            function: Some(inst),
            block: None,
        },
        opcode::FUNCTION_END => Place {
            function: before.function,
            block: None,
        },
        opcode::LABEL => Place {
            function: before.function,
            block: Some(inst),
        },
        _ => before,
    }
}

/// What an instruction of that opcode leaves open of where it stands.
fn left_by(code: u16, place: Place) -> Place
    ensures { result ≡ places.left_by code place }
{
    if code == opcode::FUNCTION_END {
        return Place {
            function: None,
            block: None,
        };
    }
    if is_terminator(code) {
        return Place {
            function: place.function,
            block: None,
        };
    }
    place
}

/// Whether an instruction of that opcode comes too early where a place is open before it.
pub fn comes_early(code: u16, before: Place) -> bool
    ensures { result ≡ places.comes_early code before }
{
    let ends_block = matches!(
        code,
        opcode::LABEL | opcode::FUNCTION | opcode::FUNCTION_END
    );
    (before.block.is_some() && ends_block)
        || (before.function.is_some() && code == opcode::FUNCTION)
}

impl<'m, 'a> About<'m, 'a> {
    /// The function and the block that are open before an instruction; for the number after the last one those that
    /// are open at the end of the module. Time is linear in the instructions before it.
    pub fn open_before(&self, inst: u32) -> Place
        ensures { result ≡ places.open_before (plain_insts self.now.«module».now) inst }
    {
        let mut before = Place {
            function: None,
            block: None,
        };
        for at in 0..inst {
            let Some(next) = self.inst(at) else {
                return before;
            };
            before = left_by(next.opcode, entered(at, next.opcode, before));
        }
        before
    }

    /// The function and the block that an instruction is of; for the number after the last one those that are open at
    /// the end of the module. Time is linear in the instructions before it.
    pub fn place_of(&self, inst: u32) -> Place
        ensures { result ≡ places.place_of (plain_insts self.now.«module».now) inst }
    {
        let before = self.open_before(inst);
        match self.inst(inst) {
            Some(last) => entered(inst, last.opcode, before),
            None => before,
        }
    }
}
