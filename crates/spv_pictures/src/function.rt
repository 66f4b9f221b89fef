//! Functions in a list of instructions, by opcodes alone.
ghost use Rattle.std.specs.Prelude.{◌≡◌, ◌<◌, ◌≤◌, ◌+◌, length, map};
ghost use Rattle.std.specs.List.{before_first};
ghost use Rattle.spv_module.specs.Module.{plain_inst};
ghost use Rattle.spv_pictures.specs.Function as function;
ghost use Rattle.spv_pictures.specs.Function.{ends_function};
ghost use Rattle.spv_pictures.specs.inner.Rows.{function_at};

use spv_module::{Inst, opcode};

/// Whether a function ends before an instruction of that opcode.
pub fn ends_before(code: u16) -> bool
    ensures { result ≡ ends_function code }
{
    matches!(code, opcode::FUNCTION_END | opcode::FUNCTION)
}

/// Whether an instruction is the OpFunction of that id.
pub fn is_function(id: u32, inst: &Inst<'_>) -> bool
    ensures { result ≡ function.is_function id (plain_inst inst.now) }
{
    if inst.opcode != opcode::FUNCTION {
        return false;
    }
    match inst.result_id() {
        Some(result) => result == id,
        None => false,
    }
}

/// The instructions before the first one before which a function ends.
pub fn body_of<'m, 'a>(insts: &'m [Inst<'a>]) -> &'m [Inst<'a>]
    ensures within { length result.now ≤ length insts.now }
    ensures body { map plain_inst result.now ≡ before_first (λ i. ends_function i.opcode) (map plain_inst insts.now) }
{
    let mut count = 0;
    while count < insts.len() {
        if ends_before(insts[count].opcode) {
            return &insts[..count];
        }
        count += 1;
    }
    insts
}

/// The instructions of the function whose OpFunction stands at a place, from there on to before its end.
pub fn function_from<'m, 'a>(insts: &'m [Inst<'a>], place: usize) -> &'m [Inst<'a>]
    requires { place < length insts.now }
    ensures within { place + length result.now ≤ length insts.now }
    ensures insts { map plain_inst result.now ≡ function_at place (map plain_inst insts.now) }
{
    let count = 1 + body_of(&insts[place + 1..]).len();
    &insts[place..place + count]
}
