//! Instructions are pushed.

use spv_inst::Operand::{Id, OfType, Result as Made, Text};
use spv_inst::{Inst, Module};
use spv_samples::{Told, each_refused};
use spv_words::Header;
use std::test::Fail;

/// The header of the module.
const HEADER: Header = Header {
    version: 0x0001_0600,
    generator: 9,
    bound: 5,
    schema: 2,
};

/// Whether an instruction is the one of its place: OpIAdd at the first, and OpExtension "abc" at all others.
fn is_right(at: usize, inst: &Inst<'_>) -> bool {
    let operands = inst.operands.as_slice();
    if at == 0 {
        inst.opcode == 128 && matches!(operands, [OfType(1), Made(2), Id(3), Id(3)])
    } else {
        inst.opcode == 10 && matches!(operands, [Text("abc")])
    }
}

/// How a push of OpExtension "abc" answers: where it is refused, the module is as it was, header and instructions.
fn told(module: &mut Module<'_>) -> Told {
    let before = module.insts.len();
    let is_pushed = module.push(10, &[Text("abc")]).is_ok();
    let are_right = module
        .insts
        .iter()
        .enumerate()
        .all(|(at, inst)| is_right(at, inst))
        && module.header == HEADER;
    let added = module.insts.len().wrapping_sub(before);
    match (is_pushed, added) {
        (true, 1) if are_right => Told::Right,
        (false, 0) if are_right => Told::NoMemory,
        _ => Told::Wrong,
    }
}

#[test]
fn pushes(rt: HostRuntime) -> Result<(), Fail> {
    let mut module = Module::new(rt.alloc(), HEADER);
    module.push(128, &[OfType(1), Made(2), Id(3), Id(3)])?;
    // Among so many are those for which the list of instructions has room, and those for which it has not.
    for _ in 0..17 {
        each_refused(rt.alloc(), || told(&mut module))?;
    }
    Ok(())
}
