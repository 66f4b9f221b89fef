//! The layers and the plain program tell the same of values: of each module that is checked up to them, and of
//! functions of 1,000 blocks.

use crate::layers::flow_of;
use crate::plain::first_missing;
use spv_builtin::{FromGrammar, Table};
use spv_inst::{Fault, Rule, Stop, decode};
use spv_samples::{CHECKED_TO_VALUES, PROFILE, image_of};
use spv_words::Image;
use std::alloc::{AllocError, Global};
use std::test::Fail;

/// What a comparison says where it does not come to its end.
type Why = &'static str;

const NO_MEMORY: Why = "out of memory";

/// What the plain program says of an image.
fn plainly(alloc: Global, table: &Table, image: &Image) -> Result<Option<(Rule, usize)>, Why> {
    let Ok(module) = decode(alloc, table, image) else {
        return Err("no module");
    };
    match first_missing(alloc, module.insts.as_slice()) {
        Ok(missing) => Ok(missing),
        Err(_) => Err(NO_MEMORY),
    }
}

/// The rule of a missing value that was told, and its instruction. A call on a cycle is looked at after all values.
fn missing(told: Result<u32, Stop>) -> Result<Option<(Rule, usize)>, Why> {
    match told {
        Ok(_) | Err(Stop::Fault(Fault { rule: Rule::G1, .. })) => Ok(None),
        Err(Stop::Fault(Fault { rule, inst, .. })) => Ok(Some((rule, inst as usize))),
        Err(Stop::Memory) => Err(NO_MEMORY),
    }
}

/// What both tell of the values of a module. Where they do not agree, its name is the error.
fn told(
    alloc: Global,
    table: &Table,
    name: Why,
    words: &str,
) -> Result<Option<(Rule, usize)>, Why> {
    let Ok(image) = image_of(alloc, words) else {
        return Err("no image");
    };
    let plain = plainly(alloc, table, &image);
    let layers = missing(flow_of(alloc, table, &image));
    if layers == plain { plain } else { Err(name) }
}

/// How many of the samples break no rule of values, and how many one.
fn sound_and_broken(alloc: Global, table: &Table) -> Result<(u32, u32), Why> {
    let (mut sound, mut broken) = (0u32, 0u32);
    for row in CHECKED_TO_VALUES.split(';') {
        if let Some((name, words)) = row.split_once(':') {
            match told(alloc, table, name, words)? {
                None => sound = sound.wrapping_add(1),
                Some(_) => broken = broken.wrapping_add(1),
            }
        }
    }
    Ok((sound, broken))
}

#[test]
fn each_sample(rt: HostRuntime) -> Result<(), Fail> {
    let table = Table::from_slice(rt.alloc(), PROFILE.as_bytes())?;
    let counts = sound_and_broken(rt.alloc(), &table);
    drop(table);
    let (sound, broken) = counts?;
    assert!(rt; sound > 90 && broken > 10, "{sound} and {broken}");
    Ok(())
}

/// What stands before the first block: %11 is a parameter.
const HEAD: &str =
    "7230203 10600 0 fff 0 20011 4 20011 6 3000e 2 2 4000f 6 a 6b 20013 1 40015 2 20 0
20014 3 50021 4 1 2 3 50036 1 a 0 4 30037 2 b 30037 3 c";

/// A function of 1,000 blocks in a chain, with a branch from the last to the second. Block N, from 0, has the label
/// 1000 + N, and defines the value 2000 + N as a sum: of the parameter in the first block, of `of_second` in the
/// second, and in each other of the value of the block before it (`is_near`), or of the first block's.
fn chain(alloc: Global, of_second: u32, is_near: bool) -> Result<String, AllocError> {
    let mut words = String::from_str(alloc, HEAD)?;
    for block in 0..1000u32 {
        let (label, value) = (1000 + block, 2000 + block);
        let operand = match block {
            0 => 11,
            1 => of_second,
            _ if is_near => value - 1,
            _ => 2000,
        };
        let next = if block < 999 { label + 1 } else { 1001 };
        let body = format!(in alloc;
            " 200f8 {label:x} 50080 2 {value:x} {operand:x} b 200f9 {next:x}"
        )?;
        words.push_str(body.as_str())?;
    }
    words.push_str(" 10038")?;
    Ok(words)
}

/// What both tell of such a function.
fn told_of_chain(
    alloc: Global,
    table: &Table,
    of_second: u32,
    is_near: bool,
) -> Result<Option<(Rule, usize)>, Why> {
    match chain(alloc, of_second, is_near) {
        Ok(words) => told(alloc, table, "a chain", words.as_str()),
        Err(_) => Err(NO_MEMORY),
    }
}

/// Instruction 15 is the sum in the second block: of the first block's value, or of one that is missing there, that of
/// the last block or its own.
#[test]
fn a_thousand_blocks(rt: HostRuntime) -> Result<(), Fail> {
    let table = Table::from_slice(rt.alloc(), PROFILE.as_bytes())?;
    let of_first = told_of_chain(rt.alloc(), &table, 2000, true);
    let of_last = told_of_chain(rt.alloc(), &table, 2999, true);
    let of_itself = told_of_chain(rt.alloc(), &table, 2001, false);
    drop(table);
    let missing = Ok(Some((Rule::A1, 15)));
    assert!(rt; of_first == Ok(None));
    assert!(rt; of_last == missing && of_itself == missing);
    Ok(())
}
