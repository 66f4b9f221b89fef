//! What is made of a module, its image and its text.

use spv_builtin::{FromGrammar, Table};
use spv_inst::{Module, Stop, decode};
use spv_parser::{AsmCode, AsmError, assemble};
use spv_printer::{EncodeCode, EncodeError, encode, show, show_image, show_inst, show_insts};
use spv_samples::{
    CALL_OF_LATER_FUNCTION, LOAD_WITH_MASK, LOOP_WITH_PHI, PROFILE, SMALLEST_KERNEL, Sample, Told,
    WrongAnswer, each_refused, image_of,
};
use spv_words::{FromRead, Image, Order, WordError, read_image};
use std::alloc::{AllocError, Global};
use std::test::Fail;

/// How the bytes of an image are read.
fn told_of_read(alloc: Global, image: &Image) -> Told {
    match read_image(alloc, &mut FromRead::new(image.octets())) {
        Ok((again, Order::Little)) if again.octets() == image.octets() => Told::Right,
        Err(WordError::W9) => Told::NoMemory,
        _ => Told::Wrong,
    }
}

/// How an image of so many instructions is decoded.
fn told_of_decode(alloc: Global, table: &Table, image: &Image, count: usize) -> Told {
    match decode(alloc, table, image) {
        Ok(module) if module.insts.len() == count => Told::Right,
        Err(Stop::Memory) => Told::NoMemory,
        _ => Told::Wrong,
    }
}

/// How the module of an image is encoded.
fn told_of_encode(alloc: Global, table: &Table, module: &Module<'_>, image: &Image) -> Told {
    match encode(alloc, table, module) {
        Ok(again) if again.octets() == image.octets() => Told::Right,
        Err(EncodeError { code, inst: 0 }) if code == EncodeCode::Memory => Told::NoMemory,
        _ => Told::Wrong,
    }
}

/// How the text of an image is assembled.
fn told_of_assemble(alloc: Global, table: &Table, text: &str, image: &Image) -> Told {
    match assemble(alloc, table, text) {
        Ok(again) if again.octets() == image.octets() => Told::Right,
        Err(AsmError { code, line: 0 }) if code == AsmCode::S6 => Told::NoMemory,
        _ => Told::Wrong,
    }
}

/// How a module of this text is shown.
fn told_of_show(alloc: Global, table: &Table, module: &Module<'_>, text: &str) -> Told {
    match show(alloc, table, module) {
        Ok(shown) if shown.as_str() == text => Told::Right,
        Err(EncodeError { code, inst: 0 }) if code == EncodeCode::Memory => Told::NoMemory,
        _ => Told::Wrong,
    }
}

/// How an image of this text is shown.
fn told_of_show_image(alloc: Global, table: &Table, image: &Image, text: &str) -> Told {
    match show_image(alloc, table, image) {
        Ok(shown) if shown.as_str() == text => Told::Right,
        Err(Stop::Memory) => Told::NoMemory,
        _ => Told::Wrong,
    }
}

/// How the first instruction is shown, or the lines of the first alone.
fn told_of_lines(text: &str, shown: Result<String, AllocError>) -> Told {
    match shown {
        Ok(lines) if text.contains(lines.as_str()) && !lines.is_empty() => Told::Right,
        Ok(_) => Told::Wrong,
        Err(_) => Told::NoMemory,
    }
}

/// How the capabilities are told that 7, Vector16, implies: 6, Kernel, too.
fn told_of_implied(alloc: Global, table: &Table) -> Told {
    match table.implied(alloc, &[7]) {
        Ok(all) if all.contains(&6) && all.contains(&7) => Told::Right,
        Ok(_) => Told::Wrong,
        Err(_) => Told::NoMemory,
    }
}

/// How one of nine calls answers.
fn told(
    call: u32,
    alloc: Global,
    table: &Table,
    image: &Image,
    module: &Module<'_>,
    text: &str,
) -> Told {
    match call {
        0 => told_of_read(alloc, image),
        1 => told_of_decode(alloc, table, image, module.insts.len()),
        2 => told_of_encode(alloc, table, module, image),
        3 => told_of_assemble(alloc, table, text, image),
        4 => told_of_show(alloc, table, module, text),
        5 => told_of_show_image(alloc, table, image, text),
        6 => told_of_lines(text, show_inst(alloc, table, module, 0)),
        7 => told_of_lines(text, show_insts(alloc, table, module, &[0])),
        _ => told_of_implied(alloc, table),
    }
}

/// Makes each of the calls of a module, its image and its text.
fn each_call(
    alloc: Global,
    table: &Table,
    image: &Image,
    module: &Module<'_>,
    text: &str,
) -> Result<(), WrongAnswer> {
    for call in 0..9 {
        each_refused(alloc, || told(call, alloc, table, image, module, text))?;
    }
    Ok(())
}

/// Makes each of the calls of a sample.
fn of_sample(
    alloc: Global,
    table: &Table,
    sample: Sample<'_>,
) -> Result<Result<(), WrongAnswer>, Stop> {
    let Ok(image) = image_of(alloc, sample.words) else {
        return Err(Stop::Memory);
    };
    let module = decode(alloc, table, &image)?;
    Ok(each_call(alloc, table, &image, &module, sample.text))
}

#[test]
fn modules(rt: HostRuntime) -> Result<(), Fail> {
    let table = Table::from_slice(rt.alloc(), PROFILE.as_bytes())?;
    let kernel = of_sample(rt.alloc(), &table, SMALLEST_KERNEL);
    let with_phi = of_sample(rt.alloc(), &table, LOOP_WITH_PHI);
    let with_mask = of_sample(rt.alloc(), &table, LOAD_WITH_MASK);
    let with_call = of_sample(rt.alloc(), &table, CALL_OF_LATER_FUNCTION);
    drop(table);
    for answer in [kernel, with_phi, with_mask, with_call] {
        match answer {
            Ok(answer) => answer?,
            Err(_) => assert!(rt; false, "a sample was not decoded"),
        }
    }
    Ok(())
}
