//! A text that fails, and what is told of it.

use spv_builtin::{FromGrammar, Table};
use spv_commands::Trouble;
use spv_samples::{PROFILE, Told, each_refused};
use spv_streams::assemble_stream;
use spv_words::{FromRead, FromWrite, Order};
use std::alloc::Global;
use std::test::Fail;

/// A text whose second line is no version.
const NO_VERSION: &str = "; SPIR-V\n; Version: 1.7\n";

/// What is written of a text that fails, where it is to be said why or not.
fn written(alloc: Global, table: &Table, explain: bool) -> Result<Vec<u8>, Trouble> {
    let mut out = FromWrite::new(Vec::new(alloc));
    let mut made = FromWrite::new(Vec::new(alloc));
    let mut text = FromRead::new(NO_VERSION.as_bytes());
    let order = Order::Little;
    assemble_stream(
        alloc, table, order, explain, false, &mut text, &mut out, &mut made,
    )?;
    Ok(out.inner)
}

/// How the call answers, where `File` is a growth of what is written.
fn told(alloc: Global, table: &Table) -> Told {
    match written(alloc, table, true) {
        Ok(lines) if lines.starts_with(b"fault S1 line 2\nrule: ") => Told::Right,
        Err(Trouble::Memory | Trouble::File) => Told::NoMemory,
        _ => Told::Wrong,
    }
}

/// Whether the line of the fault alone is written.
fn is_told_alone(alloc: Global, table: &Table) -> bool {
    match written(alloc, table, false) {
        Ok(line) => line.as_slice() == b"fault S1 line 2\n".as_slice(),
        Err(_) => false,
    }
}

#[test]
fn a_fault_alone(rt: HostRuntime) -> Result<(), Fail> {
    let table = Table::from_slice(rt.alloc(), PROFILE.as_bytes())?;
    let is_told = is_told_alone(rt.alloc(), &table);
    drop(table);
    assert!(rt; is_told);
    Ok(())
}

#[test]
fn a_fault_with_its_reason(rt: HostRuntime) -> Result<(), Fail> {
    let table = Table::from_slice(rt.alloc(), PROFILE.as_bytes())?;
    let answer = each_refused(rt.alloc(), || told(rt.alloc(), &table));
    drop(table);
    answer?;
    Ok(())
}
