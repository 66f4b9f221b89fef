//! Why a text fails.

use spv_builtin::{FromGrammar, Table};
use spv_parser::{AsmError, assemble};
use spv_samples::{PROFILE, Told, WrongAnswer, each_refused};
use spv_views::text_fault::reason_lines;
use std::alloc::Global;
use std::test::Fail;

/// A text whose last line fails, at its first operand.
const TEXT: &str = concat!(
    "; SPIR-V\n; Version: 1.6\n; Generator: 9\n; Bound: 9\n; Schema: 0\n",
    "OpCapability Kernel\nOpCapability x\n"
);

/// Why it fails.
const LINES: &str = concat!(
    "rule: sentence\nat: OpCapability x\ncolumn: 14\n",
    "wanted: a value of Capability\nfound: x\n"
);

/// How it is told why the text fails.
fn told(alloc: Global, table: &Table, error: AsmError) -> Told {
    match reason_lines(alloc, table, "sentence", TEXT, error) {
        Ok(lines) if lines.as_str() == LINES => Told::Right,
        Ok(_) => Told::Wrong,
        Err(_) => Told::NoMemory,
    }
}

/// Has each growth refused in turn; nothing where the text does not fail.
fn answered(alloc: Global, table: &Table) -> Option<Result<(), WrongAnswer>> {
    match assemble(alloc, table, TEXT) {
        Ok(_) => None,
        Err(error) => Some(each_refused(alloc, || told(alloc, table, error))),
    }
}

#[test]
fn reasons(rt: HostRuntime) -> Result<(), Fail> {
    let table = Table::from_slice(rt.alloc(), PROFILE.as_bytes())?;
    let answer = answered(rt.alloc(), &table);
    drop(table);
    assert!(rt; answer == Some(Ok(())), "{answer:?}");
    Ok(())
}
