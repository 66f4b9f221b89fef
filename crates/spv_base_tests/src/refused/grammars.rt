//! What is made of a grammar file.

use serde_json::Value;
use spv_builtin::{FromGrammar, GrammarError, Table, fault_of, grammar_text, table_of};
use spv_samples::{PROFILE, Told, each_refused};
use std::alloc::Global;
use std::test::Fail;

/// How a table of the profile, or one with all its opcodes, was made.
fn told_of_table(made: Result<Table, GrammarError>) -> Told {
    match made {
        Ok(table) if table.named("OpUnreachable") == Some(255) => Told::Right,
        Err(GrammarError::J8) => Told::NoMemory,
        _ => Told::Wrong,
    }
}

/// A grammar file with an opcode that is too large.
const FAULTY: &[u8] = br#"{"instructions":[{"opname":"OpA","opcode":65536}],"operand_kinds":[]}"#;

/// How the fault of that file is told.
fn told_of_fault(alloc: Global) -> Told {
    match fault_of(alloc, FAULTY) {
        Ok(Some(fault)) if fault.path.as_str() == "instructions[0].opcode" => Told::Right,
        Ok(_) => Told::Wrong,
        Err(_) => Told::NoMemory,
    }
}

/// How one of the calls answers.
fn told(call: u32, alloc: Global, profile: &Value) -> Told {
    match call {
        0 => told_of_table(Table::from_slice(alloc, PROFILE.as_bytes())),
        1 => told_of_table(Table::from_value(alloc, profile)),
        _ => told_of_fault(alloc),
    }
}

/// Each of these calls does without some growth.
#[test]
fn grammars(rt: HostRuntime) -> Result<(), Fail> {
    let alloc = rt.alloc();
    let profile = Value::from_str(alloc, PROFILE)?;
    for call in 0..3 {
        each_refused(alloc, || told(call, alloc, &profile))?;
    }
    Ok(())
}

/// The built-in table, with ample memory alone: it takes many growths.
#[test]
fn built_in_table(rt: HostRuntime) {
    let told = told_of_table(table_of(rt.alloc(), None));
    assert!(rt; told == Told::Right);
}

/// A grammar file of the least size.
const LEAST: &str = concat!(
    r#"{"instructions":[{"capabilities":["Shader"],"opcode":7,"#,
    r#""operands":[{"kind":"IdRef"},{"kind":"Mask","quantifier":"?"}],"opname":"OpA"}],"#,
    r#""operand_kinds":[{"category":"Id","kind":"IdRef"},"#,
    r#"{"category":"BitEnum","enumerants":[{"enumerant":"None","value":"0x0"},"#,
    r#"{"enumerant":"A","parameters":[{"kind":"IdRef"}],"value":"0x10"}],"kind":"Mask"},"#,
    r#"{"bases":["IdRef"],"category":"Composite","kind":"Pair"}]}"#
);

/// How the grammar file of its table is written.
fn told_of_text(alloc: Global, table: &Table) -> Told {
    match grammar_text(alloc, table) {
        Ok(text) if text.as_str() == LEAST => Told::Right,
        Ok(_) => Told::Wrong,
        Err(_) => Told::NoMemory,
    }
}

#[test]
fn least_file(rt: HostRuntime) -> Result<(), Fail> {
    let alloc = rt.alloc();
    let table = Table::from_slice(alloc, LEAST.as_bytes())?;
    each_refused(alloc, || told_of_text(alloc, &table))?;
    Ok(())
}
