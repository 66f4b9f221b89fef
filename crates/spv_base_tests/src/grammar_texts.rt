//! Where and how a grammar file is refused.

use spv_builtin::fault_of;
use std::alloc::Global;
use std::test::Fail;

/// Grammar files, each with the code, the path, what was found and what is wanted.
const FAULTS: &str = r#"
J1||line 1, column 1|JSON of at most 127 levels|x;
J2|instructions|nothing|an array|{};
J2|instructions[1].opname|7|a text|
  {"instructions":[{"opname":"OpA","opcode":1},{"opname":7}],"operand_kinds":[]};
J3|instructions[0].opcode|65536|a whole number from 0 to 65535|
  {"instructions":[{"opname":"OpA","opcode":65536}],"operand_kinds":[]};
J4|instructions[0].operands[0].kind|"X"|the name of a kind of operand_kinds|
  {"instructions":[{"opname":"OpA","opcode":1,"operands":[{"kind":"X"}]}],"operand_kinds":[]};
J5|operand_kinds[0].category|"Ids"|BitEnum, ValueEnum, Id, Literal or Composite|
  {"instructions":[],"operand_kinds":[{"kind":"A","category":"Ids"}]};
J6|operand_kinds[1].bases[0]|"IdResult"|a kind that is no result kind|
  {"instructions":[],"operand_kinds":[{"kind":"IdResult","category":"Id"},
  {"kind":"C","category":"Composite","bases":["IdResult"]}]};
J7|operand_kinds[0].bases|an array|a kind at least|
  {"instructions":[],"operand_kinds":[{"kind":"C","category":"Composite","bases":[]}]};
"#;

/// Whether the fault of a grammar file is told so.
fn is_told(alloc: Global, text: &str, wanted: &str) -> Result<bool, Fail> {
    match fault_of(alloc, text.as_bytes())? {
        None => Ok(false),
        Some(fault) => {
            let told = format!(in alloc;
                "{:?}|{}|{}|{}",
                fault.code, fault.path, fault.found, fault.wanted
            )?;
            Ok(told.as_str() == wanted)
        }
    }
}

#[test]
fn faults(rt: HostRuntime) -> Result<(), Fail> {
    let mut count = 0u32;
    for row in FAULTS.split(';') {
        if let Some((fault, text)) = row.trim().rsplit_once('|') {
            assert!(rt; is_told(rt.alloc(), text, fault)?, "{text}");
            count = count.wrapping_add(1);
        }
    }
    assert!(rt; count == 8);
    Ok(())
}
