//! The operands that words are read as. Which rule is told of words that are no instructions is shown by the program.

use spv_builtin::{FromGrammar, Table};
use spv_inst::decode;
use spv_samples::{PROFILE, image_of};
use spv_words::Image;
use std::alloc::Global;
use std::test::Fail;

/// Words in hexadecimal under the profile's grammar, and the operands of the last instruction. Of its kinds 1 is
/// MemoryAccess and 4 SourceLanguage.
const PROFILE_ROWS: &str = r#"
load-with-two-mask-bits: 6003d 2 9 8 3 4 = [OfType(2), Result(9), Id(8), Mask { kind: 1, value: 3 }, Word(4)];
mask-of-zero: 5003d 2 9 8 0 = [OfType(2), Result(9), Id(8), Mask { kind: 1, value: 0 }];
number-of-33-bits: 40015 5 21 0 5002b 5 6 7 8 = [OfType(5), Result(6), Number { low: 7, high: 8, words: 2 }];
number-of-one-bit: 30016 5 1 4002b 5 6 ff = [OfType(5), Result(6), Number { low: 255, high: 0, words: 1 }];
width-of-the-last-type: 40015 5 40 0 40015 5 20 0 4002b 5 6 7
 = [OfType(5), Result(6), Number { low: 7, high: 0, words: 1 }];
star-of-pairs: 700f5 1 2 3 4 5 6 = [OfType(1), Result(2), Id(3), Id(4), Id(5), Id(6)];
switch-on-a-retyped-id: 40015 1 20 0 40015 2 40 0 30001 1 3 30001 2 3 600fb 3 9 1 0 8
 = [Id(3), Id(9), Number { low: 1, high: 0, words: 2 }, Id(8)];
switch-on-a-far-id: 40015 ee6b2801 40 0 30001 ee6b2801 ee6b2800 600fb ee6b2800 3 7 2 4
 = [Id(4000000000), Id(3), Number { low: 7, high: 2, words: 2 }, Id(4)];
string-of-four-octets: 3000a 64636261 0 = [Text("abcd")];
empty-string: 2000a 0 = [Text("")];
four-octet-character: 3000a bfbf8ff4 0 = [Text("\u{10ffff}")];
source-language-and-version: 30003 3 64 = [Value { kind: 4, value: 3 }, Word(100)];
words-of-a-source: 50003 3 64 5 61 = [Value { kind: 4, value: 3 }, Word(100), Id(5), Text("a")];
source-text-without-a-file: 40003 3 64 61 = [Value { kind: 4, value: 3 }, Word(100), Id(97)];
"#;

/// Other grammars, each with such rows.
const OTHER_ROWS: &str = r#"
{"instructions": [{"opname": "OpA", "opcode": 1, "operands": [{"kind": "K"}]}], "operand_kinds": [
 {"kind": "K", "category": "BitEnum", "enumerants": [
 {"enumerant": "None", "value": "0x0", "parameters": [{"kind": "LiteralInteger"}]},
 {"enumerant": "A", "value": "0x1"}]},
 {"kind": "LiteralInteger", "category": "Literal"}]}

zero-mask-takes-no-words: 20001 0 = [Mask { kind: 0, value: 0 }];
|
{"instructions": [{"opname": "OpA", "opcode": 1, "operands": [{"kind": "K"}]}], "operand_kinds": [
 {"kind": "K", "category": "BitEnum", "enumerants": []}]}

zero-accepted-without-its-enumerant: 20001 0 = [Mask { kind: 0, value: 0 }];
|
{"instructions": [{"opname": "OpA", "opcode": 1, "operands": [{"kind": "K"}]}], "operand_kinds": [
 {"kind": "K", "category": "ValueEnum", "enumerants": [
 {"enumerant": "A", "value": 0, "parameters": [{"kind": "IdRef", "quantifier": "*"}]},
 {"enumerant": "B", "value": 0, "parameters": [{"kind": "LiteralInteger"}]},
 {"enumerant": "C", "value": 0, "parameters": [{"kind": "IdRef"}]}]},
 {"kind": "IdRef", "category": "Id"}, {"kind": "LiteralInteger", "category": "Literal"}]}

first-undropped-enumerant-counts: 30001 0 7 = [Value { kind: 0, value: 0 }, Word(7)];
|
{"instructions": [{"opname": "OpA", "opcode": 1, "operands": [{"kind": "LiteralInteger"}, {"kind": "LiteralString"}]}],
 "operand_kinds": [{"kind": "LiteralInteger", "category": "Id"}, {"kind": "LiteralString", "category": "Id"}]}

literal-names-of-category-id: 30001 7 8 = [Id(7), Id(8)];
|
{"instructions": [{"opname": "OpA", "opcode": 1, "operands": [{"kind": "K"}, {"kind": "IdRef"}]}], "operand_kinds": [
 {"kind": "K", "category": "BitEnum", "enumerants": [
 {"enumerant": "Two", "value": "0x2", "parameters": [{"kind": "LiteralInteger"}]},
 {"enumerant": "One", "value": "0x1", "parameters": [{"kind": "V"}, {"kind": "IdScope"}]}]},
 {"kind": "V", "category": "ValueEnum", "enumerants": [
 {"enumerant": "V", "value": 4, "parameters": [{"kind": "LiteralString"}]}]},
 {"kind": "IdRef", "category": "Id"}, {"kind": "IdScope", "category": "Id"},
 {"kind": "LiteralInteger", "category": "Literal"}, {"kind": "LiteralString", "category": "Literal"}]}

parameters-of-a-parameter-follow-it: 70001 3 4 61 8 9 a
 = [Mask { kind: 0, value: 3 }, Value { kind: 1, value: 4 }, Text("a"), Id(8), Word(9), Id(10)];
|
{"instructions": [
 {"opname": "OpS", "opcode": 251, "operands": [{"kind": "IdResultType"}, {"kind": "PairLiteralIntegerIdRef"}]},
 {"opname": "OpTypeInt", "opcode": 21, "operands": [
 {"kind": "IdResult"}, {"kind": "LiteralInteger"}, {"kind": "LiteralInteger"}]},
 {"opname": "OpConstant", "opcode": 43, "operands": [
 {"kind": "IdResultType"}, {"kind": "IdResult"}, {"kind": "LiteralContextDependentNumber"}]}],
 "operand_kinds": [{"kind": "IdResultType", "category": "Id"}, {"kind": "IdResult", "category": "Id"},
 {"kind": "IdRef", "category": "Id"}, {"kind": "LiteralInteger", "category": "Literal"},
 {"kind": "LiteralContextDependentNumber", "category": "Literal"},
 {"kind": "PairLiteralIntegerIdRef", "category": "Composite", "bases": ["LiteralInteger", "IdRef"]}]}

switch-whose-first-operand-is-its-type: 40015 1 40 0 5002b 1 2 5 0 500fb 2 7 0 8
 = [OfType(2), Number { low: 7, high: 0, words: 2 }, Id(8)];
|
{"instructions": [
 {"opname": "OpA", "opcode": 250, "operands": [{"kind": "IdRef"}, {"kind": "PairLiteralIntegerIdRef"}]},
 {"opname": "OpB", "opcode": 251, "operands": [{"kind": "IdRef"}, {"kind": "LiteralInteger"}]}],
 "operand_kinds": [{"kind": "IdRef", "category": "Id"}, {"kind": "LiteralInteger", "category": "Literal"},
 {"kind": "PairLiteralIntegerIdRef", "category": "Composite", "bases": ["LiteralInteger", "IdRef"]}]}

pair-of-another-opcode: 400fa 9 1 2 = [Id(9), Word(1), Id(2)];
literal-of-a-switch-outside-a-pair: 300fb 9 1 = [Id(9), Word(1)];
|
{"instructions": [{"opname": "OpA", "opcode": 251, "operands": [
 {"kind": "IdRef"}, {"kind": "PairIdRefLiteralInteger"}]}],
 "operand_kinds": [{"kind": "IdRef", "category": "Id"}, {"kind": "LiteralInteger", "category": "Literal"},
 {"kind": "PairIdRefLiteralInteger", "category": "Composite", "bases": ["IdRef", "LiteralInteger"]}]}

pair-of-another-name-in-a-switch: 400fb 9 2 1 = [Id(9), Id(2), Word(1)];
|
{"instructions": [{"opname": "OpA", "opcode": 1, "operands": [{"kind": "K"}]}], "operand_kinds": [
 {"kind": "K", "category": "BitEnum", "enumerants": [
 {"enumerant": "Two", "value": "0x0002", "parameters": [{"kind": "IdRef"}]},
 {"enumerant": "One", "value": "0x0001", "parameters": [{"kind": "LiteralInteger"}]}]},
 {"kind": "IdRef", "category": "Id"}, {"kind": "LiteralInteger", "category": "Literal"}]}

parameters-of-the-smaller-bit-first: 40001 3 7 8 = [Mask { kind: 0, value: 3 }, Word(7), Id(8)];
"#;

/// Whether the operands of the last instruction of an image are shown as these.
fn is_read(alloc: Global, table: &Table, image: &Image, operands: &str) -> Result<bool, Fail> {
    match decode(alloc, table, image) {
        Ok(module) => match module.insts.last() {
            Some(inst) => Ok(format!(in alloc; "{:?}", inst.operands)?.as_str() == operands),
            None => Ok(false),
        },
        Err(_) => Ok(false),
    }
}

/// The image of a module, whose words behind the header stand in a text.
fn image(alloc: Global, words: &str) -> Result<Image, Fail> {
    let mut module = String::from_str(alloc, "7230203 10600 0 64 0 ")?;
    module.push_str(words)?;
    Ok(image_of(alloc, &module)?)
}

/// How many of the rows, from the first on, are as they say.
fn right_rows(alloc: Global, table: &Table, rows: &str) -> Result<u32, Fail> {
    let mut count = 0u32;
    for row in rows.split(';') {
        if let Some((words, operands)) = row.split_once(" = ") {
            if !is_read(alloc, table, &image(alloc, words)?, operands)? {
                break;
            }
            count = count.wrapping_add(1);
        }
    }
    Ok(count)
}

/// The same of rows under a grammar file.
fn right_rows_under(alloc: Global, grammar: &str, rows: &str) -> Result<u32, Fail> {
    let table = Table::from_slice(alloc, grammar.as_bytes())?;
    right_rows(alloc, &table, rows)
}

#[test]
fn rows(rt: HostRuntime) -> Result<(), Fail> {
    let mut count = right_rows_under(rt.alloc(), PROFILE, PROFILE_ROWS)?;
    for section in OTHER_ROWS.split('|') {
        if let Some((grammar, rows)) = section.split_once("\n\n") {
            count = count.wrapping_add(right_rows_under(rt.alloc(), grammar, rows)?);
        }
    }
    assert!(rt; count == 24, "{count} rows are right");
    Ok(())
}
