//! Modules that no words spell.

use spv_builtin::{FromGrammar, Table};
use spv_inst::Operand::{Id, Mask, Number, OfType, Result as Made, Text, Value, Word};
use spv_inst::{Memory, Module, Operand};
use spv_printer::{EncodeCode, EncodeError, encode};
use spv_samples::PROFILE;
use spv_words::Header;
use std::alloc::Global;
use std::test::Fail;

/// Kinds of the profile's grammar, by their numbers: SelectionControl, SourceLanguage, Capability and LinkageType.
const CONTROL: u32 = 3;

const LANGUAGE: u32 = 4;

const CAPABILITY: u32 = 9;

const LINKAGE: u32 = 12;

/// A header with this version, bound and schema.
fn header(version: u32, bound: u32, schema: u32) -> Header {
    Header {
        version,
        generator: 9,
        bound,
        schema,
    }
}

/// How the encoding of a module of OpTypeInt %1 32 0 and of another instruction is refused.
fn refusal(
    alloc: Global,
    table: &Table,
    header: Header,
    opcode: u16,
    operands: &[Operand<'_>],
) -> Result<Option<EncodeError>, Memory> {
    let mut module = Module::new(alloc, header);
    module.push(21, &[Made(1), Word(32), Word(0)])?;
    module.push(opcode, operands)?;
    Ok(encode(alloc, table, &module).err())
}

/// Whether no words spell an instruction.
fn is_unspelled(alloc: Global, table: &Table, opcode: u16, operands: &[Operand<'_>]) -> bool {
    let header = header(0x0001_0600, 100, 0);
    let n2 = EncodeError {
        code: EncodeCode::N2,
        inst: 1,
    };
    refusal(alloc, table, header, opcode, operands) == Ok(Some(n2))
}

/// Whether no words spell OpReturn with an operand, a zero octet, half a pair of an OpPhi, a source's text without its
/// file, and an opcode that there is none of.
fn are_operands_refused(alloc: Global, table: &Table) -> bool {
    let language = Value {
        kind: LANGUAGE,
        value: 3,
    };
    is_unspelled(alloc, table, 253, &[Word(1)])
        && is_unspelled(alloc, table, 10, &[Text("a\0b")])
        && is_unspelled(alloc, table, 245, &[OfType(1), Made(2), Id(3)])
        && is_unspelled(alloc, table, 3, &[language, Word(100), Text("a")])
        && is_unspelled(alloc, table, 9999, &[])
}

/// Whether no words spell an enumerant and a bit that there are none of, and a value of another kind.
fn are_values_refused(alloc: Global, table: &Table) -> bool {
    let unknown = Value {
        kind: CAPABILITY,
        value: 1000,
    };
    let other = Value {
        kind: LINKAGE,
        value: 1,
    };
    let mask = Mask {
        kind: CONTROL,
        value: 8,
    };
    is_unspelled(alloc, table, 17, &[unknown])
        && is_unspelled(alloc, table, 17, &[other])
        && is_unspelled(alloc, table, 247, &[Id(1), mask])
}

/// Whether no words spell such a number of the type %1.
fn is_number_refused(alloc: Global, table: &Table, low: u32, high: u32, words: u8) -> bool {
    let number = Number { low, high, words };
    is_unspelled(alloc, table, 43, &[OfType(1), Made(2), number])
}

/// Whether no words spell 5 of the type %1 with a high word, and in two words.
fn are_numbers_refused(alloc: Global, table: &Table) -> bool {
    is_number_refused(alloc, table, 5, 1, 1) && is_number_refused(alloc, table, 5, 0, 2)
}

#[test]
fn refuses_operands_that_do_not_fit(rt: HostRuntime) -> Result<(), Fail> {
    let table = Table::from_slice(rt.alloc(), PROFILE.as_bytes())?;
    let operands = are_operands_refused(rt.alloc(), &table);
    let values = are_values_refused(rt.alloc(), &table);
    let numbers = are_numbers_refused(rt.alloc(), &table);
    drop(table);
    assert!(rt;
        operands && values && numbers,
        "{operands}, {values}, {numbers}"
    );
    Ok(())
}

/// Whether a header is refused.
fn is_header_refused(alloc: Global, table: &Table, header: Header) -> bool {
    let n1 = EncodeError {
        code: EncodeCode::N1,
        inst: 0,
    };
    refusal(alloc, table, header, 253, &[Word(1)]) == Ok(Some(n1))
}

/// The length in words of the image of a module of one instruction, or how that is refused.
fn length_of(
    alloc: Global,
    table: &Table,
    opcode: u16,
    operands: &[Operand<'_>],
) -> Result<Result<u32, EncodeError>, Memory> {
    let mut module = Module::new(alloc, header(0x0001_0600, 5, 0));
    module.push(opcode, operands)?;
    Ok(encode(alloc, table, &module).map(|image| image.len()))
}

/// The same of an OpName with a name of so many octets.
fn length_with_name(
    alloc: Global,
    table: &Table,
    octets: usize,
) -> Result<Result<u32, EncodeError>, Memory> {
    let name = "a".repeat(alloc, octets)?;
    length_of(alloc, table, 5, &[Id(1), Text(name.as_str())])
}

/// How the only instruction is refused.
fn refused(code: EncodeCode) -> Result<u32, EncodeError> {
    Err(EncodeError { code, inst: 0 })
}

/// The lengths of an OpReturn with a word too many, of the longest OpName, of 65,535 words behind the five of the header,
/// and of a longer one.
fn lengths(alloc: Global, table: &Table) -> [Result<Result<u32, EncodeError>, Memory>; 3] {
    [
        length_of(alloc, table, 253, &[Word(1)]),
        length_with_name(alloc, table, 262_131),
        length_with_name(alloc, table, 262_132),
    ]
}

#[test]
fn one_instruction(rt: HostRuntime) -> Result<(), Fail> {
    let table = Table::from_slice(rt.alloc(), PROFILE.as_bytes())?;
    let [with_word, with_name, with_longer] = lengths(rt.alloc(), &table);
    drop(table);
    assert!(rt; with_word == Ok(refused(EncodeCode::N2)));
    assert!(rt; with_name == Ok(Ok(65_540)));
    assert!(rt; with_longer == Ok(refused(EncodeCode::N3)));
    Ok(())
}

#[test]
fn refuses_headers(rt: HostRuntime) -> Result<(), Fail> {
    let table = Table::from_slice(rt.alloc(), PROFILE.as_bytes())?;
    let bound = is_header_refused(rt.alloc(), &table, header(0x0001_0600, 0, 0));
    let version = is_header_refused(rt.alloc(), &table, header(0x0001_0500, 100, 0));
    let schema = is_header_refused(rt.alloc(), &table, header(0x0001_0600, 100, 1));
    drop(table);
    assert!(rt; bound && version && schema, "{bound}, {version}, {schema}");
    Ok(())
}
