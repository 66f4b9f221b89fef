//! What explains a fault: its evidence by itself, and its lines in both ways.

use spv_builtin::{FromGrammar, Table};
use spv_explain::{Detail, Evidence, Explained, explain, explain_bytes, explain_stream};
use spv_extended::Reach;
use spv_samples::{PROFILE, image_of};
use spv_words::{FromRead, FromWrite, Image};
use std::alloc::Global;
use std::test::Fail;

/// The smallest kernel, but that its label, instruction 7, has the id of its function, instruction 6.
const LABEL_WITH_THE_ID_OF_THE_FUNCTION: &str =
    "7230203 10600 0 5 0 20011 4 20011 6 3000e 2 2 4000f 6 3 6b 20013 1
30021 2 1 50036 1 3 0 2 200f8 3 100fd 10038";

/// Whether the evidence is the earlier result, instruction 6.
fn is_earlier(alloc: Global, table: &Table, image: &Image) -> bool {
    match explain(alloc, table, Reach::Profile, image) {
        Ok(
            Explained::Broken {
                evidence: Evidence::Earlier { inst: 6 },
                ..
            },
        ) => true,
        _ => false,
    }
}

/// Writes the lines of a module: whether it has a fault, and they were written.
fn write(alloc: Global, table: &Table, bytes: &[u8], out: &mut Vec<u8>) -> bool {
    let mut reader = FromRead::new(bytes);
    let answer = explain_stream(
        alloc,
        table,
        Reach::Profile,
        Detail::Full,
        &mut reader,
        &mut FromWrite::new(out),
    );
    matches!(answer, Ok(false))
}

/// Whether the lines that are made in memory are these.
fn are_made(alloc: Global, table: &Table, bytes: &[u8], lines: &[u8]) -> bool {
    match explain_bytes(alloc, table, Reach::Profile, Detail::Full, bytes) {
        Ok(told) => match told.bytes(alloc) {
            Ok(made) => made.as_slice() == lines,
            Err(_) => false,
        },
        Err(_) => false,
    }
}

/// Whether the lines are the same in both ways, and the first tells the fault.
fn are_told(alloc: Global, table: &Table, image: &Image) -> bool {
    let mut lines = Vec::new(alloc);
    write(alloc, table, image.octets(), &mut lines)
        && lines.starts_with(b"fault D2 inst 7 word 26\n")
        && are_made(alloc, table, image.octets(), &lines)
}

#[test]
fn a_second_result(rt: HostRuntime) -> Result<(), Fail> {
    let image = image_of(rt.alloc(), LABEL_WITH_THE_ID_OF_THE_FUNCTION)?;
    let table = Table::from_slice(rt.alloc(), PROFILE.as_bytes())?;
    let is_earlier = is_earlier(rt.alloc(), &table, &image);
    let are_told = are_told(rt.alloc(), &table, &image);
    drop(table);
    assert!(rt; is_earlier && are_told, "{is_earlier}, {are_told}");
    Ok(())
}
