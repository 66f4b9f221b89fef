//! What is written of a module for people to look at.

use spv_builtin::{FromGrammar, Table};
use spv_extended::Reach;
use spv_names::Chosen;
use spv_samples::{LOOP_WITH_PHI, PROFILE, Told, each_refused, image_of};
use spv_views::{View, ViewError, view_stream};
use spv_words::{FromRead, FromWrite};
use std::alloc::Global;
use std::test::Fail;

/// A call: what is asked for, and how that begins.
#[derive(Clone, Copy)]
struct Call {
    how: View<'static>,
    function: Option<Chosen<'static>>,
    begin: &'static str,
}

/// The calls that are made, of a module whose function is 10.
const CALLS: [Call; 5] = [
    Call {
        how: View::Text { color: false },
        function: None,
        begin: "; SPIR-V\n; Version: 1.6\n",
    },
    Call {
        how: View::Text { color: true },
        function: Some(Chosen::Id(10)),
        begin: "",
    },
    Call {
        how: View::Page { title: "<a>" },
        function: None,
        begin: "<!doctype html>",
    },
    Call {
        how: View::Graph,
        function: None,
        begin: "",
    },
    Call {
        how: View::Graph,
        function: Some(Chosen::Name("k")),
        begin: "",
    },
];

/// What is written of a module's bytes, and whether that is a view.
fn written(
    alloc: Global,
    table: &Table,
    call: Call,
    bytes: &[u8],
) -> Result<(Vec<u8>, bool), ViewError> {
    let mut out = FromWrite::new(Vec::new(alloc));
    let mut bytes = FromRead::new(bytes);
    let answer = view_stream(
        alloc,
        table,
        call.how,
        Reach::Profile,
        call.function,
        &mut bytes,
        &mut out,
    )?;
    Ok((out.inner, answer))
}

/// How a call answers, where `Failed` is a growth of what is written.
fn told(alloc: Global, table: &Table, call: Call, bytes: &[u8]) -> Told {
    match written(alloc, table, call, bytes) {
        Ok((view, true)) if !view.is_empty() && view.starts_with(call.begin.as_bytes()) => {
            Told::Right
        }
        Err(ViewError::Memory | ViewError::Failed) => Told::NoMemory,
        _ => Told::Wrong,
    }
}

#[test]
fn views_of_a_module(rt: HostRuntime) -> Result<(), Fail> {
    let alloc = rt.alloc();
    let table = Table::from_slice(alloc, PROFILE.as_bytes())?;
    let image = image_of(alloc, LOOP_WITH_PHI.words)?;
    for call in CALLS {
        each_refused(alloc, || told(alloc, &table, call, image.octets()))?;
    }
    Ok(())
}

/// Whether it is told that there is no such function.
fn is_absent(alloc: Global, table: &Table, function: Chosen<'static>, bytes: &[u8]) -> bool {
    let call = Call {
        how: View::Graph,
        function: Some(function),
        begin: "",
    };
    matches!(
        written(alloc, table, call, bytes),
        Err(ViewError::NoFunction)
    )
}

#[test]
fn no_such_function(rt: HostRuntime) -> Result<(), Fail> {
    let image = image_of(rt.alloc(), LOOP_WITH_PHI.words)?;
    let table = Table::from_slice(rt.alloc(), PROFILE.as_bytes())?;
    let id = is_absent(rt.alloc(), &table, Chosen::Id(11), image.octets());
    let digits = is_absent(rt.alloc(), &table, Chosen::Name("11"), image.octets());
    let name = is_absent(rt.alloc(), &table, Chosen::Name("kk"), image.octets());
    drop(table);
    assert!(rt; id && digits && name, "{id}, {digits}, {name}");
    Ok(())
}
