//! The layers one after another.

use spv_builtin::{FromGrammar, Table};
use spv_flow::branches::{Fork, check_branches};
use spv_flow::calls::first_cycle;
use spv_flow::walks::check_values;
use spv_ids::number;
use spv_inst::{Stop, decode};
use spv_layout::laws::word_counts;
use spv_layout::{Profile, lay_out};
use spv_samples::{CALL_OF_LATER_FUNCTION, PROFILE, image_of};
use spv_verdict::{flow_check, type_check};
use spv_words::Image;
use std::alloc::Global;
use std::test::Fail;

/// The number of function definitions of an image, which all layers take in turn.
pub fn flow_of(alloc: Global, table: &Table, image: &Image) -> Result<u32, Stop> {
    word_counts();
    let _words = image.len();
    let module = decode(alloc, table, image)?;
    let plan = lay_out(alloc, Profile::Own, table, &module)?;
    let ids = number(alloc, &module, &plan)?;
    let types = type_check(alloc, table, &module, &plan, &ids)?;
    let flow = flow_check(alloc, &module, &plan, &ids, &types, Fork::Distinct)?;
    Ok(flow.definitions())
}

/// Looks at the branches of an image, then at its values, and answers the first call on a cycle.
fn cycle_of(alloc: Global, table: &Table, image: &Image) -> Result<Option<u32>, Stop> {
    word_counts();
    let _words = image.len();
    let module = decode(alloc, table, image)?;
    let plan = lay_out(alloc, Profile::Own, table, &module)?;
    let ids = number(alloc, &module, &plan)?;
    check_branches(alloc, &module, &plan, &ids, Fork::Distinct)?;
    check_values(alloc, &module, &plan, &ids)?;
    Ok(first_cycle(alloc, &module, &plan, &ids)?)
}

/// The same of words that stand in a text.
fn cycle_in(alloc: Global, table: &Table, words: &str) -> Result<Option<u32>, Stop> {
    match image_of(alloc, words) {
        Ok(image) => cycle_of(alloc, table, &image),
        Err(_) => Err(Stop::Memory),
    }
}

#[test]
fn parts_of_flow(rt: HostRuntime) -> Result<(), Fail> {
    let table = Table::from_slice(rt.alloc(), PROFILE.as_bytes())?;
    let cycle = cycle_in(rt.alloc(), &table, CALL_OF_LATER_FUNCTION.words);
    drop(table);
    assert!(rt; matches!(cycle, Ok(None)));
    Ok(())
}
