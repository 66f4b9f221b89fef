//! What errors are shown as: each variant.

use spv_verdict::TraceError;
use std::test::Fail;

#[test]
fn messages(rt: HostRuntime) -> Result<(), Fail> {
    let told = format!(in rt.alloc(); "{}, {}", TraceError::NoEntry, TraceError::Memory)?;
    assert!(rt; told.as_str() == "the id is no entry point's function, out of memory");
    Ok(())
}
