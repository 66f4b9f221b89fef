//! What entry points are looked at by.

use crate::used::Use;
use spv_flow::calls::Call;

/// The calls, or these the other way round; an order of them, by their places, in which those that lead to a function
/// come before its own; and the uses.
#[derive(Drop)]
pub struct Tree<'t> {
    pub calls: &'t [Call],
    pub order: &'t [u32],
    pub uses: &'t [Use],
}
