//! Calls as pairs of numbers.

/// An OpFunctionCall of a definition in a definition.
#[derive(Clone, Copy)]
pub struct Call {
    /// The number of the caller's OpFunction.
    pub caller: u32,
    /// The number of the callee's OpFunction.
    pub callee: u32,
    /// The number of the OpFunctionCall.
    pub inst: u32,
}
