//! What may be shown by a name.

/// What may be shown by a name.
#[derive(Clone, Copy, PartialEq, Eq, PartialOrd, Ord)]
pub enum Named {
    Opcode(u16),
    Value { kind: u32, value: u32 },
    /// The names of the set bits.
    Mask { kind: u32, mask: u32 },
}
