//! What is asked of the two labels of a branch.

/// What is asked of the two labels of an OpBranchConditional.
#[derive(Clone, Copy, PartialEq, Eq)]
pub enum Fork {
    /// That they are not the same (F4): so it is since version 1.6.
    Distinct,
    /// Nothing: before version 1.6.
    Free,
}
