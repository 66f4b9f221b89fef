//! The table of limits.

ghost use Rattle.std.specs.Prelude.{◌≡◌};
ghost use Rattle.spv_limits.specs.Table as spec;

/// What is limited (SPIR-V Specification 1.6, section 2.17).
#[derive(Clone, Copy, Debug, PartialEq, Eq)]
pub enum Limit {
    /// Characters of a text.
    Characters,
    /// Members of a struct.
    Members,
    /// How deep a struct is.
    Depth,
    /// Parameters of a function type.
    Parameters,
    /// Indexes of an access chain, of OpCompositeExtract and of OpCompositeInsert.
    Indexes,
    /// Pairs of a literal and a label of an OpSwitch.
    Pairs,
    /// Operands of an instruction of OpenCL.std.
    Arguments,
    /// Execution modes of a function.
    Modes,
    /// Variables before the functions.
    Globals,
    /// Variables in functions, of the whole module.
    Locals,
}

/// The greatest numbers, a limit a line.
pub static TABLE: [(Limit, u32); 10] = [
    (Limit::Characters, 65535),
    (Limit::Members, 16383),
    (Limit::Depth, 255),
    (Limit::Parameters, 255),
    (Limit::Indexes, 255),
    (Limit::Pairs, 16383),
    (Limit::Arguments, 255),
    (Limit::Modes, 255),
    (Limit::Globals, 65535),
    (Limit::Locals, 524287),
];

/// The greatest number that a limit allows.
pub fn most(limit: Limit) -> u32
    ensures { result ≡ spec.most limit }
{
    TABLE[limit as usize].1
}
