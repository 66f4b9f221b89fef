//! Table T: what decorations stand on.

ghost use Rattle.std.specs.Prelude.{◌≡◌};
ghost use Rattle.spv_declarations.specs.Table as spec;

use spv_module::opcode;

/// What a line asks of an id besides the opcode of its definition.
#[derive(Clone, Copy)]
pub enum Further {
    /// Nothing.
    Nothing,
    /// Its type is a pointer type.
    Pointer,
    /// It is a variable of section 9.
    Global,
    /// Its type is an int type or a vector of ints.
    Ints,
}

/// A line: decorations, each from one to another; opcodes of definitions, each from one to another; and what is asked
/// besides.
pub type Line = (&'static [(u32, u32)], &'static [(u16, u16)], Further);

/// A number alone, or from one to another.
macro_rules! range {
    ($only:literal) => { ($only, $only) };
    ($first:literal $last:literal) => { ($first, $last) };
}

/// An opcode alone, or from one to another, or any.
macro_rules! opcodes {
    (any) => { (0, 65535) };
    ($only:ident) => { (opcode::$only, opcode::$only) };
    ($first:ident $last:ident) => { (opcode::$first, opcode::$last) };
}

/// The table, a line for those that stand on the same (SPIR-V Specification 1.6, section 3.20): decorations, the
/// opcodes of what they stand on, and what is asked besides. A decoration on several lines stands on what one of them
/// says, and one on no line on anything. Those that most kernels have come first.
macro_rules! table {
    ($what:ident $($name:ident)*) => {
        $what! {
            ($($name)*)
            // Alignment, MaxByteOffset, AlignmentId, MaxByteOffsetId
            44 to 47 on any: Pointer;
            // NoSignedWrap, NoUnsignedWrap
            4469 to 4470 on I_ADD, I_SUB, I_MUL, S_NEGATE, SHIFT_LEFT_LOGICAL, EXT_INST: Nothing;
            // Constant, LinkageAttributes
            22, 41 on VARIABLE: Global;
            // LinkageAttributes
            41 on FUNCTION: Nothing;
            // BuiltIn
            11 on VARIABLE: Nothing;
            // Restrict, Aliased, Volatile, Coherent, NonWritable, NonReadable
            19 to 21, 23 to 25 on VARIABLE: Nothing;
            19 to 21, 23 to 25 on FUNCTION_PARAMETER: Pointer;
            // SpecId
            1 on SPEC_CONSTANT_TRUE to SPEC_CONSTANT: Nothing;
            // CPacked
            10 on TYPE_STRUCT: Nothing;
            // SaturatedConversion
            28 on CONVERT_F_TO_U to CONVERT_F_TO_S, U_CONVERT to S_CONVERT, CONVERT_PTR_TO_U, BITCAST: Ints;
        }
    };
}

/// The lines, as definitions and the code read them.
macro_rules! lines {
    (() $(
        $($from:literal $(to $to:literal)?),+ on $($first:ident $(to $last:ident)?),+: $further:ident;
    )+) => {
        [$((
            &[$(range!($from $($to)?)),+],
            &[$(opcodes!($first $($last)?)),+],
            Further::$further,
        )),+]
    };
}

/// A test whether one of some tests holds. All are made, which takes no branch.
macro_rules! one_of {
    () => { false };
    ($one:expr $(, $others:expr)*) => { $one | one_of!($($others),*) };
}

/// Whether a number is one alone, or from one to another.
macro_rules! within {
    ($number:ident $only:literal) => { ($only <= $number) & ($number <= $only) };
    ($number:ident $first:literal $last:literal) => { ($first <= $number) & ($number <= $last) };
}

/// The lines as a test whether a decoration is on one.
macro_rules! listed {
    (($decoration:ident) $(
        $($from:literal $(to $to:literal)?),+ on $($first:ident $(to $last:ident)?),+: $further:ident;
    )+) => {
        one_of!($(one_of!($(within!($decoration $from $($to)?)),+)),+)
    };
}

/// The table.
pub static TABLE: [Line; 10] = table!(lines);

/// Whether a decoration is on some line.
#[tactic(auto, unfolding(crate::specs::Table::lines))]
#[inline(always)]
pub fn is_listed(decoration: u32) -> bool
    ensures { result ≡ spec.is_listed spec.lines decoration }
{
    table!(listed decoration)
}

/// The decorations that are never those of members: SpecId, CPacked, Aliased, Constant, UniformId, SaturatedConversion,
/// FuncParamAttr, FPRoundingMode, FPFastMathMode, LinkageAttributes, Alignment, MaxByteOffset, AlignmentId,
/// MaxByteOffsetId, NoSignedWrap, NoUnsignedWrap, CounterBuffer.
pub static NEVER_ON_MEMBERS: &[(u32, u32)] = &[
    (1, 1),
    (10, 10),
    (20, 20),
    (22, 22),
    (27, 28),
    (38, 41),
    (44, 47),
    (4469, 4470),
    (5634, 5634),
];

/// Whether a number is one of those from one to another.
#[inline(always)]
fn is_within(range: (u32, u32), number: u32) -> bool
    ensures { result ≡ spec.is_within range number }
{
    range.0 <= number && number <= range.1
}

/// Whether a number is among some, each from one to another.
#[inline(always)]
pub fn is_among(ranges: &[(u32, u32)], number: u32) -> bool
    ensures { result ≡ spec.is_among ranges.now number }
{
    for range in ranges {
        if is_within(*range, number) {
            return true;
        }
    }
    false
}

/// Whether an opcode is among some, each from one to another.
#[inline(always)]
pub fn is_opcode_among(ranges: &[(u16, u16)], number: u16) -> bool
    ensures { result ≡ spec.is_among ranges.now number }
{
    for range in ranges {
        if is_within((u32::from(range.0), u32::from(range.1)), u32::from(number)) {
            return true;
        }
    }
    false
}
