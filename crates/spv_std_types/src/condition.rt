//! The conditions of which the rows of OpenCL.std are made.

ghost use Rattle.std.specs.Prelude.{◌≡◌};
ghost use Rattle.spv_std_types.specs.Condition as spec;

use spv_conditions::Kind;

/// What is looked at: a type, by whose it is. The operands behind the number of the instruction are numbered from 0.
#[derive(Clone, Copy)]
pub enum Subject {
    /// The result type.
    Result,
    /// The type that the operand of that number is declared with.
    Value(u8),
    /// The type that this one, a pointer type, points to.
    Pointee(u8),
}

/// Some numbers.
#[derive(Clone, Copy)]
pub enum Among {
    /// That number.
    One(u32),
    /// Either.
    Two(u32, u32),
    /// One of three.
    Three(u32, u32, u32),
    /// One of four.
    Four(u32, u32, u32, u32),
    /// That number, or a lower one.
    AtMost(u32),
    /// Each but that number.
    Not(u32),
}

/// Storage classes of pointers (SPIR-V Specification 1.6, section 3.7).
#[derive(Clone, Copy)]
pub enum Classes {
    /// Those that a store may name: Workgroup, CrossWorkgroup, Function, Generic.
    Stored,
    /// Those that a load may name: these, and UniformConstant.
    Loaded,
    /// The one of that number.
    Only(u32),
}

/// What a type is to be.
#[derive(Clone, Copy)]
pub enum Wanted {
    /// A type of that kind.
    Kind(Kind),
    Void,
    /// An int, a float, or a vector of ints or floats.
    Numbers,
    /// A float of width 16.
    Half,
    /// It has so many components, where a scalar has one.
    Count(Among),
    /// Its components have such a width, in bits.
    Width(Among),
    /// A pointer of such a storage class.
    Pointer(Classes),
}

/// How a type is to stand to another, the one that is wanted.
#[derive(Clone, Copy)]
pub enum Relation {
    /// It is that type.
    Same,
    /// It has as many components.
    SameCount,
    /// Its components are as wide.
    SameWidth,
    /// Its components are half as wide.
    HalfWidth,
    /// It has the same component type, where that of a scalar is the scalar.
    SameComponent,
    /// It is the component type of that one.
    ComponentOf,
}

/// What a number among the operands is to be.
#[derive(Clone, Copy)]
pub enum Number {
    /// How many components the result type has.
    Count,
    /// A rounding mode: 0 RTE, 1 RTZ, 2 RTP, 3 RTN.
    Rounding,
}

/// A condition of a row.
#[derive(Clone, Copy)]
pub enum Condition {
    /// What a type is to be.
    Type {
        of: Subject,
        wanted: Wanted,
    },
    /// How a type is to stand to another.
    Relation {
        of: Subject,
        relation: Relation,
        to: Subject,
    },
    /// What the operand of that number, which is a number itself, is to be.
    Number {
        at: u8,
        wanted: Number,
    },
}

/// The operand whose type is looked at, as instructions number their operands: 0 is the result type, and 4 the first
/// one behind the number of the instruction of the set.
fn operand_at(subject: Subject) -> u32
    ensures { result ≡ spec.operand_at subject }
{
    match subject {
        Subject::Result => 0,
        Subject::Value(k) | Subject::Pointee(k) => 4 + u32::from(k),
    }
}

/// The operand that fails where a condition does not hold, as instructions number their operands, from 0.
pub fn operand_of(condition: Condition) -> u32
    ensures { result ≡ spec.operand_of condition }
{
    match condition {
        Condition::Type { of, .. } | Condition::Relation { of, .. } => operand_at(of),
        Condition::Number { at, .. } => 4 + u32::from(at),
    }
}
