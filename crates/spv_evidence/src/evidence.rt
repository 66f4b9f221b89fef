use crate::condition::Condition;
use spv_layout::Role;
use spv_table::Listed;

/// What lists the capabilities of which none is there (C2).
#[derive(Clone, Copy, PartialEq, Eq)]
pub enum Lister {
    /// The entry of the instruction's opcode.
    Entry,
    /// The value that the operand of that number is.
    Value { operand: u32 },
    /// A bit of the mask that the operand of that number is. The bit is given by its value.
    Bit { operand: u32, bit: u32 },
    /// The width of a number, or the count of a vector's components.
    Width,
    /// The type that is declared: an image or sampler type.
    Type,
    /// The access qualifier of an image type.
    Access,
}

/// Which part of E2 is broken.
#[derive(Clone, Copy, PartialEq, Eq)]
pub enum EntryPart {
    /// The execution model of an OpEntryPoint is not Kernel.
    Model,
    /// The function of an OpEntryPoint is a declaration.
    Declared,
    /// The function of an OpEntryPoint does not return void.
    Returns,
    /// The function of an OpEntryPoint is called, by the OpFunctionCall of that number.
    Called { inst: u32 },
    /// The function of an OpExecutionMode or OpExecutionModeId is that of no OpEntryPoint.
    Unnamed,
    /// A definition is imported, by the OpDecorate of that number.
    Imported { inst: u32 },
    /// A declaration is not imported.
    Missing,
}

/// Where two types, or two counts, are to be the same (Y6 to Y8).
#[derive(Clone, Copy, PartialEq, Eq)]
pub enum Side {
    /// The type of a function, which is to be an OpTypeFunction. What is found is its id.
    Function,
    /// The type that a function returns: of an OpFunction, a return or a call.
    Return,
    /// How many parameters or arguments there are.
    Number,
    /// The parameter of that number, from 0.
    Parameter { number: u32 },
    /// The argument of that number, from 0.
    Argument { number: u32 },
}

/// What shows that a rule is broken at an instruction, in numbers alone. Operands and instructions count from 0; a
/// block goes by the number of its OpLabel, and a function by that of its OpFunction.
#[derive(Drop)]
pub enum Evidence {
    /// I1 to I3: the opcode.
    Opcode {
        opcode: u16,
    },
    /// I4 to I12: the opcode, the number of the operand that fails, and the number of the kind that is due there. None
    /// is due where words are left (I5).
    Due {
        opcode: u16,
        operand: u32,
        kind: Option<u32>,
    },
    /// P1: the opcode, and whether the profile has it.
    Shape {
        opcode: u16,
        known: bool,
    },
    /// L1 and L2: the opcodes that may come at that place, and whether the module may end there.
    MayCome {
        opcodes: Listed<u32>,
        end: bool,
    },
    /// The rules D, F, M, Y10 and O that one operand breaks: that operand.
    Operand {
        operand: u32,
    },
    /// D2, Y3, O3 and O7 to O10: the earlier instruction that has the same result, or declares the same type, or speaks
    /// against this one.
    Earlier {
        inst: u32,
    },
    /// D4 and F1: the operand, and the instruction that defines its id.
    Defined {
        operand: u32,
        inst: u32,
    },
    /// D5: the operand, an instruction that defines its id, and the function that this is local to.
    Local {
        operand: u32,
        inst: u32,
        function: u32,
    },
    /// Y1: the operand, the role in which it is used, and the instruction that defines its id.
    Miscast {
        operand: u32,
        role: Role,
        inst: u32,
    },
    /// C1 and O13: a capability that a kernel has and that is not implied, or one that it has not and that is implied.
    Capability {
        capability: u32,
        implied: bool,
    },
    /// C2: what lists the capabilities of which none is implied.
    Needs {
        lister: Lister,
    },
    /// E1: there is no entry point.
    NoEntry,
    /// O4: an OpVariable that has to be in the interface and is not; functions of which each calls the next, from that of
    /// the entry point to one that uses the variable; and an instruction of that one which does.
    NotInInterface {
        variable: u32,
        calls: Listed<u32>,
        user: u32,
    },
    /// E2: which part of the rule is broken.
    Entry {
        part: EntryPart,
    },
    /// Y2, Y4 and Y5: the first condition that fails; the operand at which it does, if it is one, and the instruction
    /// that defines the id of that operand; where two types are compared, the one that is wanted and the one that is
    /// found; and the types that the condition reads. Types are ids.
    Condition {
        condition: Condition,
        operand: Option<u32>,
        defined: Option<u32>,
        wanted: Option<u32>,
        found: Option<u32>,
        types: Listed<u32>,
    },
    /// Y6 to Y8: where types or counts differ, and the ones that are wanted and found there, if any is; and the
    /// OpTypeFunction that is asked, the function's (Y6) or the callee's (Y8). Types are ids.
    Mismatch {
        side: Side,
        wanted: Option<u32>,
        found: Option<u32>,
        of: Option<u32>,
    },
    /// F3: a predecessor that no pair names, and all predecessors.
    MissingParent {
        block: u32,
        predecessors: Listed<u32>,
    },
    /// F3: the operand that names a parent which is no predecessor, and all predecessors.
    NoPredecessor {
        operand: u32,
        predecessors: Listed<u32>,
    },
    /// F3: the two operands that name one parent, and all predecessors.
    Twice {
        first: u32,
        second: u32,
        predecessors: Listed<u32>,
    },
    /// A1 and A2: the operand, the instruction that defines its value, and the blocks of a walk on which the value is
    /// not defined, from the entry block of the function to the block of the instruction.
    Walk {
        operand: u32,
        inst: u32,
        walk: Listed<u32>,
    },
    /// G1: functions of which each calls the next, from an entry point's to the caller, and from the callee to the
    /// caller.
    Cycle {
        calls: Listed<u32>,
        cycle: Listed<u32>,
    },
    /// Y9: the number of the extended instruction, how many operands stand behind it, and how many its set's
    /// instruction takes at least and at most: no least number where the set has no instruction of that number, and
    /// no most where it takes any.
    Miscalled {
        number: u32,
        operands: u32,
        least: Option<u32>,
        most: Option<u32>,
    },
    /// O1: a block of the same function that stands higher, by which each walk to this one comes.
    OnTheWay {
        block: u32,
    },
    /// O4, O11, O18 and O19: two operands that may not stand beside each other.
    Pair {
        first: u32,
        second: u32,
    },
    /// O7: an operand, and the instruction that gives a group a decoration which may not stand on the operand's id.
    ByGroup {
        operand: u32,
        inst: u32,
    },
    /// O21: what the version of the header does not have, an opcode, a value or a bit; and the number of the line of
    /// spv_versions' table that tells which versions and extensions have it.
    Late {
        lister: Lister,
        line: u32,
    },
    /// O22: the greatest number that is allowed, which is passed.
    Past {
        most: u32,
    },
}
