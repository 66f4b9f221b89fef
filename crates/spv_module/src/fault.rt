ghost use Rattle.std.specs.Prelude.{◌≡◌};

use std::alloc::{AllocError, AllocFailed};

/// A rule of the profile, by its code: I of single instructions, P of the profile, L of layout, D of ids, Y, C, M and E
/// of types and declarations, F and A of flow, G of calls, and O of what the standard asks of a kernel of OpenCL
/// besides, which is asked only where a module is looked at as one. They stand in the order in which they are told: by
/// stage, and within a stage at one instruction. The numbers in brackets are sections of the Khronos SPIR-V
/// Specification 1.6, and names are those of instructions in it.
#[derive(Clone, Copy, PartialEq, Eq)]
pub enum Rule {
    /// The first word of an instruction tells a count of 0 words. (2.3)
    I1,
    /// The count passes the end of the module. (2.3)
    I2,
    /// The opcode has no entry in the grammar table.
    I3,
    /// An operand's word is missing; it is reported as the word after the instruction's last.
    I4,
    /// Words are left after the pattern of the operands.
    I5,
    /// A value that no enumerant of its kind has.
    I6,
    /// A mask with a set bit that no enumerant of its kind has.
    I7,
    /// A string without a zero octet in its instruction. (2.2.1)
    I8,
    /// Octets other than zero after the end of a string, in its last word. (2.2.1)
    I9,
    /// A string that is not UTF-8. (2.2.1)
    I10,
    /// A number of unknown width.
    I11,
    /// A literal of a kind that the profile does not know.
    I12,
    /// An instruction outside the profile.
    P1,
    /// An instruction that no module may have at its place. (2.4)
    L1,
    /// The module ends too early. (2.4)
    L2,
    /// An id that is 0 or not below the bound. (2.3)
    D1,
    /// A result that an earlier instruction has. (2.16)
    D2,
    /// A use of an id that no instruction has as its result. (2.16)
    D3,
    /// A use before the definition, where the order counts. (2.16)
    D4,
    /// A use of a local id outside its function. (2.16)
    D5,
    /// A use of an id in another role than the operand asks for.
    Y1,
    /// Kernel is not declared or implied, or Shader is. (2.16)
    C1,
    /// A capability that is missing. (2.16)
    C2,
    /// The addressing or memory model.
    M1,
    /// No entry point, and no Linkage.
    E1,
    /// An entry point, an execution mode, or the linkage of a function.
    E2,
    /// A type declaration.
    Y2,
    /// A type that is declared twice. (2.8)
    Y3,
    /// A constant.
    Y4,
    /// The types of an instruction's operands or result.
    Y5,
    /// A function or a parameter against the function's type.
    Y6,
    /// A return against the function's result type.
    Y7,
    /// A call against the callee's type.
    Y8,
    /// A label operand that is no label.
    F1,
    /// A branch to a function's entry block.
    F2,
    /// An OpPhi whose parents are not the block's predecessors.
    F3,
    /// A conditional branch with equal labels.
    F4,
    /// A value that is used where some walk does not have it.
    A1,
    /// A value of an OpPhi that some walk does not have.
    A2,
    /// A call on a cycle of calls that an entry point reaches.
    G1,
    /// An extended instruction that its set does not have, or with fewer or more operands than it takes. It is asked
    /// only where a module is looked at with its extended instructions.
    Y9,
    /// The types that an instruction of OpenCL.std takes or returns. It is asked only where a module is looked at as a
    /// kernel of OpenCL.
    Y10,
    /// The order of a definition's blocks. (2.16.1)
    O1,
    /// A use of a local value before its definition, in a block that no walk reaches. (2.16.1)
    O2,
    /// Two entry points of one execution model and one name. (OpEntryPoint)
    O3,
    /// The interface of an entry point. (OpEntryPoint)
    O4,
    /// An execution mode of OpExecutionMode that takes an id. (OpExecutionMode)
    O5,
    /// A member that is named or decorated. (OpMemberName, OpMemberDecorate)
    O6,
    /// A decoration on what it may not decorate. (3.20)
    O7,
    /// Restrict and Aliased of one id. (2.18.2)
    O8,
    /// The linkage of an entry point's function. (2.16.1)
    O9,
    /// An initializer of a variable that takes none. (3.7, 2.16.1)
    O10,
    /// BuiltIn on members of a struct. (2.16.1)
    O11,
    /// A forward pointer to what is no struct. (OpTypeForwardPointer)
    O12,
    /// An int of 8 bits, or a memory model, against the capabilities. (2.16.1, 3.31)
    O13,
    /// A scope, or memory semantics. (3.25, 3.27)
    O14,
    /// The width of what an atomic works on. (2.16.1)
    O15,
    /// A write to a storage class that is read alone. (3.7)
    O16,
    /// A copy of nothing. (OpCopyMemorySized)
    O17,
    /// A loop control, or the weights of a branch. (3.23, OpBranchConditional)
    O18,
    /// The literals of OpSwitch. (OpSwitch)
    O19,
    /// OpReturnValue of what is no value. (OpReturnValue)
    O20,
    /// What the version of the header does not have. (3, OpExtension)
    O21,
    /// A universal limit. (2.17)
    O22,
    /// Where a sampled image is made. (OpSampledImage)
    O23,
}

/// The first broken rule of a module, and where.
#[derive(Clone, Copy, PartialEq, Eq)]
pub struct Fault {
    pub rule: Rule,
    /// The number of the instruction, from 0.
    pub inst: u32,
    /// The number of the word in the module, from 0.
    pub word: u32,
}

/// Why a layer stops.
#[derive(Clone, Copy)]
pub enum Stop {
    Fault(Fault),
    /// A growth of memory was refused.
    Memory,
}

impl From<AllocError> for Stop {
    ghost use Rattle.spv_module.specs.declared.fault.Stop.TheVariants.{Memory};

    ghost from_gives = { λ _ e. e ≡ Memory };

    fn from(_e: AllocError) -> Stop {
        Stop::Memory
    }
}

impl<T: Drop> From<AllocFailed<T>> for Stop {
    ghost use Rattle.spv_module.specs.declared.fault.Stop.TheVariants.{Memory};

    ghost from_gives = { λ _ e. e ≡ Memory };

    fn from(_e: AllocFailed<T>) -> Stop {
        Stop::Memory
    }
}
