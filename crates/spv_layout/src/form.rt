use crate::class::Class;
use spv_module::Profile;

/// What an id is used as by an operand (own; SPIR-V Specification 1.6, section 3).
#[derive(Clone, Copy, PartialEq, Eq)]
pub enum Role {
    /// The type of a result, or a type that another type or an OpFunction names.
    OfType,
    /// A value, or a constant.
    Value,
    /// An OpFunction.
    Function,
    /// An OpString.
    Text,
    /// A set of extended instructions.
    Set,
    /// The OpLabel of a block.
    Label,
    /// A variable outside functions.
    Global,
    /// Anything that has an id: what a name or a decoration is given to, or a parameter of a value or a mask.
    Any,
}

/// The kinds that rows name.
#[derive(Clone, Copy)]
pub enum Named {
    SourceLanguage,
    AddressingModel,
    MemoryModel,
    ExecutionModel,
    ExecutionMode,
    Capability,
    StorageClass,
    Decoration,
    FunctionControl,
    MemoryAccess,
    LoopControl,
    SelectionControl,
    Dim,
    ImageFormat,
    AccessQualifier,
    SamplerAddressingMode,
    SamplerFilterMode,
    GroupOperation,
    PackedVectorFormat,
    ImageOperands,
}

/// What a row asks of an operand.
#[derive(Clone, Copy)]
pub enum Form {
    OfType,
    Result,
    Word,
    Number,
    Text,
    /// An id that is used in a role.
    Id(Role),
    /// An id behind the number of an extended instruction. No rule looks at it, unless the module is opened: then it
    /// is a value that the instruction takes, or an id that it names.
    Unseen,
    /// A value or mask of the kind of that name.
    Kind(Named),
    /// Any operand other than a result type or a result.
    Other,
}

/// What may come after the fixed operands of a row.
#[derive(Clone, Copy)]
pub enum Ending {
    /// Nothing.
    Closed,
    /// One operand, or nothing.
    Maybe(Form),
    /// A file, or nothing; and then a text, or nothing.
    FileAndText,
    /// These operands in turn, any number of times.
    Repeated(&'static [Form]),
    /// Any number of other operands.
    Others,
    /// One operand and any number of other operands, or nothing.
    MaybeOthers(Form),
    /// One operand and any number of another, or nothing.
    MaybeRepeated(Form, Form),
}

/// What may come after the fixed operands of a line of the table of shapes.
#[derive(Clone, Copy)]
pub enum After {
    /// Nothing.
    Closed,
    /// One operand, or nothing.
    Maybe,
    /// A file, or nothing; and then a text, or nothing.
    FileAndText,
    /// The operands that the line names, in turn, any number of times.
    Repeated,
    /// Any number of operands other than a result type or a result.
    Others,
    /// One operand and any number of such others, or nothing.
    MaybeOthers,
    /// The first operand that the line names and any number of the second, or nothing.
    MaybeRepeated,
}

/// What a row asks of its fixed operands, of which just one is of a kind.
#[derive(Clone, Copy)]
pub struct Kinded {
    /// Which one that is, from 0.
    pub place: u8,
    /// The sorts, as in `Row`; that of a kind is the one of its masks or of its values.
    pub sorts: u64,
}

/// A row of the table of shapes.
#[derive(Clone, Copy)]
pub struct Row {
    /// Its opcodes, both ends included.
    pub from: u16,
    pub to: u16,
    /// The profile that it belongs to. `OpenCl` has the rows of `Own`, too.
    pub profile: Profile,
    pub class: Class,
    /// The section of its class, if that stands in one alone: one of sections 1 to 8, by number as in `Place`.
    pub section: Option<u8>,
    pub fixed: &'static [Form],
    pub ending: Ending,
    /// Whether the operands that it asks for take one word each, whatever they are.
    pub single: bool,
    /// How many of its fixed operands are known to take one word each: those before the first text or number.
    pub front: u8,
    /// The sorts that its fixed operands ask for, in four bits each from the lowest on, and after them a 9; or 0 where
    /// it has no fixed operands, or one of them is of a kind.
    pub sorts: u64,
    /// What it asks for, if just one of its fixed operands is of a kind.
    pub kind: Option<Kinded>,
}
