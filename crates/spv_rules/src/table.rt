//! The table of codes: of each its name, what it says, and where it is broken.
ghost use Rattle.std.specs.Prelude.{◌≡◌, ◌<◌, [], Some, get_or, length, map, slice_get};
ghost use Rattle.spv_rules.specs.Table.{row_count, rows};
ghost use Rattle.spv_rules.specs.inner.Held.{parts, plain};
ghost use Rattle.spv_rules.specs.declared.table.TheConstants.{WORD_ROWS, INSTRUCTION_ROWS, ORDER_ROWS, PARTS};
ghost use Rattle.spv_rules.specs.declared.table.TheConstants.{ENTRY_ROWS, TYPE_ROWS, FLOW_ROWS, STANDARD_ROWS};

use crate::rules::Code;
use spv_module::Rule;
use spv_words::WordError;

/// A row: a code, its number in C, its name, the name and the sentence as C takes them, the sources that the sentence
/// ends with, and where the code is broken, a line for each place at which it is told. C takes a text with a zero octet
/// at its end.
pub type Row = (
    Code,
    u32,
    &'static str,
    &'static str,
    &'static str,
    &'static str,
    &'static str,
);

/// The row of a code of this variant: its number, its sentence, the sources of that, and where it is broken, as
/// docs/PROFILE.md says it. A source is a section of the Khronos SPIR-V Specification 1.6, or own.
macro_rules! row {
    ($code:expr, $variant:ident, $number:literal, $sentence:literal, $sources:literal, $broken:literal) => {
        (
            $code,
            $number,
            stringify!($variant),
            concat!(stringify!($variant), "\0"),
            concat!($sentence, " [", $sources, "]\0"),
            $sources,
            $broken,
        )
    };
}

/// The row of a code on words.
macro_rules! word {
    ($variant:ident, $($told:literal),*) => {
        row!(Code::Word(WordError::$variant), $variant, $($told),*)
    };
}

/// The row of a rule.
macro_rules! rule {
    ($variant:ident, $($told:literal),*) => {
        row!(Code::Rule(Rule::$variant), $variant, $($told),*)
    };
}

/// How many parts the table has, each a static of its own: what has to be proved of one grows faster than it.
const PARTS: usize = 7;

/// The codes on words, in the order of the variants.
pub static WORD_ROWS: &[Row] = &[
    word!(
        W1,
        1,
        "The module can be read and the output written.",
        "own",
        "reading FILE or writing the output failed, or the output accepted no bytes"
    ),
    word!(
        W2,
        2,
        "A module has at least the five words of its header.",
        "2.3",
        "fewer than 20 bytes: no whole header"
    ),
    word!(
        W3,
        3,
        "A module is a sequence of words: its size is a multiple of four bytes.",
        "2.3",
        "the number of bytes is not a multiple of four"
    ),
    word!(
        W4,
        4,
        "The first word is the magic number 0x07230203, in either byte order.",
        "2.3",
        "the first word is not the magic number in either byte order"
    ),
    word!(
        W5,
        5,
        "The version, word 1, is 1.6: 0x00010600.",
        "2.3; own",
        "the version is not 1.6"
    ),
    word!(
        W6,
        6,
        "The schema, word 4, is 0.",
        "2.3",
        "the schema is not 0"
    ),
    word!(
        W7,
        7,
        "The bound of ids, word 3, is from 1 to 4,194,303.",
        "2.3; own",
        "the bound is 0 or over 4,194,303"
    ),
    word!(
        W8,
        8,
        "A module has at most 16,777,216 bytes.",
        "own",
        "there are more than 16,777,216 bytes; the rest is not read"
    ),
    word!(
        W9,
        9,
        "Memory suffices for the module.",
        "own",
        "there was not enough memory for the module"
    ),
];

/// The rules up to I12, in the order of the variants: on single instructions.
pub static INSTRUCTION_ROWS: &[Row] = &[
    rule!(
        I1,
        101,
        "An instruction has at least one word.",
        "2.3",
        "the word count is 0"
    ),
    rule!(
        I2,
        102,
        "An instruction ends within the module.",
        "2.3",
        "the word count reaches past the end of the module"
    ),
    rule!(
        I3,
        103,
        "The grammar has an instruction with this opcode, the low half of the first word.",
        "3.49",
        "the grammar has no instruction with this opcode"
    ),
    rule!(
        I4,
        104,
        "An instruction has every operand that the grammar requires.",
        "2.3",
        "an operand is missing: the instruction's words end too early, perhaps in the middle of a number"
    ),
    rule!(
        I5,
        105,
        "An instruction has no words after its last operand.",
        "2.3",
        "words are left after the last operand"
    ),
    rule!(
        I6,
        106,
        "A value is one that the grammar has for its kind.",
        "3",
        "a value for which its kind has no enumerant"
    ),
    rule!(
        I7,
        107,
        "Each set bit of a mask is one that the grammar has for its kind.",
        "3",
        "a mask has a bit for which its kind has no enumerant"
    ),
    rule!(
        I8,
        108,
        "A string ends with a zero octet within its instruction.",
        "2.2.1",
        "a string has no zero octet within its instruction"
    ),
    rule!(
        I9,
        109,
        "After the zero octet that ends a string, the rest of its last word is zero.",
        "2.2.1",
        "after the zero octet of a string, the rest of its last word is not zero"
    ),
    rule!(
        I10,
        110,
        "A string is UTF-8.",
        "2.2.1",
        "a string is not UTF-8"
    ),
    rule!(
        I11,
        111,
        "An earlier type gives the width of a number, from 1 to 64 bits.",
        "2.2.1",
        "a number whose width no earlier instruction gives, or is not from 1 to 64 bits"
    ),
    rule!(
        I12,
        112,
        "The kind of a literal says how many words it has.",
        "2.2.1; own",
        "an operand of a kind of category Literal other than LiteralString, LiteralInteger, LiteralFloat, \
        LiteralExtInstInteger and LiteralContextDependentNumber: its number of words is unknown"
    ),
];

/// The rules after them up to Y1: on what an opcode asks, the order of instructions, and ids.
pub static ORDER_ROWS: &[Row] = &[
    rule!(
        P1,
        201,
        "The instruction has a row in the table of shapes, and the operands of that row: docs/PROFILE.md, 'Shapes of \
        the instructions'.",
        "own",
        "the opcode has no row, or the operands are not those of its row"
    ),
    rule!(
        L1,
        301,
        "Instructions come in the order of sections, functions and blocks; a block ends with a branch, return or \
        OpUnreachable before the next OpLabel.",
        "2.4",
        "no module can begin with the instructions up to this one, but one can begin with those before it"
    ),
    rule!(
        L2,
        302,
        "A module has a memory model, and each function and block has its end.",
        "2.4",
        "the module is incomplete: something is missing at the end"
    ),
    rule!(
        D1,
        401,
        "An id is not 0 and is below the bound.",
        "2.3",
        "a result, a use or, with --extended, an id that an extended instruction names is 0 or not below the bound \
        [2.3]"
    ),
    rule!(
        D2,
        402,
        "An id is the result of one instruction only.",
        "2.16",
        "a result that an earlier instruction already has [2.16]"
    ),
    rule!(
        D3,
        403,
        "An id that is used is the result of some instruction.",
        "2.16",
        "a use or, with --extended, an id that an extended instruction names is the result of no instruction of the \
        module"
    ),
    rule!(
        D4,
        404,
        "Among types, constants and variables outside functions, and in the first debug section, an id is used only \
        after the instruction that defines it, except for forward pointers.",
        "2.4",
        "a use in section 7a or 9, or by a line there, that is the result of no earlier instruction [2.4, 9]. Two uses \
        in section 9 may come before the definition: the operand of OpTypeForwardPointer, and a member of an \
        OpTypeStruct that an earlier OpTypeForwardPointer names"
    ),
    rule!(
        D5,
        405,
        "An id that is defined in a function is used only in that function, except by names and decorations.",
        "2.16",
        "in sections 9 to 11, a use of a local id by an instruction outside every function to which the id is local \
        [2.16]"
    ),
    rule!(
        Y1,
        501,
        "An id is used in the role that it has: type, value, function, string, instruction set or global variable.",
        "2.16; own",
        "the definition of a used id does not have the role that the shape requires: a type is the result of an \
        instruction with an opcode from 19 to 33; a value is the result of an instruction with a result type, other \
        than OpFunction; a function is an OpFunction; a string an OpString; a set an OpExtInstImport; a global an \
        OpVariable before the first function. The rules of flow check labels; any requires nothing"
    ),
];

/// The rules after Y1 up to E2: on capabilities, the memory model and entry points.
pub static ENTRY_ROWS: &[Row] = &[
    rule!(
        C1,
        601,
        "The module is a kernel module: the capability Kernel is declared or implied, and Shader is not.",
        "2.16.1; own",
        "OpMemoryModel: Kernel is not implied, or Shader is"
    ),
    rule!(
        C2,
        602,
        "If an instruction, value, width or count needs one of certain capabilities, at least one of them is declared \
        or implied.",
        "3.31",
        "any instruction: the grammar's entry for the instruction, or for a value or a set bit of a mask among its \
        operands (except values of the kind Capability), lists capabilities, and none of them is implied; a name that \
        the kind Capability lacks is never implied. Or a width or count needs one that is not implied: OpTypeInt of 16 \
        bits Int16, of 64 bits Int64; OpTypeFloat of 64 bits Float64, of 16 bits Float16Buffer or Float16; \
        OpTypeVector of 8 or 16 components Vector16"
    ),
    rule!(
        M1,
        701,
        "The addressing model is Physical32 or Physical64, and the memory model is OpenCL.",
        "3.4, 3.5; own",
        "OpMemoryModel: the addressing model is neither Physical32 (1) nor Physical64 (2), or the memory model is not \
        OpenCL (2)"
    ),
    rule!(
        E1,
        801,
        "The module has an entry point or the capability Linkage.",
        "2.16.1",
        "OpMemoryModel: there is no OpEntryPoint, and Linkage is not implied"
    ),
    rule!(
        E2,
        802,
        "An entry point is a kernel that is defined, returns void and is never called; OpExecutionMode names an entry \
        point; a function has linkage Import if and only if it has no body.",
        "2.16.1",
        "OpEntryPoint: the execution model is not Kernel (6), or the function is a declaration, has a result type \
        other than void, or is called by an OpFunctionCall\nOpExecutionMode: its function is not that of an \
        OpEntryPoint\nOpFunction: a declaration to which no OpDecorate gives the decoration LinkageAttributes (41) \
        with a text and the LinkageType Import (1), or a definition to which one does"
    ),
];

/// The rules after E2 up to Y8: on types.
pub static TYPE_ROWS: &[Row] = &[
    rule!(
        Y2,
        502,
        "A type's width, signedness (0), count, length and parts are allowed ones: see `spv rules Y2`.",
        "3.49.6",
        "OpTypeInt: width 8, 16, 32 or 64, signedness 0. OpTypeFloat: width 16, 32 or 64. OpTypeVector: 2, 3, 4, 8 or \
        16 components of an int, float or bool type. OpTypeArray: elements of a data type, and the length is an \
        OpConstant or OpSpecConstant of an int type with a value of at least 1. OpTypeStruct: members of data types. \
        OpTypePointer: to a data type or an opaque type. OpTypeFunction: it returns void or a data type, and its \
        parameters are of data types. OpTypeForwardPointer: its id is that of a later OpTypePointer of the same \
        storage class; it may name an id twice (own)."
    ),
    rule!(
        Y3,
        503,
        "A type other than an array, struct or pointer is declared only once.",
        "2.8",
        "a type: an OpTypeVoid, OpTypeBool, OpTypeInt, OpTypeFloat, OpTypeVector, OpTypeOpaque or OpTypeFunction with \
        the same opcode and, apart from its result, the same operands as an earlier one [2.8]"
    ),
    rule!(
        Y4,
        504,
        "A constant fits its type: a bool, a number within its width, or one constituent of the right type for each \
        part.",
        "3.49.7",
        "OpConstantTrue, OpConstantFalse and their spec forms: of type bool. OpConstant, OpSpecConstant: of an int or \
        float type; the bits above a width under 32 are 0. OpConstantComposite, OpSpecConstantComposite: of a vector, \
        array or struct type, with one constituent for each part, of the part's type; each is an OpUndef, \
        OpConstantTrue, OpConstantFalse, OpConstant, OpConstantComposite or OpConstantNull, in the spec form also a \
        spec constant. OpConstantNull: of a data type."
    ),
    rule!(
        Y5,
        505,
        "The result and the operands have the types that the operation requires: docs/PROFILE.md, 'Operations'.",
        "3.49",
        "each operation has its own conditions: docs/PROFILE.md has the table of operations"
    ),
    rule!(
        Y6,
        506,
        "A function and its parameters have the types that its function type names.",
        "3.49.9",
        "OpFunction: its last operand is not an OpTypeFunction, or is one whose return type is not the result type, or \
        whose number of parameters is not the function's\nOpFunctionParameter: its type is not the one at its place in \
        the function's OpTypeFunction"
    ),
    rule!(
        Y7,
        507,
        "OpReturn is used only in a function that returns void, and OpReturnValue returns a value of the function's \
        result type.",
        "3.49.17",
        "OpReturn, OpReturnValue: OpReturn in a function whose result type is not void; OpReturnValue of a value whose \
        type is not the function's result type"
    ),
    rule!(
        Y8,
        508,
        "The result type and the arguments of a call match the callee's function type.",
        "3.49.9",
        "OpFunctionCall: its result type, or the types of its arguments in number and order, are not those of the \
        callee's OpTypeFunction, or the callee has none"
    ),
];

/// The rules after Y8: on flow and availability, and the last ones.
pub static FLOW_ROWS: &[Row] = &[
    rule!(
        F1,
        901,
        "Each label that a branch or a merge names is an OpLabel.",
        "2.4",
        "a terminator or a merge: a label that it names is not an OpLabel [2.4]"
    ),
    rule!(
        F2,
        902,
        "No branch leads to the first block of a function.",
        "2.4",
        "a terminator: a target is the label of an entry block, the first OpLabel of a function [2.4]"
    ),
    rule!(
        F3,
        903,
        "The parents that OpPhi names are the predecessors of its block, each once.",
        "3.49.17",
        "OpPhi: the parents that it names are not the predecessors of its block, each exactly once [OpPhi]"
    ),
    rule!(
        F4,
        904,
        "The two labels of OpBranchConditional are different.",
        "3.49.17",
        "OpBranchConditional: its two labels are the same"
    ),
    rule!(
        A1,
        1001,
        "A value is defined, on every walk through the function, before it is used.",
        "2.16",
        "any instruction but OpPhi: some walk ends there, and a local value that it uses is the result of no earlier \
        place of the walk [2.16]"
    ),
    rule!(
        A2,
        1002,
        "A value that OpPhi pairs with a parent is defined on every walk to that parent's end.",
        "2.16",
        "OpPhi: some walk ends there, and the value paired with the block that the walk came from is local and is the \
        result of no place before the walk's last OpLabel [2.16]"
    ),
    rule!(
        G1,
        1101,
        "Functions that an entry point reaches do not call each other in a cycle: no recursion.",
        "own",
        "OpFunctionCall in a definition f of a definition g: a chain of calls leads from the function of an \
        OpEntryPoint to f, and one leads from g back to f (own)"
    ),
    rule!(
        Y9,
        509,
        "OpExtInst with the set OpenCL.std calls an instruction that the set has, with as many operands as it takes.",
        "3.49.4",
        "OpExtInst of a set that OpExtInstImport names OpenCL.std: the set has no instruction with its number, or one \
        that takes fewer or more operands; checked only with --extended (own)"
    ),
    rule!(
        Y10,
        510,
        "OpExtInst with the set OpenCL.std has the types and the numbers that its instruction asks.",
        "OpenCL Extended Instruction Set",
        "OpExtInst of a set that OpExtInstImport names OpenCL.std: its result type, the type of an operand or a number \
        among the operands is not what the instruction of that number asks; checked only with --opencl (own)"
    ),
];

/// The rules on what the standard asks of a kernel of OpenCL besides. They are checked only with `--opencl`.
pub static STANDARD_ROWS: &[Row] = &[
    rule!(
        O1,
        1301,
        "A block stands behind the block that dominates it nearest.",
        "2.2.5, 2.16.1",
        "OpLabel: some walk ends there, and a block of the same definition that stands higher is on every walk that \
        ends there"
    ),
    rule!(
        O2,
        1302,
        "A local value is defined before an instruction that uses it, but for OpPhi.",
        "2.16.1",
        "an instruction of a block, other than OpPhi: it uses a local value that is the result of no lower \
        instruction"
    ),
    rule!(
        O3,
        1303,
        "No two entry points have the same execution model and the same name.",
        "3.49.5",
        "OpEntryPoint: a lower OpEntryPoint has the same execution model and the same name"
    ),
    rule!(
        O4,
        1304,
        "The interface of an entry point has the variables that its call tree uses: from 1.4 on all of section 9, \
        each once; before, those of Input and Output alone.",
        "3.49.5",
        "OpEntryPoint: from 1.4 on, an id is twice in its interface, or a variable of section 9 is not there that a \
        definition uses to which a chain of calls leads from its function; before 1.4, a variable in it is of \
        another storage class than Input (1) and Output (3), or one of these classes is not there that is used so"
    ),
    rule!(
        O5,
        1305,
        "OpExecutionMode has no operand that is an id.",
        "3.49.5",
        "OpExecutionMode: an operand behind its mode is an id"
    ),
    rule!(
        O6,
        1306,
        "What names or decorates a member names one that its struct has.",
        "3.49.2, 3.49.3",
        "OpMemberName, OpMemberDecorate, OpMemberDecorateString: the target is no OpTypeStruct, or the number is not \
        below that struct's number of members"
    ),
    rule!(
        O7,
        1307,
        "A decoration stands on what it may decorate, and OpDecorate takes no ids: docs/PROFILE.md, 'Decorations'.",
        "3.20, 3.49.3",
        "an instruction by which an id or a member has a decoration: an operand of OpDecorate behind its decoration \
        is an id; or an id has a decoration of the table that does not stand on such ids; or a member has one of \
        those that never stand on members"
    ),
    rule!(
        O8,
        1308,
        "No id is decorated both Restrict and Aliased.",
        "2.18.2",
        "an instruction by which an id has Restrict (19) or Aliased (20): the id has both, and of the least \
        instruction by which it has the one and the least by which it has the other, this is the greater"
    ),
    rule!(
        O9,
        1309,
        "The function of an entry point has no linkage.",
        "2.16.1",
        "an instruction by which a function has LinkageAttributes (41): the function is that of an OpEntryPoint"
    ),
    rule!(
        O10,
        1310,
        "A variable with an initializer is neither of the storage class Input nor imported.",
        "2.16.1, 3.7",
        "OpVariable with an initializer: its storage class is Input (1), or it has LinkageAttributes (41) with the \
        LinkageType Import (1)"
    ),
    rule!(
        O11,
        1311,
        "Of a struct's members all have BuiltIn or none, and a struct with such members is no member.",
        "2.16.1",
        "OpTypeStruct: one of its members has BuiltIn (11) and another has not, or a member's type is an \
        OpTypeStruct with a member that has BuiltIn"
    ),
    rule!(
        O12,
        1312,
        "A forward pointer is one to a struct.",
        "3.49.6",
        "OpTypeForwardPointer: the pointer type that it names points to what is no OpTypeStruct"
    ),
    rule!(
        O13,
        1313,
        "Ints of 8 bits are declared by a capability, and the Vulkan memory model is not.",
        "2.16.1, 3.31",
        "OpTypeInt of 8 bits: none of Int8 (39), StorageBuffer8BitAccess (4448), UniformAndStorageBuffer8BitAccess \
        (4449) and StoragePushConstant8 (4450) is implied\nOpMemoryModel: VulkanMemoryModel (5345) is implied"
    ),
    rule!(
        O14,
        1314,
        "Scopes and memory semantics are ones that the instruction takes: docs/PROFILE.md, 'Scopes and semantics'.",
        "3.25, 3.27, 3.49.18, 3.49.20",
        "an instruction with a scope or memory semantics, where that operand is a constant: the scope is over 4, or \
        of a group instruction neither Workgroup (2) nor Subgroup (3); the semantics have two orders, or a bit that \
        no kernel has, or of OpAtomicCompareExchange and OpAtomicFlagClear an order that does not go there"
    ),
    rule!(
        O15,
        1315,
        "An atomic works on numbers of a width that atomics take.",
        "2.16.1, 3.31",
        "opcodes 227 to 242: the type pointed to is int of width 8 or 16; or int of width 64, and Int64Atomics (12) \
        is not implied; or float of width 16, and neither AtomicFloat16MinMaxEXT (5616) nor AtomicFloat16AddEXT \
        (6095) is"
    ),
    rule!(
        O16,
        1316,
        "Nothing is written to the storage classes UniformConstant and Input.",
        "2.16.1, 3.7",
        "OpStore, OpCopyMemory, OpCopyMemorySized, an atomic: the storage class of its pointer is UniformConstant \
        (0) or Input (1)"
    ),
    rule!(
        O17,
        1317,
        "The size of a copy is not the constant 0.",
        "3.49.8",
        "OpCopyMemorySized: its size is a constant of an int type with the value 0"
    ),
    rule!(
        O18,
        1318,
        "The bits of a loop control go together, and the weights of a branch have a sum from 1 to 4,294,967,295.",
        "3.23, 3.49.17",
        "OpLoopMerge: its control has Unroll (1) with DontUnroll (2), DontUnroll with PeelCount (128) or \
        PartialCount (256), DependencyInfinite (4) with DependencyLength (8), or IterationMultiple (64) with the \
        number 0\nOpBranchConditional with two weights: their sum is 0 or over 4,294,967,295"
    ),
    rule!(
        O19,
        1319,
        "The literals of a switch are different, and each fits the width of the selector's type.",
        "2.2.1, 3.49.17",
        "OpSwitch: two of its literals are equal, or one has a bit from the width of the selector's type up"
    ),
    rule!(
        O20,
        1320,
        "A value that is returned is of no void type.",
        "2.2.2, 3.49.17",
        "OpReturnValue: the type of its value is OpTypeVoid"
    ),
    rule!(
        O21,
        1321,
        "What a module uses came with its version or before, or by an extension that it declares: docs/PROFILE.md, \
        'The version of the header'.",
        "3, 3.49.4; own",
        "any instruction: its opcode, or a value or a set bit among its operands, came with a later version than \
        that of the header, or with none, and no OpExtension of the module names an extension that has it; or it \
        has a form that came with a later version, or is an instruction that went with an earlier one"
    ),
    rule!(
        O22,
        1322,
        "No universal limit is passed: docs/PROFILE.md, 'Limits'.",
        "2.17",
        "any instruction: by it a number of the table of limits is passed, as the members of a struct, the depth of \
        structs, the parameters of a function type, the indexes of an access, the pairs of a switch or the \
        variables of the module"
    ),
    rule!(
        O23,
        1323,
        "A sampled image is made in the block that uses it, by OpSampledImage.",
        "3.49.10",
        "opcodes 88, 100: the definition of the first value operand is no OpSampledImage, or one of another block"
    ),
];

/// The rows of the codes on words.
fn word_rows() -> &'static [Row]
    ensures same { map plain result.now ≡ WORD_ROWS.now }
    ensures long { length result.now ≡ length WORD_ROWS.now }
{
    WORD_ROWS
}

/// The rows of the rules on single instructions.
fn instruction_rows() -> &'static [Row]
    ensures same { map plain result.now ≡ INSTRUCTION_ROWS.now }
    ensures long { length result.now ≡ length INSTRUCTION_ROWS.now }
{
    INSTRUCTION_ROWS
}

/// The rows of the rules after them up to Y1.
fn order_rows() -> &'static [Row]
    ensures same { map plain result.now ≡ ORDER_ROWS.now }
    ensures long { length result.now ≡ length ORDER_ROWS.now }
{
    ORDER_ROWS
}

/// The rows of the rules after Y1 up to E2.
fn entry_rows() -> &'static [Row]
    ensures same { map plain result.now ≡ ENTRY_ROWS.now }
    ensures long { length result.now ≡ length ENTRY_ROWS.now }
{
    ENTRY_ROWS
}

/// The rows of the rules after E2 up to Y8.
fn type_rows() -> &'static [Row]
    ensures same { map plain result.now ≡ TYPE_ROWS.now }
    ensures long { length result.now ≡ length TYPE_ROWS.now }
{
    TYPE_ROWS
}

/// The rows of the rules after Y8.
fn flow_rows() -> &'static [Row]
    ensures same { map plain result.now ≡ FLOW_ROWS.now }
    ensures long { length result.now ≡ length FLOW_ROWS.now }
{
    FLOW_ROWS
}

/// The rows of the rules on what the standard asks besides.
fn standard_rows() -> &'static [Row]
    ensures same { map plain result.now ≡ STANDARD_ROWS.now }
    ensures long { length result.now ≡ length STANDARD_ROWS.now }
{
    STANDARD_ROWS
}

/// How many rows there are.
pub fn count() -> usize
    ensures { result ≡ row_count }
{
    let of_orders = word_rows().len() + instruction_rows().len() + order_rows().len();
    of_orders + entry_rows().len() + type_rows().len() + flow_rows().len() + standard_rows().len()
}

/// The rows of one part of the table.
fn part_at(part: usize) -> &'static [Row]
    requires { part < PARTS }
    ensures { map plain result.now ≡ get_or parts part [] }
{
    match part {
        0 => word_rows(),
        1 => instruction_rows(),
        2 => order_rows(),
        3 => entry_rows(),
        4 => type_rows(),
        5 => flow_rows(),
        _ => standard_rows(),
    }
}

/// The row at a place.
pub fn row_at(place: usize) -> &'static Row
    requires { place < row_count }
    ensures { slice_get rows place ≡ Some (plain result.now) }
{
    let mut left = place;
    for part in 0..PARTS {
        let rows = part_at(part);
        if left < rows.len() {
            return &rows[left];
        }
        left -= rows.len();
    }
    unreachable!()
}
