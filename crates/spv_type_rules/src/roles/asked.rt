//! Which roles an instruction asks its ids to play, by its opcode.

ghost use Rattle.std.specs.Prelude.{◌≡◌, Some, IfSome, false};
ghost use Rattle.spv_type_rules.specs.roles.inner.Asked as spec;

use spv_layout::Role;
use spv_module::opcode;

/// The roles that the `Id` operands of an instruction are asked to play. Each `OfType` operand is asked to be a type,
/// and each `Argument` to be a value.
#[derive(Clone, Copy)]
pub struct Asked {
    /// The role of the first `Id` operand.
    pub first: Role,
    /// The role of the others before a mask.
    pub others: Role,
    /// The role of those after a mask.
    pub masked: Role,
}

/// Roles of the first `Id` operand, of the others, and of those after a mask.
#[inline(always)]
fn ask(first: Role, others: Role, masked: Role) -> Option<Asked>
    ensures { result ≡ spec.ask first others masked }
{
    Some(Asked {
        first,
        others,
        masked,
    })
}

/// What `asked_of` answers of opcodes up to that of OpVariable.
fn early(number: u16) -> Option<Asked>
    ensures { IfSome result (λ a. spec.early number ≡ Some a) }
{
    match number {
        // Composite constants and OpVariable: values.
        opcode::CONSTANT_COMPOSITE | opcode::SPEC_CONSTANT_COMPOSITE | opcode::VARIABLE => ask(
            Role::Value,
            Role::Value,
            Role::Any,
        ),
        // OpTypeVector, Struct, Pointer, Function, ForwardPointer, Image and SampledImage, and OpFunction: types.
        opcode::TYPE_VECTOR
        | opcode::TYPE_STRUCT
        | opcode::TYPE_POINTER
        | opcode::TYPE_FUNCTION
        | opcode::TYPE_FORWARD_POINTER
        | opcode::TYPE_IMAGE
        | opcode::TYPE_SAMPLED_IMAGE
        | opcode::FUNCTION => ask(Role::OfType, Role::OfType, Role::OfType),
        // OpTypeArray: a type, and its length.
        opcode::TYPE_ARRAY => ask(Role::OfType, Role::Value, Role::Value),
        // OpFunctionCall: a function, and its arguments.
        opcode::FUNCTION_CALL => ask(Role::Function, Role::Value, Role::Value),
        // OpEntryPoint: a function, and variables of the module.
        opcode::ENTRY_POINT => ask(Role::Function, Role::Global, Role::Global),
        // OpExecutionMode: a function.
        opcode::EXECUTION_MODE => ask(Role::Function, Role::Any, Role::Any),
        // OpLine: a file.
        opcode::LINE => ask(Role::Text, Role::Text, Role::Text),
        opcode::EXT_INST | opcode::SOURCE => None,
        _ => ask(Role::Any, Role::Any, Role::Any),
    }
}

/// What `asked_of` answers of opcodes past that of OpVariable that are not between others.
#[inline(always)]
fn late(number: u16) -> Option<Asked>
    ensures { IfSome result (λ a. spec.late number ≡ Some a) }
{
    match number {
        // OpLabel and OpBranch, which are the most: nothing.
        opcode::LABEL..=opcode::BRANCH => ask(Role::Any, Role::Any, Role::Any),
        // OpReturnValue and lifetimes: values.
        opcode::RETURN_VALUE | opcode::LIFETIME_START | opcode::LIFETIME_STOP => ask(
            Role::Value,
            Role::Value,
            Role::Any,
        ),
        // OpBranchConditional and OpSwitch: a value, and labels.
        opcode::BRANCH_CONDITIONAL | opcode::SWITCH => ask(Role::Value, Role::Any, Role::Any),
        // OpExecutionModeId: a function.
        opcode::EXECUTION_MODE_ID => ask(Role::Function, Role::Any, Role::Any),
        // Images, groups, pipes, queues and events, and dot products: values.
        opcode::IMAGE_TEXEL_POINTER
        | opcode::SAMPLED_IMAGE..=opcode::IMAGE_QUERY_SAMPLES
        | opcode::GROUP_ASYNC_COPY..=opcode::ENQUEUE_MARKER
        | opcode::RETAIN_EVENT..=opcode::BUILD_ND_RANGE
        | opcode::ATOMIC_FLAG_TEST_AND_SET..=opcode::CREATE_PIPE_FROM_PIPE_STORAGE
        | opcode::NAMED_BARRIER_INITIALIZE..=opcode::MEMORY_NAMED_BARRIER
        | opcode::GROUP_NON_UNIFORM_ELECT..=opcode::PTR_DIFF
        | opcode::S_DOT..=opcode::SU_DOT_ACC_SAT => ask(Role::Value, Role::Value, Role::Value),
        // What is enqueued, or asked of a kernel: values, and a function among them.
        opcode::ENQUEUE_KERNEL..=opcode::GET_KERNEL_PREFERRED_WORK_GROUP_SIZE_MULTIPLE
        | opcode::GET_KERNEL_LOCAL_SIZE_FOR_SUBGROUP_COUNT
        | opcode::GET_KERNEL_MAX_NUM_SUBGROUPS
        | opcode::PHI => None,
        _ => ask(Role::Any, Role::Any, Role::Any),
    }
}

/// Whether an opcode asks for values, and for anything after the mask of a memory access: conversions, arithmetic,
/// comparisons, bits, barriers and atomics, memory, and composites. Of the opcodes among these that have no row nothing
/// is said.
#[inline(always)]
pub fn asks_values(number: u16) -> bool
    ensures { result ≡ spec.asks_values number }
{
    match number {
        opcode::CONVERT_F_TO_U..=opcode::ATOMIC_XOR
        | opcode::LOAD..=opcode::IN_BOUNDS_PTR_ACCESS_CHAIN
        | opcode::VECTOR_EXTRACT_DYNAMIC..=opcode::COPY_OBJECT => true,
        _ => false,
    }
}

/// The roles that an opcode's row of the table of shapes asks for, which a proof compares with the table: one `match`
/// in place of a walk over the row's forms, since each instruction of a module asks. None for OpExtInst, OpSource,
/// OpPhi and those that take a function among values, whose ids are not told so. At opcodes that ask for values
/// `asks_values` tells it.
#[inline(always)]
pub fn asked_besides(number: u16) -> Option<Asked>
    requires { spec.asks_values number ≡ false }
    ensures { IfSome result (λ a. spec.asked_of number ≡ Some a) }
{
    if number <= opcode::VARIABLE {
        early(number)
    } else {
        late(number)
    }
}
