ghost use Rattle.std.specs.Prelude.{◌≡◌, ◌≤◌, ◌+◌, ◌++◌, IfSome, IsTrue, length, option_map, map, slice_get};
ghost use Rattle.std.specs.Prelude.{take, drop};
ghost use Rattle.spv_layout.specs.inner.Single.{is_single_row, front_of, are_flagged};
ghost use Rattle.spv_layout.specs.inner.Row.{listed, plain_row, numbered};
ghost use Rattle.spv_layout.specs.inner.Test.{HasSorts};
ghost use Rattle.spv_layout.specs.Place.{section_of};
ghost use Rattle.spv_layout.specs.Row.{row_in};
ghost use Rattle.spv_layout.specs.Rows.{row_of, rows};

use crate::class::Class;
use crate::form::{After, Ending, Form, Kinded, Named, Role, Row};
use spv_module::{Profile, opcode};

/// The form that a letter of the table stands for.
macro_rules! form {
    (T) => { Form::OfType };
    (R) => { Form::Result };
    (W) => { Form::Word };
    (N) => { Form::Number };
    (S) => { Form::Text };
    (kind $named:ident) => { Form::Kind(Named::$named) };
    (t) => { Form::Id(Role::OfType) };
    (v) => { Form::Id(Role::Value) };
    (f) => { Form::Id(Role::Function) };
    (s) => { Form::Id(Role::Text) };
    (e) => { Form::Id(Role::Set) };
    (l) => { Form::Id(Role::Label) };
    (g) => { Form::Id(Role::Global) };
    (a) => { Form::Id(Role::Any) };
    (x) => { Form::Unseen };
}

/// Whether each operand of a form takes one word.
macro_rules! is_single {
    (N) => { false };
    (S) => { false };
    ($($other:ident)+) => { true };
}

/// The sort that a form asks for: of a kind, that of its masks or of its values.
macro_rules! sort {
    (T) => { 0 };
    (R) => { 1 };
    (W) => { 3 };
    (N) => { 4 };
    (S) => { 5 };
    (kind FunctionControl) => { 7 };
    (kind MemoryAccess) => { 7 };
    (kind LoopControl) => { 7 };
    (kind SelectionControl) => { 7 };
    (kind ImageOperands) => { 7 };
    (kind $named:ident) => { 6 };
    ($id:ident) => { 2 };
}

/// The sorts that forms ask for, in four bits each from the lowest on, and after them a 9.
macro_rules! sorts {
    () => { 9 };
    ([$($form:ident)+] $($others:tt)*) => { sort!($($form)+) + 16 * (sorts!($($others)*)) };
}

/// How many forms ask for a kind.
macro_rules! kinds_asked {
    () => { 0 };
    ([kind $named:ident] $($others:tt)*) => { 1 + kinds_asked!($($others)*) };
    ([$other:ident] $($others:tt)*) => { kinds_asked!($($others)*) };
}

/// The sorts that forms ask for, or 0 where there is no form, or one asks for a kind.
macro_rules! sorts_alone {
    () => { 0 };
    ($($forms:tt)+) => {
        if kinds_asked!($($forms)+) == 0 { sorts!($($forms)+) } else { 0 }
    };
}

/// How many forms come before the first that asks for a kind.
macro_rules! kind_place {
    () => { 0 };
    ([kind $named:ident] $($others:tt)*) => { 0 };
    ([$other:ident] $($others:tt)*) => { 1 + kind_place!($($others)*) };
}

/// What forms ask for one of which asks for a kind, if none of these others does.
macro_rules! kinded_once {
    ([$($forms:tt)*]) => {
        Some(Kinded { place: kind_place!($($forms)*), sorts: sorts!($($forms)*) })
    };
    ([$($forms:tt)*] [kind $named:ident] $($others:tt)*) => { None };
    ([$($forms:tt)*] [$other:ident] $($others:tt)*) => { kinded_once!([$($forms)*] $($others)*) };
}

/// What forms ask for, if just one of these last ones of them asks for a kind.
macro_rules! kinded {
    ([$($forms:tt)*]) => { None };
    ([$($forms:tt)*] [kind $named:ident] $($others:tt)*) => { kinded_once!([$($forms)*] $($others)*) };
    ([$($forms:tt)*] [$other:ident] $($others:tt)*) => { kinded!([$($forms)*] $($others)*) };
}

/// How many forms come before the first of which an operand may take more than one word.
macro_rules! front {
    () => { 0 };
    ([$($form:ident)+] $($others:tt)*) => {
        if is_single!($($form)+) { 1 + front!($($others)*) } else { 0 }
    };
}

/// What may come after the fixed operands.
macro_rules! ending {
    (closed) => { Ending::Closed };
    (maybe $($form:ident)+) => { Ending::Maybe(form!($($form)+)) };
    (file_and_text) => { Ending::FileAndText };
    (repeated $($form:ident),+) => { Ending::Repeated(&[$(form!($form)),+]) };
    (others) => { Ending::Others };
    (maybe_others $($form:ident)+) => { Ending::MaybeOthers(form!($($form)+)) };
    (maybe_repeated $($form:ident)+, $other:ident) => {
        Ending::MaybeRepeated(form!($($form)+), form!($other))
    };
}

/// Whether each operand of an ending takes one word.
macro_rules! is_single_ending {
    (closed) => { true };
    (repeated $($form:ident),+) => { true $(&& is_single!($form))+ };
    (maybe $($form:ident)+) => { is_single!($($form)+) };
    (maybe_repeated $($form:ident)+, $other:ident) => {
        is_single!($($form)+) && is_single!($other)
    };
    ($($other:ident)+) => { false };
}

/// The section of a class, if it stands in one alone.
macro_rules! section {
    (Capability) => { Some(1) };
    (Extension) => { Some(2) };
    (Import) => { Some(3) };
    (MemoryModel) => { Some(4) };
    (EntryPoint) => { Some(5) };
    (ExecutionMode) => { Some(6) };
    (Source) => { Some(7) };
    (Name) => { Some(8) };
    (Processed) => { Some(9) };
    (Decoration) => { Some(10) };
    ($other:ident) => { None };
}

/// The profile that a line belongs to, by the word at its end.
macro_rules! profile {
    () => { Profile::Own };
    (opencl) => { Profile::OpenCl };
}

/// The last opcode of a row.
macro_rules! last {
    ($from:ident) => { opcode::$from };
    ($from:ident $to:ident) => { opcode::$to };
}

/// The table of shapes (SPIR-V Specification 1.6, section 3.49), a row a line: an opcode, or the first and the last,
/// the class in the layout, the operands in order, and what may come after them. Of operands T is a result type, R a
/// result, W a literal of one word, N one whose width its type tells, S a text, `kind` a value or mask of the kind
/// named; an id is t of a type, v of a value, f of a function, s of an OpString, e of an OpExtInstImport, l of a label,
/// g of a variable outside functions, a in any role, and x one of which nothing is asked, unless the module is opened.
/// What may come after is of `After`. The lines of the profile of OpenCL stand apart, each with the word `opencl`.
macro_rules! table {
    ($what:ident) => {
        $what! {
            NOP: Body [] closed;
            UNDEF: Undef [T, R] closed;
            SOURCE_CONTINUED: Source [S] closed;
            SOURCE: Source [kind SourceLanguage, W] file_and_text;
            SOURCE_EXTENSION: Source [S] closed;
            NAME: Name [a, S] closed;
            MEMBER_NAME: Name [a, W, S] closed;
            STRING: Source [R, S] closed;
            LINE: Line [s, W, W] closed;
            EXTENSION: Extension [S] closed;
            EXT_INST_IMPORT: Import [R, S] closed;
            EXT_INST: Extended [T, R, e, W] repeated[x];
            MEMORY_MODEL: MemoryModel [kind AddressingModel, kind MemoryModel] closed;
            ENTRY_POINT: EntryPoint [kind ExecutionModel, f, S] repeated[g];
            EXECUTION_MODE: ExecutionMode [f, kind ExecutionMode] others;
            CAPABILITY: Capability [kind Capability] closed;
            TYPE_VOID to TYPE_BOOL: Declaration [R] closed;
            TYPE_INT: Declaration [R, W, W] closed;
            TYPE_FLOAT: Declaration [R, W] closed;
            TYPE_VECTOR: Declaration [R, t, W] closed;
            TYPE_ARRAY: Declaration [R, t, v] closed;
            TYPE_STRUCT: Declaration [R] repeated[t];
            TYPE_OPAQUE: Declaration [R, S] closed;
            TYPE_POINTER: Declaration [R, kind StorageClass, t] closed;
            TYPE_FUNCTION: Declaration [R, t] repeated[t];
            TYPE_FORWARD_POINTER: Declaration [t, kind StorageClass] closed;
            CONSTANT_TRUE to CONSTANT_FALSE: Declaration [T, R] closed;
            CONSTANT: Declaration [T, R, N] closed;
            CONSTANT_COMPOSITE: Declaration [T, R] repeated[v];
            CONSTANT_NULL: Declaration [T, R] closed;
            SPEC_CONSTANT_TRUE to SPEC_CONSTANT_FALSE: Declaration [T, R] closed;
            SPEC_CONSTANT: Declaration [T, R, N] closed;
            SPEC_CONSTANT_COMPOSITE: Declaration [T, R] repeated[v];
            FUNCTION: Function [T, R, kind FunctionControl, t] closed;
            FUNCTION_PARAMETER: Parameter [T, R] closed;
            FUNCTION_END: FunctionEnd [] closed;
            FUNCTION_CALL: Body [T, R, f] repeated[v];
            VARIABLE: Variable [T, R, kind StorageClass] maybe[v];
            LOAD: Body [T, R, v] maybe_others[kind MemoryAccess];
            STORE to COPY_MEMORY: Body [v, v] maybe_others[kind MemoryAccess];
            COPY_MEMORY_SIZED: Body [v, v, v] maybe_others[kind MemoryAccess];
            ACCESS_CHAIN to IN_BOUNDS_ACCESS_CHAIN: Body [T, R, v] repeated[v];
            PTR_ACCESS_CHAIN: Body [T, R, v, v] repeated[v];
            IN_BOUNDS_PTR_ACCESS_CHAIN: Body [T, R, v, v] repeated[v];
            DECORATE: Decoration [a, kind Decoration] others;
            MEMBER_DECORATE: Decoration [a, W, kind Decoration] others;
            VECTOR_EXTRACT_DYNAMIC: Body [T, R, v, v] closed;
            VECTOR_INSERT_DYNAMIC: Body [T, R, v, v, v] closed;
            VECTOR_SHUFFLE: Body [T, R, v, v] repeated[W];
            COMPOSITE_CONSTRUCT: Body [T, R] repeated[v];
            COMPOSITE_EXTRACT: Body [T, R, v] repeated[W];
            COMPOSITE_INSERT: Body [T, R, v, v] repeated[W];
            COPY_OBJECT: Body [T, R, v] closed;
            CONVERT_F_TO_U to CONVERT_U_TO_F: Body [T, R, v] closed;
            U_CONVERT to F_CONVERT: Body [T, R, v] closed;
            CONVERT_PTR_TO_U: Body [T, R, v] closed;
            CONVERT_U_TO_PTR: Body [T, R, v] closed;
            PTR_CAST_TO_GENERIC to GENERIC_CAST_TO_PTR: Body [T, R, v] closed;
            BITCAST: Body [T, R, v] closed;
            S_NEGATE to F_NEGATE: Body [T, R, v] closed;
            I_ADD to F_DIV: Body [T, R, v, v] closed;
            U_MOD to F_MOD: Body [T, R, v, v] closed;
            LOGICAL_EQUAL to LOGICAL_AND: Body [T, R, v, v] closed;
            LOGICAL_NOT: Body [T, R, v] closed;
            SELECT: Body [T, R, v, v, v] closed;
            I_EQUAL to S_LESS_THAN_EQUAL: Body [T, R, v, v] closed;
            F_ORD_EQUAL to F_UNORD_GREATER_THAN_EQUAL: Body [T, R, v, v] closed;
            SHIFT_RIGHT_LOGICAL to SHIFT_LEFT_LOGICAL: Body [T, R, v, v] closed;
            BITWISE_OR to BITWISE_AND: Body [T, R, v, v] closed;
            NOT: Body [T, R, v] closed;
            CONTROL_BARRIER: Body [v, v, v] closed;
            MEMORY_BARRIER: Body [v, v] closed;
            ATOMIC_LOAD: Body [T, R, v, v, v] closed;
            ATOMIC_STORE: Body [v, v, v, v] closed;
            ATOMIC_EXCHANGE: Body [T, R, v, v, v, v] closed;
            ATOMIC_COMPARE_EXCHANGE: Body [T, R, v, v, v, v, v, v] closed;
            ATOMIC_I_INCREMENT to ATOMIC_I_DECREMENT: Body [T, R, v, v, v] closed;
            ATOMIC_I_ADD to ATOMIC_U_MAX: Body [T, R, v, v, v, v] closed;
            ATOMIC_AND to ATOMIC_XOR: Body [T, R, v, v, v, v] closed;
            PHI: Phi [T, R] repeated[v, l];
            LOOP_MERGE: LoopMerge [l, l, kind LoopControl] others;
            SELECTION_MERGE: SelectionMerge [l, kind SelectionControl] closed;
            LABEL: Label [R] closed;
            BRANCH: Branch [l] closed;
            BRANCH_CONDITIONAL: BranchConditional [v, l, l] repeated[W];
            SWITCH: Switch [v, l] repeated[N, l];
            RETURN: Return [] closed;
            RETURN_VALUE: Return [v] closed;
            UNREACHABLE: Return [] closed;
            LIFETIME_START to LIFETIME_STOP: Body [v, W] closed;
            NO_LINE: Line [] closed;
            MODULE_PROCESSED: Processed [S] closed;
        }
    };
}

/// The lines of the table that belong to the profile of OpenCL alone, which come behind the others, and these before
/// them.
macro_rules! opencl {
    ($what:ident $($before:tt)*) => {
        $what! {
            $($before)*
            TYPE_IMAGE: Declaration [R, t, kind Dim, W, W, W, W, kind ImageFormat] maybe[kind AccessQualifier] opencl;
            TYPE_SAMPLER: Declaration [R] closed opencl;
            TYPE_SAMPLED_IMAGE: Declaration [R, t] closed opencl;
            TYPE_EVENT to TYPE_QUEUE: Declaration [R] closed opencl;
            TYPE_PIPE: Declaration [R, kind AccessQualifier] closed opencl;
            CONSTANT_SAMPLER: Declaration [T, R, kind SamplerAddressingMode, W, kind SamplerFilterMode] closed opencl;
            IMAGE_TEXEL_POINTER: Body [T, R, v, v, v] closed opencl;
            GENERIC_PTR_MEM_SEMANTICS: Body [T, R, v] closed opencl;
            DECORATION_GROUP: Decoration [R] closed opencl;
            GROUP_DECORATE: Decoration [a] repeated[a] opencl;
            GROUP_MEMBER_DECORATE: Decoration [a] repeated[a, W] opencl;
            SAMPLED_IMAGE: Body [T, R, v, v] closed opencl;
            IMAGE_SAMPLE_EXPLICIT_LOD: Body [T, R, v, v, kind ImageOperands] repeated[v] opencl;
            IMAGE_FETCH: Body [T, R, v, v] maybe_repeated[kind ImageOperands, v] opencl;
            IMAGE_READ: Body [T, R, v, v] maybe_repeated[kind ImageOperands, v] opencl;
            IMAGE_WRITE: Body [v, v, v] maybe_repeated[kind ImageOperands, v] opencl;
            IMAGE to IMAGE_QUERY_ORDER: Body [T, R, v] closed opencl;
            IMAGE_QUERY_SIZE_LOD: Body [T, R, v, v] closed opencl;
            IMAGE_QUERY_SIZE: Body [T, R, v] closed opencl;
            IMAGE_QUERY_LEVELS to IMAGE_QUERY_SAMPLES: Body [T, R, v] closed opencl;
            QUANTIZE_TO_F16: Body [T, R, v] closed opencl;
            SAT_CONVERT_S_TO_U to SAT_CONVERT_U_TO_S: Body [T, R, v] closed opencl;
            GENERIC_CAST_TO_PTR_EXPLICIT: Body [T, R, v, kind StorageClass] closed opencl;
            VECTOR_TIMES_SCALAR: Body [T, R, v, v] closed opencl;
            DOT to S_MUL_EXTENDED: Body [T, R, v, v] closed opencl;
            ANY to SIGN_BIT_SET: Body [T, R, v] closed opencl;
            LESS_OR_GREATER to UNORDERED: Body [T, R, v, v] closed opencl;
            BIT_FIELD_INSERT: Body [T, R, v, v, v, v] closed opencl;
            BIT_FIELD_S_EXTRACT to BIT_FIELD_U_EXTRACT: Body [T, R, v, v, v] closed opencl;
            BIT_REVERSE to BIT_COUNT: Body [T, R, v] closed opencl;
            ATOMIC_COMPARE_EXCHANGE_WEAK: Body [T, R, v, v, v, v, v, v] closed opencl;
            GROUP_ASYNC_COPY: Body [T, R, v, v, v, v, v, v] closed opencl;
            GROUP_WAIT_EVENTS: Body [v, v, v] closed opencl;
            GROUP_ALL to GROUP_ANY: Body [T, R, v, v] closed opencl;
            GROUP_BROADCAST: Body [T, R, v, v, v] closed opencl;
            GROUP_I_ADD to GROUP_S_MAX: Body [T, R, v, kind GroupOperation, v] closed opencl;
            READ_PIPE to WRITE_PIPE: Body [T, R, v, v, v, v] closed opencl;
            RESERVED_READ_PIPE to RESERVED_WRITE_PIPE: Body [T, R, v, v, v, v, v, v] closed opencl;
            RESERVE_READ_PIPE_PACKETS to RESERVE_WRITE_PIPE_PACKETS: Body [T, R, v, v, v, v] closed opencl;
            COMMIT_READ_PIPE to COMMIT_WRITE_PIPE: Body [v, v, v, v] closed opencl;
            IS_VALID_RESERVE_ID: Body [T, R, v] closed opencl;
            GET_NUM_PIPE_PACKETS to GET_MAX_PIPE_PACKETS: Body [T, R, v, v, v] closed opencl;
            GROUP_RESERVE_READ_PIPE_PACKETS to GROUP_RESERVE_WRITE_PIPE_PACKETS:
                Body [T, R, v, v, v, v, v] closed opencl;
            GROUP_COMMIT_READ_PIPE to GROUP_COMMIT_WRITE_PIPE: Body [v, v, v, v, v] closed opencl;
            ENQUEUE_MARKER: Body [T, R, v, v, v, v] closed opencl;
            ENQUEUE_KERNEL: Body [T, R, v, v, v, v, v, v, f, v, v, v] repeated[v] opencl;
            GET_KERNEL_ND_RANGE_SUB_GROUP_COUNT to GET_KERNEL_ND_RANGE_MAX_SUB_GROUP_SIZE:
                Body [T, R, v, f, v, v, v] closed opencl;
            GET_KERNEL_WORK_GROUP_SIZE to GET_KERNEL_PREFERRED_WORK_GROUP_SIZE_MULTIPLE:
                Body [T, R, f, v, v, v] closed opencl;
            RETAIN_EVENT to RELEASE_EVENT: Body [v] closed opencl;
            CREATE_USER_EVENT: Body [T, R] closed opencl;
            IS_VALID_EVENT: Body [T, R, v] closed opencl;
            SET_USER_EVENT_STATUS: Body [v, v] closed opencl;
            CAPTURE_EVENT_PROFILING_INFO: Body [v, v, v] closed opencl;
            GET_DEFAULT_QUEUE: Body [T, R] closed opencl;
            BUILD_ND_RANGE: Body [T, R, v, v, v] closed opencl;
            ATOMIC_FLAG_TEST_AND_SET: Body [T, R, v, v, v] closed opencl;
            ATOMIC_FLAG_CLEAR: Body [v, v, v] closed opencl;
            SIZE_OF: Body [T, R, v] closed opencl;
            TYPE_PIPE_STORAGE: Declaration [R] closed opencl;
            CONSTANT_PIPE_STORAGE: Declaration [T, R, W, W, W] closed opencl;
            CREATE_PIPE_FROM_PIPE_STORAGE: Body [T, R, v] closed opencl;
            GET_KERNEL_LOCAL_SIZE_FOR_SUBGROUP_COUNT: Body [T, R, v, f, v, v, v] closed opencl;
            GET_KERNEL_MAX_NUM_SUBGROUPS: Body [T, R, f, v, v, v] closed opencl;
            TYPE_NAMED_BARRIER: Declaration [R] closed opencl;
            NAMED_BARRIER_INITIALIZE: Body [T, R, v] closed opencl;
            MEMORY_NAMED_BARRIER: Body [v, v, v] closed opencl;
            EXECUTION_MODE_ID: ExecutionMode [f, kind ExecutionMode] others opencl;
            DECORATE_ID: Decoration [a, kind Decoration] others opencl;
            GROUP_NON_UNIFORM_ELECT: Body [T, R, v] closed opencl;
            GROUP_NON_UNIFORM_ALL to GROUP_NON_UNIFORM_ALL_EQUAL: Body [T, R, v, v] closed opencl;
            GROUP_NON_UNIFORM_BROADCAST: Body [T, R, v, v, v] closed opencl;
            GROUP_NON_UNIFORM_BROADCAST_FIRST to GROUP_NON_UNIFORM_INVERSE_BALLOT: Body [T, R, v, v] closed opencl;
            GROUP_NON_UNIFORM_BALLOT_BIT_EXTRACT: Body [T, R, v, v, v] closed opencl;
            GROUP_NON_UNIFORM_BALLOT_BIT_COUNT: Body [T, R, v, kind GroupOperation, v] closed opencl;
            GROUP_NON_UNIFORM_BALLOT_FIND_LSB to GROUP_NON_UNIFORM_BALLOT_FIND_MSB: Body [T, R, v, v] closed opencl;
            GROUP_NON_UNIFORM_SHUFFLE to GROUP_NON_UNIFORM_SHUFFLE_DOWN: Body [T, R, v, v, v] closed opencl;
            GROUP_NON_UNIFORM_I_ADD to GROUP_NON_UNIFORM_LOGICAL_XOR:
                Body [T, R, v, kind GroupOperation, v] maybe[v] opencl;
            GROUP_NON_UNIFORM_QUAD_BROADCAST to GROUP_NON_UNIFORM_QUAD_SWAP: Body [T, R, v, v, v] closed opencl;
            COPY_LOGICAL: Body [T, R, v] closed opencl;
            PTR_EQUAL to PTR_DIFF: Body [T, R, v, v] closed opencl;
            S_DOT to SU_DOT: Body [T, R, v, v] maybe[kind PackedVectorFormat] opencl;
            S_DOT_ACC_SAT to SU_DOT_ACC_SAT: Body [T, R, v, v, v] maybe[kind PackedVectorFormat] opencl;
            DECORATE_STRING: Decoration [a, kind Decoration] others opencl;
            MEMBER_DECORATE_STRING: Decoration [a, W, kind Decoration] others opencl;
        }
    };
}

/// What may come after the fixed operands, as a definition reads it.
macro_rules! after {
    (closed) => { After::Closed };
    (maybe $($form:ident)+) => { After::Maybe };
    (file_and_text) => { After::FileAndText };
    (repeated $($form:ident),+) => { After::Repeated };
    (others) => { After::Others };
    (maybe_others $($form:ident)+) => { After::MaybeOthers };
    (maybe_repeated $($form:ident)+, $other:ident) => { After::MaybeRepeated };
}

/// The operands that it names.
macro_rules! forms_after {
    (closed) => { [] };
    (maybe $($form:ident)+) => { [form!($($form)+)] };
    (file_and_text) => { [] };
    (repeated $($form:ident),+) => { [$(form!($form)),+] };
    (others) => { [] };
    (maybe_others $($form:ident)+) => { [form!($($form)+)] };
    (maybe_repeated $($form:ident)+, $other:ident) => { [form!($($form)+), form!($other)] };
}

/// The lines of the table as definitions read them.
macro_rules! lines {
    ($(
        $from:ident $(to $to:ident)?: $class:ident [$($($form:ident)+),*]
            $ending:ident $([$($after:tt)+])? $($profile:ident)?;
    )+) => {
        [$((
            opcode::$from,
            last!($from $($to)?),
            profile!($($profile)?),
            Class::$class,
            &[$(form!($($form)+)),*],
            after!($ending $($($after)+)?),
            &forms_after!($ending $($($after)+)?),
        )),+]
    };
}

/// The lines of the table, and behind them those of OpenCL, as definitions read them.
macro_rules! all_lines {
    ($($own:tt)*) => { opencl!(lines $($own)*) };
}

/// The rows of the table, as the code reads them.
macro_rules! rows {
    ($(
        $from:ident $(to $to:ident)?: $class:ident [$($($form:ident)+),*]
            $ending:ident $([$($after:tt)+])? $($profile:ident)?;
    )+) => {
        [$(Row {
            from: opcode::$from,
            to: last!($from $($to)?),
            profile: profile!($($profile)?),
            class: Class::$class,
            section: section!($class),
            fixed: &[$(form!($($form)+)),*],
            ending: ending!($ending $($($after)+)?),
            single: true $(&& is_single!($($form)+))* && is_single_ending!($ending $($($after)+)?),
            front: front!($([$($form)+])*),
            sorts: sorts_alone!($([$($form)+])*),
            kind: kinded!([$([$($form)+])*] $([$($form)+])*),
        }),+]
    };
}

/// A line of the table as definitions read it: the first and the last opcode, the profile, the class, the fixed
/// operands, and what may come after them, with the operands that this names.
pub type Line = (
    u16,
    u16,
    Profile,
    Class,
    &'static [Form],
    After,
    &'static [Form],
);

/// The table as definitions read it.
pub static TABLE: [Line; 176] = table!(all_lines);

/// The rows but for those of OpenCL, as the code reads them.
static ROWS: [Row; 92] = table!(rows);

/// The rows of OpenCL.
static OPENCL_ROWS: [Row; 84] = opencl!(rows);

/// How many rows come before those of OpenCL.
const OWN: usize = 92;

/// How many rows are found by number. The opcodes of those behind them are higher than all that have a number. Written
/// by `tests/rows-of-opcodes`.
const NUMBERED: usize = 172;

/// For each opcode of these rows up to the last one the number of its row, or 255 where it has none. Written by
/// `tests/rows-of-opcodes`.
static NUMBERS: [u8; 404] = [
    0, 1, 2, 3, 4, 5, 6, 7, 8, 255, 9, 10, 11, 255, 12, 13, 14, 15, 255, 16, 16, 17, 18, 19, 255,
    92, 93, 94, 20, 255, 21, 22, 23, 24, 95, 95, 95, 95, 96, 25, 255, 26, 26, 27, 28, 97, 29, 255,
    30, 30, 31, 32, 255, 255, 33, 34, 35, 36, 255, 37, 98, 38, 39, 39, 40, 41, 41, 42, 255, 99, 43,
    44, 45, 100, 101, 102, 255, 46, 47, 48, 49, 50, 51, 52, 255, 255, 103, 255, 104, 255, 255, 255,
    255, 255, 255, 105, 255, 255, 106, 107, 108, 108, 108, 109, 110, 255, 111, 111, 255, 53, 53,
    53, 53, 54, 54, 54, 112, 55, 113, 113, 56, 57, 57, 114, 58, 255, 59, 59, 60, 60, 60, 60, 60,
    60, 60, 60, 60, 61, 61, 61, 61, 61, 115, 255, 255, 255, 255, 255, 116, 116, 116, 116, 116, 255,
    117, 117, 117, 117, 117, 117, 117, 118, 118, 118, 62, 62, 62, 62, 63, 64, 65, 65, 65, 65, 65,
    65, 65, 65, 65, 65, 66, 66, 66, 66, 66, 66, 66, 66, 66, 66, 66, 66, 255, 255, 67, 67, 67, 68,
    68, 68, 69, 119, 120, 120, 121, 121, 255, 255, 255, 255, 255, 255, 255, 255, 255, 255, 255,
    255, 255, 255, 255, 255, 255, 255, 70, 71, 255, 72, 73, 74, 75, 122, 76, 76, 77, 77, 77, 77,
    77, 77, 78, 78, 78, 255, 255, 79, 80, 81, 82, 83, 84, 85, 255, 86, 87, 88, 89, 89, 255, 123,
    124, 125, 125, 126, 127, 127, 127, 127, 127, 127, 127, 127, 255, 255, 128, 128, 129, 129, 130,
    130, 131, 131, 132, 133, 133, 134, 134, 135, 135, 255, 255, 136, 137, 138, 138, 139, 139, 140,
    140, 141, 142, 143, 144, 145, 146, 255, 255, 255, 255, 255, 255, 255, 255, 255, 255, 255, 255,
    90, 147, 148, 255, 149, 150, 151, 152, 153, 154, 155, 156, 157, 91, 158, 159, 160, 161, 161,
    161, 162, 163, 163, 163, 164, 165, 166, 166, 167, 167, 167, 167, 168, 168, 168, 168, 168, 168,
    168, 168, 168, 168, 168, 168, 168, 168, 168, 168, 169, 169, 255, 255, 255, 255, 255, 255, 255,
    255, 255, 255, 255, 255, 255, 255, 255, 255, 255, 255, 255, 255, 255, 255, 255, 255, 255, 255,
    255, 255, 255, 255, 255, 255, 255, 170, 171, 171, 171,
];

/// The row of a number among these, if there is one.
#[inline(always)]
fn row_of_number(rows: &'static [Row], number: usize) -> Option<&'static Row>
    requires { IsTrue (are_flagged rows.now) }
    ensures row { option_map (λ r. plain_row r.now) result ≡ slice_get (map plain_row rows.now) number }
    ensures section { IfSome result (λ r. r.now.section ≡ section_of r.now.class) }
    ensures single { IfSome result (λ r. r.now.single ≡ is_single_row (plain_row r.now)) }
    ensures front { IfSome result (λ r. r.now.front ≡ front_of r.now.fixed.now) }
    ensures sorts { IfSome result (λ r. HasSorts r.now.sorts r.now.kind r.now.fixed.now) }
{
    if number < rows.len() {
        Some(&rows[number])
    } else {
        None
    }
}

/// The row that a list of numbers names for an opcode, if it names one, among these rows and others behind them.
#[inline(always)]
fn row_at(
    numbers: &'static [u8],
    rows: &'static [Row],
    others: &'static [Row],
    opcode: u16,
) -> Option<&'static Row>
    requires flagged { IsTrue (are_flagged rows.now) }
    requires others { IsTrue (are_flagged others.now) }
    ensures row { option_map (λ r. plain_row r.now) result
        ≡ numbered (map plain_row rows.now ++ map plain_row others.now) (slice_get numbers.now opcode) }
    ensures section { IfSome result (λ r. r.now.section ≡ section_of r.now.class) }
    ensures single { IfSome result (λ r. r.now.single ≡ is_single_row (plain_row r.now)) }
    ensures front { IfSome result (λ r. r.now.front ≡ front_of r.now.fixed.now) }
    ensures sorts { IfSome result (λ r. HasSorts r.now.sorts r.now.kind r.now.fixed.now) }
{
    match numbers.get(usize::from(opcode)) {
        Some(number) => {
            let place = usize::from(*number);
            if place < rows.len() {
                row_of_number(rows, place)
            } else {
                row_of_number(others, place - rows.len())
            }
        }
        None => None,
    }
}

/// The first of some rows that has an opcode.
#[cold]
#[inline(never)]
fn row_among(rows: &'static [Row], opcode: u16) -> Option<&'static Row>
    requires { IsTrue (are_flagged rows.now) }
    ensures row { option_map (λ r. plain_row r.now) result ≡ row_in (map plain_row rows.now) opcode }
    ensures section { IfSome result (λ r. r.now.section ≡ section_of r.now.class) }
    ensures single { IfSome result (λ r. r.now.single ≡ is_single_row (plain_row r.now)) }
    ensures front { IfSome result (λ r. r.now.front ≡ front_of r.now.fixed.now) }
    ensures sorts { IfSome result (λ r. HasSorts r.now.sorts r.now.kind r.now.fixed.now) }
{
    for row in rows {
        if row.from <= opcode && opcode <= row.to {
            return Some(row);
        }
    }
    None
}

/// The row of an opcode in a table of two parts: the first, and so many rows of the other, are found by such a list of
/// numbers.
#[inline(always)]
fn row_listed(
    numbers: &'static [u8],
    rows: &'static [Row],
    others: &'static [Row],
    numbered: usize,
    opcode: u16,
) -> Option<&'static Row>
    requires flagged { IsTrue (are_flagged rows.now) }
    requires others { IsTrue (are_flagged others.now) }
    requires within { numbered ≤ length others.now }
    ensures row { option_map (λ r. plain_row r.now) result
        ≡ listed numbers.now (map plain_row rows.now ++ map plain_row others.now) (length rows.now + numbered) opcode }
    ensures section { IfSome result (λ r. r.now.section ≡ section_of r.now.class) }
    ensures single { IfSome result (λ r. r.now.single ≡ is_single_row (plain_row r.now)) }
    ensures front { IfSome result (λ r. r.now.front ≡ front_of r.now.fixed.now) }
    ensures sorts { IfSome result (λ r. HasSorts r.now.sorts r.now.kind r.now.fixed.now) }
{
    if usize::from(opcode) < numbers.len() {
        row_at(numbers, rows, others, opcode)
    } else {
        row_among(&others[numbered..], opcode)
    }
}

/// The rows but for those of OpenCL.
#[inline(always)]
fn own_rows() -> &'static [Row]
    ensures rows { map plain_row result.now ≡ take OWN rows }
    ensures flagged { IsTrue (are_flagged result.now) }
    ensures count { length result.now ≡ OWN }
{
    &ROWS
}

/// The rows of OpenCL, which come behind them.
#[inline(always)]
fn opencl_rows() -> &'static [Row]
    ensures rows { map plain_row result.now ≡ drop OWN rows }
    ensures flagged { IsTrue (are_flagged result.now) }
    ensures within { NUMBERED ≤ OWN + length result.now }
{
    &OPENCL_ROWS
}

/// The row of an opcode, and what it says of the sorts of its operands.
#[inline(always)]
pub fn sorted_row(opcode: u16) -> Option<&'static Row>
    ensures row { option_map (λ r. plain_row r.now) result ≡ row_of opcode }
    ensures section { IfSome result (λ r. r.now.section ≡ section_of r.now.class) }
    ensures single { IfSome result (λ r. r.now.single ≡ is_single_row (plain_row r.now)) }
    ensures front { IfSome result (λ r. r.now.front ≡ front_of r.now.fixed.now) }
    ensures sorts { IfSome result (λ r. HasSorts r.now.sorts r.now.kind r.now.fixed.now) }
{
    row_listed(&NUMBERS, own_rows(), opencl_rows(), NUMBERED - OWN, opcode)
}

/// The row of an opcode.
#[inline(always)]
pub fn row(opcode: u16) -> Option<&'static Row>
    ensures row { option_map (λ r. plain_row r.now) result ≡ row_of opcode }
    ensures section { IfSome result (λ r. r.now.section ≡ section_of r.now.class) }
    ensures single { IfSome result (λ r. r.now.single ≡ is_single_row (plain_row r.now)) }
    ensures front { IfSome result (λ r. r.now.front ≡ front_of r.now.fixed.now) }
{
    sorted_row(opcode)
}
