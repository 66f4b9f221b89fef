//! The table of types.

ghost use Rattle.std.specs.Prelude.{◌≡◌, ◌<◌, ◌↔◌, ◌∷◌, [], IsTrue, length, map, slice_get, true};
ghost use Rattle.spv_module.specs.Module.{plain_inst};
ghost use Rattle.spv_conditions.specs.inner.Direct.{are_direct};
ghost use Rattle.spv_ops.specs.Table as spec;
ghost use Rattle.spv_ops.specs.Typed.{LineHolds};
ghost use Rattle.spv_ops.specs.inner.Table.{AllDirectly, asked_by, first_from, first_of, found_by, line};
ghost use Rattle.spv_ops.specs.inner.Table.{line_number, number_among, numbered_at};
ghost use Rattle.spv_ops.specs.declared.table.TheConstants.{FURTHER, OBJECTS, TABLE};

use spv_conditions::{
    Asked, Asks, Each, Images, Kind, Relation, Rest, Seat, Texels, first_failing, holds,
};
use spv_module::{Inst, opcode};
use spv_type_forms::{Definitions, Object};

/// Where the value operands of an instruction stand, in what follows the result type and the result.
#[derive(Clone, Copy)]
pub enum Places {
    /// No line of the table speaks of the instruction.
    Free,
    /// Nowhere: there are none.
    Nothing,
    /// They are the ids at the front, of which the opcode has a number of its own.
    Ids,
    /// They are the ids at the front, any number.
    Many,
    /// It is the first id.
    One,
    /// They are the ids at the front, each before a label.
    Pairs,
    /// They are the ids after the storage class of a variable.
    Initializers,
    /// They are all ids, of which the opcode has six at most, whatever stands between them.
    Around,
    /// They are the ids at the front but for the one of that number, a function's; the opcode has a number of its own.
    Beside(u8),
    /// They are the ids at the front but for the seventh, a function's, any number.
    Enqueued,
    /// They are the ids at the front, of a copy: whether types match is told by numbers of all types.
    Copied,
}

/// A line of the table as the code reads it: opcodes, each from one to another, where their value operands stand, and
/// what is asked.
#[derive(Clone, Copy)]
pub struct Entry {
    pub opcodes: &'static [(u16, u16)],
    pub places: Places,
    pub asks: &'static [Asks],
}

/// A line of the table as definitions read it.
pub type Line = (&'static [(u16, u16)], Places, &'static [Asks]);

/// The number of a value.
macro_rules! number {
    (o) => { 0 };
    (p) => { 1 };
    (q) => { 2 };
    ($k:literal) => { $k };
}

/// Whose type it is: r is the result type; o, p and q are those of the first three values, and others go by number.
macro_rules! seat {
    (r) => { Seat::Result };
    ($k:tt) => { Seat::Value(number!($k)) };
}

/// A condition by its words.
macro_rules! condition {
    (gives $n:literal) => { Asked::Operands { result: true, values: $n } };
    (takes $n:literal) => { Asked::Operands { result: false, values: $n } };
    (mask $texels:ident) => { Asked::Rest(Rest::ImageMask(Texels::$texels)) };
    (sign of $s:tt) => { Asked::Rest(Rest::ImageSign(seat!($s))) };
    (operands $texels:ident) => { Asked::Rest(Rest::ImageOperands(Texels::$texels)) };
    (block of $k:tt) => { Asked::Rest(Rest::Block(number!($k))) };
    (sizes after block of $k:tt) => { Asked::Rest(Rest::LocalSizes(number!($k))) };
    (locals of block of $k:tt) => { Asked::Rest(Rest::Locals(number!($k))) };
    (constant $k:tt) => { Asked::Rest(Rest::Constant(number!($k))) };
    (within $k:tt) => { Asked::Rest(Rest::Within { from: number!($k) }) };
    ($s:tt reached from $k:tt) => { Asked::Rest(Rest::Reached { of: seat!($s), from: number!($k) }) };
    (leads) => { Asked::Rest(Rest::Leads { element: false }) };
    (leads after element) => { Asked::Rest(Rest::Leads { element: true }) };
    ($s:tt is $kind:ident) => { Asked::Kind { kind: Kind::$kind, of: seat!($s) } };
    ($s:tt is of $object:ident) => { Asked::Kind { kind: Kind::Object(Object::$object), of: seat!($s) } };
    ($s:tt points to $object:ident) => {
        Asked::Kind { kind: Kind::ObjectPointer(Object::$object), of: seat!($s) }
    };
    ($s:tt is image $images:ident) => { Asked::Kind { kind: Kind::Image(Images::$images), of: seat!($s) } };
    ($s:tt is pipe $access:literal) => { Asked::Kind { kind: Kind::Pipe($access), of: seat!($s) } };
    ($s:tt $relation:ident $t:tt) => {
        Asked::Relation { relation: Relation::$relation, of: seat!($s), to: seat!($t) }
    };
    ($rest:ident) => { Asked::Rest(Rest::$rest) };
}

/// What is asked by its words: a condition, or some of each value.
macro_rules! asks {
    (each $each:ident) => { Asks::Each(Each::$each) };
    (indexes) => { Asks::Indexes { element: false } };
    (indexes after element) => { Asks::Indexes { element: true } };
    ($($ask:tt)+) => { Asks::Once(condition!($($ask)+)) };
}

/// Where values stand by its word.
macro_rules! places {
    () => { Places::Ids };
    (nothing) => { Places::Nothing };
    (many) => { Places::Many };
    (one) => { Places::One };
    (pairs) => { Places::Pairs };
    (initializers) => { Places::Initializers };
    (around) => { Places::Around };
    (beside $k:tt) => { Places::Beside(number!($k)) };
    (enqueued) => { Places::Enqueued };
    (copied) => { Places::Copied };
}

/// The last opcode of some.
macro_rules! last {
    ($first:ident) => { opcode::$first };
    ($first:ident $last:ident) => { opcode::$last };
}

/// The table of types (own: Y5; the opcodes of SPIR-V Specification 1.6, section 3.49): opcodes, or the first and the
/// last of some, where their value operands stand, if not at the ids at the front, and the conditions that they ask, in
/// the order in which they are looked at. First stand the opcodes that have a number of values of their own. An opcode
/// that is nowhere in it, nor in the two parts below, asks nothing.
macro_rules! table {
    ($what:ident $($name:ident)*) => {
        $what! {
            ($($name)*)
            {
                UNDEF by nothing: [r is Data];
                LOAD: [gives 1] [o PointsTo r] [r is Data];
                STORE: [takes 2] [o PointsTo p];
                COPY_MEMORY: [takes 2] [p SamePointee o];
                COPY_MEMORY_SIZED: [takes 3] [o is Pointer] [p is Pointer] [q is Int];
                VECTOR_EXTRACT_DYNAMIC: [gives 2] [o VectorOf r] [p is Int];
                VECTOR_INSERT_DYNAMIC: [gives 3] [o Same r] [p ComponentOf r] [q is Int];
                VECTOR_SHUFFLE:
                    [gives 2] [o is Vector] [p SameComponent o] [r SameComponent o] [ComponentCount] [Component];
                COMPOSITE_EXTRACT: [gives 1] [Indexes] [within o] [r reached from o];
                COMPOSITE_INSERT: [gives 2] [p Same r] [Indexes] [within p] [o reached from p];
                COPY_OBJECT: [gives 1] [o Same r] [r is Data];
            }
            {
                CONVERT_F_TO_U to CONVERT_F_TO_S: [gives 1] [o is Floats] [r is Ints] [o SameCount r];
                CONVERT_S_TO_F to CONVERT_U_TO_F: [gives 1] [o is Ints] [r is Floats] [o SameCount r];
                U_CONVERT to S_CONVERT: [gives 1] [o is Ints] [r is Ints] [o SameCount r] [o OtherWidth r];
                F_CONVERT: [gives 1] [o is Floats] [r is Floats] [o SameCount r] [o OtherWidth r];
                CONVERT_PTR_TO_U: [gives 1] [o is Pointer] [r is Int];
                CONVERT_U_TO_PTR: [gives 1] [o is Int] [r is Pointer];
                PTR_CAST_TO_GENERIC: [gives 1] [o is NamedPointer] [r is GenericPointer] [o SamePointee r];
                GENERIC_CAST_TO_PTR: [gives 1] [o is GenericPointer] [r is NamedPointer] [o SamePointee r];
                BITCAST: [gives 1] [o SameBits r];
            }
            {
                S_NEGATE, NOT, BIT_REVERSE: [gives 1] [r is Ints] [o Same r];
                F_NEGATE: [gives 1] [r is Floats] [o Same r];
                LOGICAL_NOT: [gives 1] [r is Bools] [o Same r];
                I_ADD, I_SUB, I_MUL, U_DIV to S_DIV, U_MOD to S_MOD, BITWISE_OR to BITWISE_AND:
                    [gives 2] [r is Ints] [o Same r] [p Same r];
                F_ADD, F_SUB, F_MUL, F_DIV, F_REM to F_MOD: [gives 2] [r is Floats] [o Same r] [p Same r];
                LOGICAL_EQUAL to LOGICAL_AND: [gives 2] [r is Bools] [o Same r] [p Same r];
                SELECT: [gives 3] [r is Data] [p Same r] [q Same r] [o Chooses r] [r is Plain];
                I_EQUAL to S_LESS_THAN_EQUAL: [gives 2] [o is Ints] [p Same o] [r is Bools] [o SameCount r];
                F_ORD_EQUAL to F_UNORD_GREATER_THAN_EQUAL, LESS_OR_GREATER to UNORDERED:
                    [gives 2] [o is Floats] [p Same o] [r is Bools] [o SameCount r];
                SHIFT_RIGHT_LOGICAL to SHIFT_LEFT_LOGICAL: [gives 2] [r is Ints] [o Same r] [p is Ints] [p SameCount r];
            }
            {
                CONTROL_BARRIER: [takes 3] [o is Int32] [p is Int32] [q is Int32];
                MEMORY_BARRIER: [takes 2] [o is Int32] [p is Int32];
                ATOMIC_LOAD: [gives 3] [o PointsTo r] [p is Int32] [q is Int32] [r is Number];
                ATOMIC_STORE: [takes 4] [o PointsTo 3] [p is Int32] [q is Int32] [3 is Number];
                ATOMIC_EXCHANGE: [gives 4] [o PointsTo r] [p is Int32] [q is Int32] [3 Same r] [r is Number];
                ATOMIC_COMPARE_EXCHANGE to ATOMIC_COMPARE_EXCHANGE_WEAK:
                    [gives 6] [o PointsTo r] [p is Int32] [q is Int32] [3 is Int32] [4 Same r] [5 Same r] [r is Int];
                ATOMIC_I_INCREMENT to ATOMIC_I_DECREMENT: [gives 3] [o PointsTo r] [p is Int32] [q is Int32] [r is Int];
                ATOMIC_I_ADD to ATOMIC_XOR: [gives 4] [o PointsTo r] [p is Int32] [q is Int32] [3 Same r] [r is Int];
                BRANCH_CONDITIONAL by one: [takes 1] [o is Bool] [Weights];
                SWITCH by one: [takes 1] [o is Int];
                LIFETIME_START to LIFETIME_STOP: [takes 1] [o is FunctionPointer];
            }
            {
                VARIABLE by initializers: [r is Pointer] [StorageClass] [ClassHere] [Initializer] [InitializerType];
                ACCESS_CHAIN to IN_BOUNDS_ACCESS_CHAIN by many:
                    [o is Pointer] [indexes] [r is Pointer] [r SameClass o] [leads];
                PTR_ACCESS_CHAIN, IN_BOUNDS_PTR_ACCESS_CHAIN by many:
                    [o is Pointer] [p is Int] [indexes after element] [r is Pointer] [r SameClass o]
                    [leads after element];
                COMPOSITE_CONSTRUCT by many: [r is Composite] [Several] [each Share] [Filled] [Count] [each Part];
                PHI by pairs: [each Same] [r is Data];
            }
        }
    };
}

/// What OpenCL has besides: arithmetic, pointers and groups.
macro_rules! further {
    ($what:ident) => {
        $what! {
            ()
            {
                GENERIC_PTR_MEM_SEMANTICS: [gives 1] [o is GenericPointer] [r is Int32];
                QUANTIZE_TO_F16: [gives 1] [r is Floats32] [o Same r];
                SAT_CONVERT_S_TO_U to SAT_CONVERT_U_TO_S, BIT_COUNT:
                    [gives 1] [o is Ints] [r is Ints] [o SameCount r];
                GENERIC_CAST_TO_PTR_EXPLICIT:
                    [gives 1] [o is GenericPointer] [r is NamedPointer] [CastClass] [o SamePointee r];
                VECTOR_TIMES_SCALAR: [gives 2] [r is Floats] [o Same r] [p ComponentOf r];
                DOT: [gives 2] [o is Floats] [o VectorOf r] [p Same o];
                I_ADD_CARRY to S_MUL_EXTENDED: [gives 2] [o is Ints] [p Same o] [r PairOf o];
                ANY to ALL: [gives 1] [r is Bool] [o VectorOf r];
                IS_NAN to SIGN_BIT_SET: [gives 1] [o is Floats] [r is Bools] [o SameCount r];
                BIT_FIELD_INSERT: [gives 4] [r is Ints] [o Same r] [p Same r] [q is Int] [3 is Int];
                BIT_FIELD_S_EXTRACT to BIT_FIELD_U_EXTRACT: [gives 3] [r is Ints] [o Same r] [p is Int] [q is Int];
                GROUP_ALL to GROUP_ANY, GROUP_NON_UNIFORM_ALL to GROUP_NON_UNIFORM_ANY:
                    [gives 2] [o is Int32] [r is Bool] [p Same r];
                GROUP_BROADCAST: [gives 3] [o is Int32] [r is Scalars] [p Same r] [q is FewInts];
                GROUP_I_ADD, GROUP_U_MIN to GROUP_S_MIN, GROUP_U_MAX to GROUP_S_MAX by around:
                    [gives 2] [o is Int32] [Scan] [r is Ints] [p Same r];
                GROUP_F_ADD to GROUP_F_MIN, GROUP_F_MAX by around:
                    [gives 2] [o is Int32] [Scan] [r is Floats] [p Same r];
                ATOMIC_FLAG_TEST_AND_SET: [gives 3] [o is Int32Pointer] [p is Int32] [q is Int32] [r is Bool];
                ATOMIC_FLAG_CLEAR: [takes 3] [o is Int32Pointer] [p is Int32] [q is Int32];
                SIZE_OF: [gives 1] [o is PlainPointer] [r is Int32];
                GROUP_NON_UNIFORM_ELECT: [gives 1] [o is Int32] [r is Bool];
                GROUP_NON_UNIFORM_ALL_EQUAL: [gives 2] [o is Int32] [p is Scalars] [r is Bool];
                GROUP_NON_UNIFORM_BROADCAST, GROUP_NON_UNIFORM_SHUFFLE to GROUP_NON_UNIFORM_SHUFFLE_DOWN,
                GROUP_NON_UNIFORM_QUAD_BROADCAST:
                    [gives 3] [o is Int32] [r is Scalars] [p Same r] [q is Int];
                GROUP_NON_UNIFORM_BROADCAST_FIRST: [gives 2] [o is Int32] [r is Scalars] [p Same r];
                GROUP_NON_UNIFORM_BALLOT: [gives 2] [o is Int32] [p is Bool] [r is Ballot];
                GROUP_NON_UNIFORM_INVERSE_BALLOT: [gives 2] [o is Int32] [p is Ballot] [r is Bool];
                GROUP_NON_UNIFORM_BALLOT_BIT_EXTRACT: [gives 3] [o is Int32] [p is Ballot] [q is Int] [r is Bool];
                GROUP_NON_UNIFORM_BALLOT_BIT_COUNT by around: [gives 2] [o is Int32] [Scan] [p is Ballot] [r is Int];
                GROUP_NON_UNIFORM_BALLOT_FIND_LSB to GROUP_NON_UNIFORM_BALLOT_FIND_MSB:
                    [gives 2] [o is Int32] [p is Ballot] [r is Int];
                GROUP_NON_UNIFORM_I_ADD, GROUP_NON_UNIFORM_I_MUL, GROUP_NON_UNIFORM_S_MIN to GROUP_NON_UNIFORM_U_MIN,
                GROUP_NON_UNIFORM_S_MAX to GROUP_NON_UNIFORM_U_MAX,
                GROUP_NON_UNIFORM_BITWISE_AND to GROUP_NON_UNIFORM_BITWISE_XOR by around:
                    [Cluster] [o is Int32] [r is Ints] [p Same r] [ClusterSize];
                GROUP_NON_UNIFORM_F_ADD, GROUP_NON_UNIFORM_F_MUL, GROUP_NON_UNIFORM_F_MIN,
                GROUP_NON_UNIFORM_F_MAX by around:
                    [Cluster] [o is Int32] [r is Floats] [p Same r] [ClusterSize];
                GROUP_NON_UNIFORM_LOGICAL_AND to GROUP_NON_UNIFORM_LOGICAL_XOR by around:
                    [Cluster] [o is Int32] [r is Bools] [p Same r] [ClusterSize];
                GROUP_NON_UNIFORM_QUAD_SWAP: [gives 3] [o is Int32] [r is Scalars] [p Same r] [q is Int] [constant q];
                COPY_LOGICAL by copied: [gives 1] [o Matches r];
                PTR_EQUAL to PTR_NOT_EQUAL: [gives 2] [o is Pointer] [p Same o] [r is Bool];
                PTR_DIFF: [gives 2] [o is Pointer] [p Same o] [r is Int];
                S_DOT to SU_DOT: [gives 2] [r is Int] [p Same o] [Packed];
                S_DOT_ACC_SAT to SU_DOT_ACC_SAT: [gives 3] [r is Int] [p Same o] [Packed] [q Same r];
            }
        }
    };
}

/// What it has besides of images, pipes, events and queues, and outside blocks.
macro_rules! objects {
    ($what:ident) => {
        $what! {
            ()
            {
                EXT_INST by nothing: [Extended];
                IMAGE_TEXEL_POINTER:
                    [gives 3] [o points to Image] [r TexelPointer o] [p Place o] [q is Int];
                GROUP_DECORATE by nothing: [Group] [NoMoreGroups];
                GROUP_MEMBER_DECORATE by nothing: [Group] [Members];
                SAMPLED_IMAGE: [gives 2] [o is image Sampled] [p is of Sampler] [r SampledImageOf o];
                IMAGE_SAMPLE_EXPLICIT_LOD by around:
                    [mask Sampled] [o is SampledImage] [p Coordinate o] [r is Four] [r Texel o] [sign of r]
                    [operands Sampled];
                IMAGE_FETCH by around:
                    [mask Read] [o is image Fetched] [p IntCoordinate o] [r is Four] [r Texel o] [ImageSample]
                    [sign of r] [operands Read];
                IMAGE_READ by around:
                    [mask Read] [o is image Stored] [p IntCoordinate o] [r Texel o] [ImageSample] [sign of r]
                    [operands Read];
                IMAGE_WRITE by around:
                    [mask Written] [o is image Stored] [p IntCoordinate o] [q Texel o] [ImageSample] [sign of q]
                    [operands Written];
                IMAGE: [gives 1] [o SampledImageOf r];
                IMAGE_QUERY_FORMAT to IMAGE_QUERY_ORDER: [gives 1] [o is of Image] [r is Int];
                IMAGE_QUERY_SIZE_LOD: [gives 2] [o is image Sized] [p is Int] [r Extent o];
                IMAGE_QUERY_SIZE: [gives 1] [o is image Flat] [r Extent o];
                IMAGE_QUERY_LEVELS: [gives 1] [o is image Leveled] [r is Int];
                IMAGE_QUERY_SAMPLES: [gives 1] [o is image Multisampled] [r is Int];
                GROUP_ASYNC_COPY:
                    [gives 6] [o is Int32] [p is NumbersPointer] [q SamePointee p] [q Across p] [3 is Size] [4 is Size]
                    [r is of Event] [5 Same r];
                GROUP_WAIT_EVENTS: [takes 3] [o is Int32] [p is Int32] [q points to Event];
                READ_PIPE: [gives 4] [o is pipe 0] [p is GenericPointer] [q is Int32] [3 is Int32] [r is Int32];
                WRITE_PIPE: [gives 4] [o is pipe 1] [p is GenericPointer] [q is Int32] [3 is Int32] [r is Int32];
                RESERVED_READ_PIPE:
                    [gives 6] [o is pipe 0] [p is of ReserveId] [q is Int32] [3 is GenericPointer] [4 is Int32]
                    [5 is Int32] [r is Int32];
                RESERVED_WRITE_PIPE:
                    [gives 6] [o is pipe 1] [p is of ReserveId] [q is Int32] [3 is GenericPointer] [4 is Int32]
                    [5 is Int32] [r is Int32];
                RESERVE_READ_PIPE_PACKETS:
                    [gives 4] [o is pipe 0] [p is Int32] [q is Int32] [3 is Int32] [r is of ReserveId];
                RESERVE_WRITE_PIPE_PACKETS:
                    [gives 4] [o is pipe 1] [p is Int32] [q is Int32] [3 is Int32] [r is of ReserveId];
                COMMIT_READ_PIPE: [takes 4] [o is pipe 0] [p is of ReserveId] [q is Int32] [3 is Int32];
                COMMIT_WRITE_PIPE: [takes 4] [o is pipe 1] [p is of ReserveId] [q is Int32] [3 is Int32];
                IS_VALID_RESERVE_ID: [gives 1] [o is of ReserveId] [r is Bool];
                GET_NUM_PIPE_PACKETS to GET_MAX_PIPE_PACKETS:
                    [gives 3] [o is of Pipe] [p is Int32] [q is Int32] [r is Int32];
                GROUP_RESERVE_READ_PIPE_PACKETS:
                    [gives 5] [o is Int32] [p is pipe 0] [q is Int32] [3 is Int32] [4 is Int32] [r is of ReserveId];
                GROUP_RESERVE_WRITE_PIPE_PACKETS:
                    [gives 5] [o is Int32] [p is pipe 1] [q is Int32] [3 is Int32] [4 is Int32] [r is of ReserveId];
                GROUP_COMMIT_READ_PIPE:
                    [takes 5] [o is Int32] [p is pipe 0] [q is of ReserveId] [3 is Int32] [4 is Int32];
                GROUP_COMMIT_WRITE_PIPE:
                    [takes 5] [o is Int32] [p is pipe 1] [q is of ReserveId] [3 is Int32] [4 is Int32];
                ENQUEUE_MARKER:
                    [gives 4] [o is of Queue] [p is Int32] [q points to DeviceEvent] [3 points to DeviceEvent]
                    [r is Int32];
                ENQUEUE_KERNEL by enqueued:
                    [o is of Queue] [p is Int32] [q is Range] [3 is Int32] [4 points to DeviceEvent]
                    [5 points to DeviceEvent] [6 is Int8Pointer] [7 is Int32] [8 is Int32] [block of 6]
                    [sizes after block of 6] [locals of block of 6] [r is Int32];
                GET_KERNEL_ND_RANGE_SUB_GROUP_COUNT to GET_KERNEL_ND_RANGE_MAX_SUB_GROUP_SIZE by beside p:
                    [gives 4] [o is Range] [p is Int8Pointer] [q is Int32] [3 is Int32] [block of p] [r is Int32];
                GET_KERNEL_WORK_GROUP_SIZE to GET_KERNEL_PREFERRED_WORK_GROUP_SIZE_MULTIPLE,
                GET_KERNEL_MAX_NUM_SUBGROUPS by beside o:
                    [gives 3] [o is Int8Pointer] [p is Int32] [q is Int32] [block of o] [r is Int32];
                RETAIN_EVENT to RELEASE_EVENT: [takes 1] [o is of DeviceEvent];
                CREATE_USER_EVENT by nothing: [r is of DeviceEvent];
                IS_VALID_EVENT: [gives 1] [o is of DeviceEvent] [r is Bool];
                SET_USER_EVENT_STATUS: [takes 2] [o is of DeviceEvent] [p is Int32];
                CAPTURE_EVENT_PROFILING_INFO: [takes 3] [o is of DeviceEvent] [p is Int32] [q is GlobalPointer];
                GET_DEFAULT_QUEUE by nothing: [r is of Queue];
                BUILD_ND_RANGE: [gives 3] [r is RangeStruct] [o is Sizes] [p Same o] [q Same o];
                CREATE_PIPE_FROM_PIPE_STORAGE: [gives 1] [o is of PipeStorage] [r is of Pipe];
                GET_KERNEL_LOCAL_SIZE_FOR_SUBGROUP_COUNT by beside p:
                    [gives 4] [o is Int32] [p is Int8Pointer] [q is Int32] [3 is Int32] [block of p] [r is Int32];
                NAMED_BARRIER_INITIALIZE: [gives 1] [o is Int32] [r is of NamedBarrier];
                MEMORY_NAMED_BARRIER: [takes 3] [o is of NamedBarrier] [p is Int32] [q is Int32];
                EXECUTION_MODE_ID by nothing: [ModeIds];
                DECORATE_ID by nothing: [DecorationIds];
                DECORATE_STRING to MEMBER_DECORATE_STRING by nothing: [Texts];
            }
        }
    };
}

/// Lines, as definitions read them.
macro_rules! lines {
    (() $({ $(
        $first:ident $(to $last:ident)? $(, $more:ident $(to $end:ident)?)* $(by $places:ident $($place:ident)?)?:
            $([$($ask:tt)+])+;
    )+ })+) => {
        [$($((
            &[(opcode::$first, last!($first $($last)?)) $(, (opcode::$more, last!($more $($end)?)))*],
            places!($($places $($place)?)?),
            &[$(asks!($($ask)+)),+],
        )),+),+]
    };
}

/// Lines, as the code reads them.
macro_rules! entries {
    (() $({ $(
        $first:ident $(to $last:ident)? $(, $more:ident $(to $end:ident)?)* $(by $places:ident $($place:ident)?)?:
            $([$($ask:tt)+])+;
    )+ })+) => {
        [$($(Entry {
            opcodes: &[(opcode::$first, last!($first $($last)?)) $(, (opcode::$more, last!($more $($end)?)))*],
            places: places!($($places $($place)?)?),
            asks: &[$(asks!($($ask)+)),+],
        }),+),+]
    };
}

/// The first opcode of each line.
macro_rules! firsts {
    (() $({ $(
        $first:ident $(to $last:ident)? $(, $more:ident $(to $end:ident)?)* $(by $places:ident $($place:ident)?)?:
            $([$($ask:tt)+])+;
    )+ })+) => {
        [$($(opcode::$first),+),+]
    };
}

/// How many lines come before those of the second part, and before those of the last one. Written by
/// `tests/rows-of-opcodes`.
const FURTHER_FROM: usize = 46;

const OBJECTS_FROM: usize = 82;

/// The table as definitions read it, and its two further parts.
pub static TABLE: [Line; 46] = table!(lines);

pub static FURTHER: [Line; 36] = further!(lines);

pub static OBJECTS: [Line; 49] = objects!(lines);

/// The same as the code reads them.
static ENTRIES: [Entry; 46] = table!(entries);

static FURTHER_ENTRIES: [Entry; 36] = further!(entries);

static OBJECT_ENTRIES: [Entry; 49] = objects!(entries);

/// The first opcode of each line of the first part.
static FIRSTS: [u16; 46] = table!(firsts);

/// For each opcode up to 403, and then for 4450 to 4455, 5632 and 5633, the number of its line, from 0, or 255 where it
/// has none. Written by `tests/rows-of-opcodes`.
static NUMBERS: [u8; 412] = [
    255, 0, 255, 255, 255, 255, 255, 255, 255, 255, 255, 255, 82, 255, 255, 255, 255, 255, 255,
    255, 255, 255, 255, 255, 255, 255, 255, 255, 255, 255, 255, 255, 255, 255, 255, 255, 255, 255,
    255, 255, 255, 255, 255, 255, 255, 255, 255, 255, 255, 255, 255, 255, 255, 255, 255, 255, 255,
    255, 255, 41, 83, 1, 2, 3, 4, 42, 42, 43, 255, 46, 43, 255, 255, 255, 84, 85, 255, 5, 6, 7, 44,
    8, 9, 10, 255, 255, 86, 255, 87, 255, 255, 255, 255, 255, 255, 88, 255, 255, 89, 90, 91, 92,
    92, 93, 94, 255, 95, 96, 255, 11, 11, 12, 12, 13, 13, 14, 47, 15, 48, 48, 16, 17, 18, 49, 19,
    255, 20, 21, 23, 24, 23, 24, 23, 24, 23, 23, 24, 23, 23, 23, 24, 24, 50, 255, 255, 255, 255,
    255, 51, 52, 52, 52, 52, 255, 53, 53, 54, 54, 54, 54, 54, 28, 28, 28, 25, 25, 25, 25, 22, 26,
    27, 27, 27, 27, 27, 27, 27, 27, 27, 27, 28, 28, 28, 28, 28, 28, 28, 28, 28, 28, 28, 28, 255,
    255, 29, 29, 29, 23, 23, 23, 20, 55, 56, 56, 20, 48, 255, 255, 255, 255, 255, 255, 255, 255,
    255, 255, 255, 255, 255, 255, 255, 255, 255, 255, 30, 31, 255, 32, 33, 34, 35, 35, 36, 36, 37,
    37, 37, 37, 37, 37, 37, 37, 37, 255, 255, 45, 255, 255, 255, 255, 38, 39, 255, 255, 255, 255,
    40, 40, 255, 97, 98, 57, 57, 58, 59, 60, 60, 59, 59, 60, 59, 59, 255, 255, 99, 100, 101, 102,
    103, 104, 105, 106, 107, 108, 108, 109, 110, 111, 112, 255, 255, 113, 114, 115, 115, 116, 116,
    117, 117, 118, 119, 120, 121, 122, 123, 255, 255, 255, 255, 255, 255, 255, 255, 255, 255, 255,
    255, 255, 61, 62, 255, 63, 255, 255, 124, 125, 116, 255, 126, 127, 255, 128, 129, 64, 57, 57,
    65, 66, 67, 68, 69, 70, 71, 72, 72, 66, 66, 66, 66, 73, 74, 73, 74, 73, 73, 74, 73, 73, 74, 73,
    73, 73, 75, 75, 75, 66, 76, 255, 255, 255, 255, 255, 255, 255, 255, 255, 255, 255, 255, 255,
    255, 255, 255, 255, 255, 255, 255, 255, 255, 255, 255, 255, 255, 255, 255, 255, 255, 255, 255,
    255, 77, 78, 78, 79, 80, 80, 80, 81, 81, 81, 130, 130,
];

/// What the table tells of an opcode.
#[derive(Clone, Copy)]
pub struct Found {
    /// The first opcode of its line, or 0.
    pub first: u16,
    pub places: Places,
}

/// Where the number of the line of an opcode stands in the list of numbers: past its end, where it has none.
#[inline(always)]
fn place_of(opcode: u16) -> usize
    ensures { result ≡ numbered_at opcode }
{
    let number = usize::from(opcode);
    if number <= 403 {
        number
    } else if 4450 <= number && number <= 4455 {
        number - 4046
    } else if 5632 <= number && number <= 5633 {
        number - 5222
    } else {
        412
    }
}

/// The number of the line of an opcode among all lines, from 0, or 255.
#[inline(always)]
fn number_in(numbers: &'static [u8], opcode: u16) -> usize
    ensures { result ≡ number_among numbers.now opcode }
{
    match numbers.get(place_of(opcode)) {
        Some(number) => usize::from(*number),
        None => 255,
    }
}

/// The number of the line of an opcode.
#[inline(always)]
fn number_of(opcode: u16) -> usize
    ensures { result ≡ line_number opcode }
{
    number_in(&NUMBERS, opcode)
}

/// What the first of some opcodes is, or 0.
#[inline(always)]
fn first_in(opcodes: &[(u16, u16)]) -> u16
    ensures { result ≡ first_from opcodes.now }
{
    match opcodes {
        [first, ..] => first.0,
        [] => 0,
    }
}

/// What the line of a number tells.
#[inline(always)]
fn found_in(entries: &'static [Entry], number: usize) -> Found
    ensures { result ≡ found_by (slice_get (map line entries.now) number) }
{
    match entries.get(number) {
        Some(entry) => Found {
            first: first_in(entry.opcodes),
            places: entry.places,
        },
        None => Found {
            first: 0,
            places: Places::Free,
        },
    }
}

/// The lines of the first part.
#[inline(always)]
fn first_entries() -> &'static [Entry]
    ensures { map line result.now ≡ TABLE }
{
    &ENTRIES
}

/// Those of the second part.
#[inline(always)]
fn further_entries() -> &'static [Entry]
    ensures { map line result.now ≡ FURTHER }
{
    &FURTHER_ENTRIES
}

/// Those of the last part.
#[inline(always)]
fn object_entries() -> &'static [Entry]
    ensures { map line result.now ≡ OBJECTS }
{
    &OBJECT_ENTRIES
}

/// What the line of a number in the first part tells.
#[inline(always)]
fn found_first(number: usize) -> Found
    ensures { result ≡ found_by (slice_get TABLE number) }
{
    found_in(first_entries(), number)
}

/// The same in the second part.
fn found_further(number: usize) -> Found
    ensures { result ≡ found_by (slice_get FURTHER number) }
{
    found_in(further_entries(), number)
}

/// The same in the last part.
fn found_object(number: usize) -> Found
    ensures { result ≡ found_by (slice_get OBJECTS number) }
{
    found_in(object_entries(), number)
}

/// What the line of a number among all lines tells.
#[inline(always)]
fn found_at(number: usize) -> Found
    ensures { result ≡ found_by (slice_get spec.lines number) }
{
    if number < FURTHER_FROM {
        found_first(number)
    } else if number < OBJECTS_FROM {
        found_further(number - FURTHER_FROM)
    } else {
        found_object(number - OBJECTS_FROM)
    }
}

/// What the table tells of an opcode. The first opcode of its line asks the same.
#[inline(always)]
pub fn look_up(opcode: u16) -> Found
    ensures first { result.first ≡ first_of opcode }
    ensures places { result.places ≡ spec.places_of opcode }
{
    found_at(number_of(opcode))
}

/// The first opcode of the line of an opcode, or 0.
#[inline(always)]
pub fn first_opcode(opcode: u16) -> u16
    ensures { result ≡ first_of opcode }
{
    let number = number_of(opcode);
    match FIRSTS.get(number) {
        Some(first) => *first,
        None => found_at(number).first,
    }
}

/// What the line of a number asks.
#[inline(always)]
fn asked_in(entries: &'static [Entry], number: usize) -> &'static [Asks]
    ensures { result.now ≡ asked_by (slice_get (map line entries.now) number) }
{
    match entries.get(number) {
        Some(entry) => entry.asks,
        None => &[],
    }
}

/// What the line of a number in the first part asks.
fn asked_first(number: usize) -> &'static [Asks]
    ensures { result.now ≡ asked_by (slice_get TABLE number) }
{
    asked_in(first_entries(), number)
}

/// The same in the second part.
fn asked_further(number: usize) -> &'static [Asks]
    ensures { result.now ≡ asked_by (slice_get FURTHER number) }
{
    asked_in(further_entries(), number)
}

/// The same in the last part.
fn asked_object(number: usize) -> &'static [Asks]
    ensures { result.now ≡ asked_by (slice_get OBJECTS number) }
{
    asked_in(object_entries(), number)
}

/// What the line of a number among all lines asks.
fn asked_at(number: usize) -> &'static [Asks]
    ensures { result.now ≡ asked_by (slice_get spec.lines number) }
{
    if number < FURTHER_FROM {
        asked_first(number)
    } else if number < OBJECTS_FROM {
        asked_further(number - FURTHER_FROM)
    } else {
        asked_object(number - OBJECTS_FROM)
    }
}

/// What an opcode asks.
pub fn asks_of(opcode: u16) -> &'static [Asks]
    ensures { result.now ≡ spec.asks_of opcode }
{
    asked_at(number_of(opcode))
}

/// Whether what an opcode asks holds, one condition after another.
#[inline(always)]
fn all_hold(
    definitions: &Definitions,
    number: u32,
    inst: &Inst,
    opcode: u16,
    r: Option<u32>,
    types: &[u32],
) -> bool
    requires number { number < length definitions.now }
    requires few { length types.now < 4294967296 }
    requires direct { are_direct (spec.asks_of opcode) ≡ true }
    ensures { IsTrue result ↔ LineHolds definitions.now number (plain_inst inst.now) opcode r types.now }
{
    match first_failing(definitions, number, inst, r, types, asks_of(opcode)) {
        Some(_) => false,
        None => true,
    }
}

/// Two conditions and more, one after another.
#[inline(always)]
fn two_hold(
    definitions: &Definitions,
    number: u32,
    inst: &Inst,
    r: Option<u32>,
    types: &[u32],
    a: Asked,
    b: Asked,
) -> bool
    requires { number < length definitions.now }
    ensures { IsTrue result ↔ AllDirectly definitions.now number (plain_inst inst.now) r types.now (a ∷ b ∷ []) }
{
    holds(definitions, number, inst, r, types, a) && holds(definitions, number, inst, r, types, b)
}

#[inline(always)]
fn three_hold(
    definitions: &Definitions,
    number: u32,
    inst: &Inst,
    r: Option<u32>,
    types: &[u32],
    a: Asked,
    b: Asked,
    c: Asked,
) -> bool
    requires { number < length definitions.now }
    ensures { IsTrue result ↔ AllDirectly definitions.now number (plain_inst inst.now) r types.now
        (a ∷ b ∷ c ∷ []) }
{
    holds(definitions, number, inst, r, types, a)
        && two_hold(definitions, number, inst, r, types, b, c)
}

#[inline(always)]
fn four_hold(
    definitions: &Definitions,
    number: u32,
    inst: &Inst,
    r: Option<u32>,
    types: &[u32],
    a: Asked,
    b: Asked,
    c: Asked,
    d: Asked,
) -> bool
    requires { number < length definitions.now }
    ensures { IsTrue result ↔ AllDirectly definitions.now number (plain_inst inst.now) r types.now
        (a ∷ b ∷ c ∷ d ∷ []) }
{
    holds(definitions, number, inst, r, types, a)
        && three_hold(definitions, number, inst, r, types, b, c, d)
}

#[inline(always)]
fn five_hold(
    definitions: &Definitions,
    number: u32,
    inst: &Inst,
    r: Option<u32>,
    types: &[u32],
    a: Asked,
    b: Asked,
    c: Asked,
    d: Asked,
    e: Asked,
) -> bool
    requires { number < length definitions.now }
    ensures { IsTrue result ↔ AllDirectly definitions.now number (plain_inst inst.now) r types.now
        (a ∷ b ∷ c ∷ d ∷ e ∷ []) }
{
    holds(definitions, number, inst, r, types, a)
        && four_hold(definitions, number, inst, r, types, b, c, d, e)
}

#[inline(always)]
fn six_hold(
    definitions: &Definitions,
    number: u32,
    inst: &Inst,
    r: Option<u32>,
    types: &[u32],
    a: Asked,
    b: Asked,
    c: Asked,
    d: Asked,
    e: Asked,
    f: Asked,
) -> bool
    requires { number < length definitions.now }
    ensures { IsTrue result ↔ AllDirectly definitions.now number (plain_inst inst.now) r types.now
        (a ∷ b ∷ c ∷ d ∷ e ∷ f ∷ []) }
{
    holds(definitions, number, inst, r, types, a)
        && five_hold(definitions, number, inst, r, types, b, c, d, e, f)
}

/// A call with what is known, and conditions.
macro_rules! call {
    ($function:ident ($($known:ident)+) $([$($ask:tt)+])+) => {
        $function($($known),+, $(condition!($($ask)+)),+)
    };
}

/// Whether all conditions of a line hold.
macro_rules! conditions {
    ($known:tt $a:tt) => { call!(holds $known $a) };
    ($known:tt $a:tt $b:tt) => { call!(two_hold $known $a $b) };
    ($known:tt $a:tt $b:tt $c:tt) => { call!(three_hold $known $a $b $c) };
    ($known:tt $a:tt $b:tt $c:tt $d:tt) => { call!(four_hold $known $a $b $c $d) };
    ($known:tt $a:tt $b:tt $c:tt $d:tt $e:tt) => { call!(five_hold $known $a $b $c $d $e) };
    ($known:tt $a:tt $b:tt $c:tt $d:tt $e:tt $f:tt) => { call!(six_hold $known $a $b $c $d $e $f) };
    ($known:tt $a:tt $b:tt $c:tt $d:tt $e:tt $f:tt $($others:tt)+) => {
        call!(six_hold $known $a $b $c $d $e $f) && conditions!($known $($others)+)
    };
}

/// The call for an opcode that no line of a group begins with.
macro_rules! onward {
    ($others:ident $opcode:ident ($definitions:ident $number:ident $inst:ident $r:ident $types:ident)) => {
        $others($definitions, $number, $inst, $opcode, $r, $types)
    };
}

/// The lines of a group as code.
macro_rules! group {
    ($others:ident $opcode:ident $known:tt $(
        $first:ident $(to $last:ident)? $(, $more:ident $(to $end:ident)?)* $(by $places:ident $($place:ident)?)?:
            $([$($ask:tt)+])+;
    )+) => {
        match $opcode {
            $(opcode::$first => conditions!($known $([$($ask)+])+),)+
            _ => onward!($others $opcode $known),
        }
    };
}

/// The lines of the group of a number as code. The first opcode of a line is decided at once, and all others by the
/// function that is named.
macro_rules! decided {
    ((first $others:ident $opcode:ident $($known:ident)+) { $($lines:tt)+ } $($groups:tt)+) => {
        group!($others $opcode ($($known)+) $($lines)+)
    };
    ((second $($name:ident)+) $group:tt $($groups:tt)+) => { decided!((first $($name)+) $($groups)+) };
    ((third $($name:ident)+) $group:tt $($groups:tt)+) => { decided!((second $($name)+) $($groups)+) };
    ((fourth $($name:ident)+) $group:tt $($groups:tt)+) => { decided!((third $($name)+) $($groups)+) };
}

/// `line_holds` of what is in the fourth group or in none.
#[tactic(auto, unfolding(crate::specs::Table::lines))]
#[inline(always)]
fn atomic_holds(
    definitions: &Definitions,
    number: u32,
    inst: &Inst,
    opcode: u16,
    r: Option<u32>,
    types: &[u32],
) -> bool
    requires number { number < length definitions.now }
    requires few { length types.now < 4294967296 }
    requires direct { are_direct (spec.asks_of opcode) ≡ true }
    ensures { IsTrue result ↔ LineHolds definitions.now number (plain_inst inst.now) opcode r types.now }
{
    table!(decided fourth all_hold opcode definitions number inst r types)
}

/// The same of what is in the third group or behind it.
#[tactic(auto, unfolding(crate::specs::Table::lines))]
#[inline(always)]
fn computed_holds(
    definitions: &Definitions,
    number: u32,
    inst: &Inst,
    opcode: u16,
    r: Option<u32>,
    types: &[u32],
) -> bool
    requires number { number < length definitions.now }
    requires few { length types.now < 4294967296 }
    requires direct { are_direct (spec.asks_of opcode) ≡ true }
    ensures { IsTrue result ↔ LineHolds definitions.now number (plain_inst inst.now) opcode r types.now }
{
    table!(decided third atomic_holds opcode definitions number inst r types)
}

/// The same of what is in the second group or behind it.
#[tactic(auto, unfolding(crate::specs::Table::lines))]
#[inline(always)]
fn converted_holds(
    definitions: &Definitions,
    number: u32,
    inst: &Inst,
    opcode: u16,
    r: Option<u32>,
    types: &[u32],
) -> bool
    requires number { number < length definitions.now }
    requires few { length types.now < 4294967296 }
    requires direct { are_direct (spec.asks_of opcode) ≡ true }
    ensures { IsTrue result ↔ LineHolds definitions.now number (plain_inst inst.now) opcode r types.now }
{
    table!(decided second computed_holds opcode definitions number inst r types)
}

/// Whether what an opcode asks holds at the instruction of a number: of its result type, if it has one, and of the
/// types of its value operands in order. The first opcodes of lines are the fast ones.
#[tactic(auto, unfolding(crate::specs::Table::lines))]
pub fn line_holds(
    definitions: &Definitions,
    number: u32,
    inst: &Inst,
    opcode: u16,
    r: Option<u32>,
    types: &[u32],
) -> bool
    requires number { number < length definitions.now }
    requires few { length types.now < 4294967296 }
    requires direct { are_direct (spec.asks_of opcode) ≡ true }
    ensures { IsTrue result ↔ LineHolds definitions.now number (plain_inst inst.now) opcode r types.now }
{
    table!(decided first converted_holds opcode definitions number inst r types)
}
