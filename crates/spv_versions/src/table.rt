//! Table V, and table X behind it: in which version what came first, and which extensions have it.

ghost use Rattle.std.specs.Prelude.{◌≡◌, ◌↔◌, IsTrue, map, option_map, slice_index};
ghost use Rattle.spv_versions.specs.Table as spec;
ghost use Rattle.spv_versions.specs.inner.Lines.{plain_line};
ghost use Rattle.spv_versions.specs.inner.Told as told;
ghost use Rattle.spv_versions.specs.inner.Told.{place_of};

/// A kind of numbers: opcodes, or a kind of operands by its name in a grammar.
#[derive(Clone, Copy, Debug, PartialEq, Eq)]
pub enum Kind {
    Opcode,
    Capability,
    ExecutionMode,
    Decoration,
    BuiltIn,
    LoopControl,
    ImageOperands,
    GroupOperation,
    PackedVectorFormat,
    LinkageType,
}

/// A line: a kind, its numbers from one to another, the minor number of the first version that has them, if one has,
/// and the names of the extensions that have them.
pub type Line = (Kind, u32, u32, Option<u8>, &'static [&'static str]);

/// The first version of a line, by its minor number; `no` version has what stands in table X.
macro_rules! since {
    (no) => { None };
    ($minor:literal) => { Some($minor) };
}

/// A line by its words.
macro_rules! line {
    ($kind:ident $from:literal $to:literal, $since:tt, [$($name:literal),*]) => {
        (Kind::$kind, $from, $to, since!($since), &[$($name),*])
    };
}

/// How many lines there are.
pub const COUNT: usize = 97;

/// How many of them have a first version, or may have one: the lines of table V, which come first.
pub const DATED: usize = 39;

/// The lines of both tables (Khronos' grammar file of SPIR-V 1.6, revision 1). Each number of a kind is on one at most.
pub static TABLE: [Line; COUNT] = [
    // Table V: first versions.
    line!(Opcode 321 321, 1, []),
    line!(Opcode 330 330, 1, []),
    line!(Opcode 331 331, 2, []),
    line!(Opcode 332 332, 2, ["SPV_GOOGLE_hlsl_functionality1"]),
    line!(Opcode 400 403, 4, []),
    line!(Opcode 5632 5633, 4, ["SPV_GOOGLE_decorate_string", "SPV_GOOGLE_hlsl_functionality1"]),
    line!(Capability 58 60, 1, []),
    line!(Capability 61 68, 3, []),
    line!(Capability 69 70, 5, []),
    line!(Capability 71 71, 6, []),
    line!(Capability 4433 4436, 3, ["SPV_KHR_16bit_storage"]),
    line!(Capability 4437 4437, 3, ["SPV_KHR_device_group"]),
    line!(Capability 4448 4450, 5, ["SPV_KHR_8bit_storage"]),
    line!(Capability 4464 4468, 4, ["SPV_KHR_float_controls"]),
    line!(Capability 5304 5305, 5, ["SPV_EXT_descriptor_indexing"]),
    line!(Capability 5345 5346, 5, ["SPV_KHR_vulkan_memory_model"]),
    line!(Capability 6016 6019, 6, ["SPV_KHR_integer_dot_product"]),
    line!(ExecutionMode 33 36, 1, []),
    line!(ExecutionMode 37 39, 2, []),
    line!(ExecutionMode 4459 4463, 4, ["SPV_KHR_float_controls"]),
    line!(Decoration 45 45, 1, []),
    line!(Decoration 46 47, 2, []),
    line!(Decoration 27 27, 4, []),
    line!(Decoration 4469 4470, 4, ["SPV_KHR_no_integer_wrap_decoration"]),
    line!(Decoration 5634 5635, 4, ["SPV_GOOGLE_hlsl_functionality1"]),
    line!(BuiltIn 4416 4420, 3, ["SPV_KHR_shader_ballot"]),
    line!(BuiltIn 4438 4438, 3, ["SPV_KHR_device_group"]),
    line!(LoopControl 4 4, 1, []),
    line!(LoopControl 8 8, 1, []),
    line!(LoopControl 16 16, 4, []),
    line!(LoopControl 32 32, 4, []),
    line!(LoopControl 64 64, 4, []),
    line!(LoopControl 128 128, 4, []),
    line!(LoopControl 256 256, 4, []),
    line!(ImageOperands 4096 4096, 4, []),
    line!(ImageOperands 8192 8192, 4, []),
    line!(ImageOperands 16384 16384, 6, []),
    line!(GroupOperation 3 3, 3, []),
    line!(PackedVectorFormat 0 0, 6, ["SPV_KHR_integer_dot_product"]),
    // Table X: what no version has without its extension.
    line!(Capability 4423 4423, no, ["SPV_KHR_shader_ballot"]),
    line!(Capability 4431 4431, no, ["SPV_KHR_subgroup_vote"]),
    line!(Capability 4445 4445, no, ["SPV_KHR_shader_atomic_counter_ops"]),
    line!(Capability 4447 4447, no, ["SPV_KHR_post_depth_coverage"]),
    line!(Capability 5282 5282, no, ["SPV_NV_shader_image_footprint"]),
    line!(Capability 5284 5284, no, ["SPV_NV_fragment_shader_barycentric", "SPV_KHR_fragment_shader_barycentric"]),
    line!(Capability 5288 5288, no, ["SPV_NV_compute_shader_derivatives"]),
    line!(Capability 5350 5350, no, ["SPV_NV_compute_shader_derivatives"]),
    line!(Capability 5297 5297, no, ["SPV_NV_shader_subgroup_partitioned"]),
    line!(Capability 5390 5390, no, ["SPV_NV_bindless_texture"]),
    line!(Capability 5568 5570, no, ["SPV_INTEL_subgroups"]),
    line!(Capability 5579 5579, no, ["SPV_INTEL_media_block_io"]),
    line!(Capability 5582 5583, no, ["SPV_INTEL_float_controls2"]),
    line!(Capability 5821 5821, no, ["SPV_INTEL_float_controls2"]),
    line!(Capability 5603 5604, no, ["SPV_INTEL_function_pointers"]),
    line!(Capability 5606 5606, no, ["SPV_INTEL_inline_assembly"]),
    line!(Capability 5612 5613, no, ["SPV_EXT_shader_atomic_float_min_max"]),
    line!(Capability 5616 5616, no, ["SPV_EXT_shader_atomic_float_min_max"]),
    line!(Capability 5617 5617, no, ["SPV_INTEL_vector_compute"]),
    line!(Capability 5619 5619, no, ["SPV_INTEL_vector_compute"]),
    line!(Capability 5629 5629, no, ["SPV_KHR_expect_assume"]),
    line!(Capability 5696 5698, no, ["SPV_INTEL_device_side_avc_motion_estimation"]),
    line!(Capability 5817 5817, no, ["SPV_INTEL_variable_length_array"]),
    line!(Capability 5824 5824, no, ["SPV_INTEL_fpga_memory_attributes"]),
    line!(Capability 5837 5837, no, ["SPV_INTEL_fp_fast_math_mode"]),
    line!(Capability 5844 5844, no, ["SPV_INTEL_arbitrary_precision_integers"]),
    line!(Capability 5845 5845, no, ["SPV_INTEL_arbitrary_precision_floating_point"]),
    line!(Capability 5886 5886, no, ["SPV_INTEL_unstructured_loop_controls"]),
    line!(Capability 5888 5888, no, ["SPV_INTEL_fpga_loop_controls"]),
    line!(Capability 5892 5892, no, ["SPV_INTEL_kernel_attributes"]),
    line!(Capability 5897 5897, no, ["SPV_INTEL_kernel_attributes"]),
    line!(Capability 5898 5898, no, ["SPV_INTEL_fpga_memory_accesses"]),
    line!(Capability 5904 5904, no, ["SPV_INTEL_fpga_cluster_attributes"]),
    line!(Capability 5906 5906, no, ["SPV_INTEL_loop_fuse"]),
    line!(Capability 5908 5908, no, ["SPV_INTEL_fpga_dsp_control"]),
    line!(Capability 5910 5910, no, ["SPV_INTEL_memory_access_aliasing"]),
    line!(Capability 5916 5916, no, ["SPV_INTEL_fpga_invocation_pipelining_attributes"]),
    line!(Capability 5920 5920, no, ["SPV_INTEL_fpga_buffer_location"]),
    line!(Capability 5922 5922, no, ["SPV_INTEL_arbitrary_precision_fixed_point"]),
    line!(Capability 5935 5935, no, ["SPV_INTEL_usm_storage_classes"]),
    line!(Capability 5939 5939, no, ["SPV_INTEL_runtime_aligned"]),
    line!(Capability 5943 5943, no, ["SPV_INTEL_io_pipes"]),
    line!(Capability 5945 5945, no, ["SPV_INTEL_blocking_pipes"]),
    line!(Capability 5948 5948, no, ["SPV_INTEL_fpga_reg"]),
    line!(Capability 6020 6020, no, ["SPV_KHR_ray_cull_mask"]),
    line!(Capability 6025 6025, no, ["SPV_KHR_bit_instructions"]),
    line!(Capability 6026 6026, no, ["SPV_KHR_subgroup_rotate"]),
    line!(Capability 6033 6034, no, ["SPV_EXT_shader_atomic_float_add"]),
    line!(Capability 6089 6089, no, ["SPV_INTEL_long_constant_composite"]),
    line!(Capability 6094 6094, no, ["SPV_INTEL_optnone"]),
    line!(Capability 6095 6095, no, ["SPV_EXT_shader_atomic_float16_add"]),
    line!(Capability 6114 6114, no, ["SPV_INTEL_debug_module"]),
    line!(Capability 6141 6141, no, ["SPV_INTEL_split_barrier"]),
    line!(Capability 6400 6400, no, ["SPV_KHR_uniform_group_instructions"]),
    line!(LinkageType 2 2, no, ["SPV_KHR_linkonce_odr"]),
    line!(Decoration 4999 4999, no, ["SPV_AMD_shader_explicit_vertex_parameter"]),
    line!(Decoration 5636 5636, no, ["SPV_GOOGLE_user_type"]),
    line!(BuiltIn 4992 4998, no, ["SPV_AMD_shader_explicit_vertex_parameter"]),
];

impl Kind {
    /// The name that a kind of operands has in a grammar; opcodes are no operands.
    pub fn name(self) -> Option<&'static str>
        ensures { option_map (λ s. s.now) result ≡ spec.name_of self }
    {
        match self {
            Kind::Opcode => None,
            Kind::Capability => Some("Capability"),
            Kind::ExecutionMode => Some("ExecutionMode"),
            Kind::Decoration => Some("Decoration"),
            Kind::BuiltIn => Some("BuiltIn"),
            Kind::LoopControl => Some("LoopControl"),
            Kind::ImageOperands => Some("ImageOperands"),
            Kind::GroupOperation => Some("GroupOperation"),
            Kind::PackedVectorFormat => Some("PackedVectorFormat"),
            Kind::LinkageType => Some("LinkageType"),
        }
    }
}

/// How many kinds of numbers there are.
pub const ALL_KINDS: usize = 10;

/// By the place of a kind a number that no number of the kind in table X is below. It is reckoned from the table by
/// hand, and compared with it by a proof: a new line of table X may lower a number here.
pub static UNDATED: [u32; ALL_KINDS] = [
    u32::MAX,
    4423,
    u32::MAX,
    4999,
    4992,
    u32::MAX,
    u32::MAX,
    u32::MAX,
    u32::MAX,
    2,
];

/// By the place of a kind the bits of its numbers below 64 that a line of the tables is of. They are reckoned from the
/// tables by hand, and compared with them by a proof: a new line may add some here.
pub static LOW: [u64; ALL_KINDS] = [
    0,
    0xfc00_0000_0000_0000,
    0xfe_0000_0000,
    0xe000_0800_0000,
    0,
    0x1_0001_0110,
    0,
    0x8,
    0x1,
    0x4,
];

/// How many kinds of operands there are of which the table speaks.
pub const KIND_COUNT: usize = 9;

/// The kinds of operands of which the table speaks.
pub static KINDS: [Kind; KIND_COUNT] = [
    Kind::Capability,
    Kind::ExecutionMode,
    Kind::Decoration,
    Kind::BuiltIn,
    Kind::LoopControl,
    Kind::ImageOperands,
    Kind::GroupOperation,
    Kind::PackedVectorFormat,
    Kind::LinkageType,
];

/// The lines of both tables.
pub fn table() -> &'static [Line; COUNT]
    ensures { map plain_line result.now ≡ spec.lines }
{
    &TABLE
}

/// These numbers.
pub fn undated() -> [u32; ALL_KINDS]
    ensures { result ≡ told.undated }
{
    UNDATED
}

/// These bits.
pub fn low() -> &'static [u64; ALL_KINDS]
    ensures { result.now ≡ told.low }
{
    &LOW
}

/// The bits of the numbers of a kind below 64 that a line of the tables is of.
pub fn low_bits(kind: Kind) -> u64
    ensures { result ≡ slice_index told.low (place_of kind) }
{
    low()[kind as usize]
}

/// These kinds.
pub fn kinds() -> &'static [Kind; KIND_COUNT]
    ensures { result.now ≡ told.kinds }
{
    &KINDS
}

/// Whether a version is before the first one of a line.
pub fn is_before(minor: u8, first: Option<u8>) -> bool
    ensures { IsTrue result ↔ spec.IsBefore minor first }
{
    match first {
        Some(first) => minor < first,
        None => true,
    }
}
