use spv_type_kinds::{Kind, Relation};

/// A condition of Y2, Y4 or Y5.
#[derive(Clone, Copy, PartialEq, Eq)]
pub enum Condition {
    /// Of the type of an operand: what it is.
    Kind(Kind),
    /// Of the type of an operand: how it stands to another one.
    Relation(Relation),
    /// An OpBranchConditional has no weights, or two (Y5).
    Weights,
    /// The storage class of an OpVariable is that of the pointer that is its result type (Y5).
    StorageClass,
    /// The storage class of an OpVariable is Function in a function, and outside neither Function nor Generic (Y5).
    ClassHere,
    /// The initializer of an OpVariable is a constant or a variable outside functions (Y5).
    Initializer,
    /// The type of the initializer of an OpVariable is the one that its result type points to (Y5).
    InitializerType,
    /// An index of an access chain leads to a part: at a struct it is an OpConstant, the number of a member; else the
    /// type before it has parts (Y5).
    Chosen,
    /// The result type of an access chain is a pointer to the type that the indexes lead to (Y5).
    Leads,
    /// The width of an OpTypeInt is 8, 16, 32 or 64 (Y2).
    IntWidth,
    /// The signedness of an OpTypeInt is 0 (Y2).
    Signedness,
    /// The width of an OpTypeFloat is 16, 32 or 64 (Y2).
    FloatWidth,
    /// The component type of an OpTypeVector is an int, float or bool type (Y2).
    Scalar,
    /// The count of an OpTypeVector is 2, 3, 4, 8 or 16 (Y2).
    VectorCount,
    /// The length of an OpTypeArray is a constant of int type, 1 at least (Y2).
    Length,
    /// What an OpTypePointer points to is a data type or an opaque type (Y2).
    Pointee,
    /// What an OpTypeFunction returns is void or a data type (Y2).
    Returned,
    /// An OpTypeForwardPointer names a pointer of its storage class that is declared after it (Y2).
    Forward,
    /// The sampled type of an OpTypeImage is void, an int or a float (Y2).
    SampledType,
    /// The depth of an OpTypeImage is 0, 1 or 2 (Y2).
    Depth,
    /// Arrayed of an OpTypeImage is 0 or 1 (Y2).
    Arrayed,
    /// MS of an OpTypeImage is 0 or 1 (Y2).
    SampleCount,
    /// Sampled of an OpTypeImage is 0, 1 or 2 (Y2).
    SampledUse,
    /// The type of an OpTypeSampledImage is an image type of another dimension than Buffer and SubpassData (Y2).
    Dimension,
    /// The operands are those that the declaration has (Y2), or the constant (Y4).
    Operands,
    /// The number of an OpConstant fits the width of its type (Y4).
    FitsWidth,
    /// The type of an OpConstantNull is a data type that has a null value (Y4).
    Nullable,
    /// Whether an OpConstantSampler has normalized coordinates is told by 0 or 1 (Y4).
    Normalized,
    /// There are as many constituents as the type has parts (Y4, Y5).
    Count,
    /// A constituent is a constant or an OpUndef, of the type of the part at its place (Y4).
    Constituent,
    /// There is an index (Y5).
    Indexes,
    /// The index is that of a part of the type that the indexes before it lead to (Y5).
    Within,
    /// Of the type of an operand: it is the one that the indexes lead to (Y5).
    Reached,
    /// Of the result type of an OpVectorShuffle: it has as many components as there are literals (Y5).
    ComponentCount,
    /// A literal of an OpVectorShuffle is the number of a component, or 4294967295 (Y5).
    Component,
    /// There are two constituents or more of a vector (Y5).
    Several,
    /// Of the type of a constituent of a vector: it is its component type, or a vector of that (Y5).
    Share,
    /// The constituents have as many components together as the result type, a vector (Y5).
    Filled,
    /// Of the type of a constituent of a struct or an array: it is that of the part at its place (Y5).
    Part,
    /// The storage class that an OpGenericCastToPtrExplicit names is that of the pointer that is its result
    /// type (Y5).
    CastClass,
    /// A group operation is not one of clusters (Y5).
    Scan,
    /// There is a size of clusters where the group operation is one of clusters, and else none (Y5).
    Cluster,
    /// The size of clusters is a constant of int type (Y5).
    ClusterSize,
    /// An operand is a constant (Y5).
    Constant,
    /// Of the type of the first operand of a dot product: it is an int of width 32 where there is a packed
    /// vector format, and else a vector of ints that are no wider than the result (Y5).
    Packed,
    /// The mask of image operands is one that the opcode takes, and there are as many values as it asks for
    /// (Y5).
    ImageMask,
    /// Sample is among the image operands if and only if the images have several samples (Y5).
    ImageSample,
    /// SignExtend and ZeroExtend are among the image operands of texels of ints alone (Y5).
    ImageSign,
    /// The values of the image operands are of their types (Y5).
    ImageOperands,
    /// An OpExtInst outside blocks gives void, and is of a set of debug information or one that is non-semantic
    /// (Y5).
    Extended,
    /// The operands of an OpExecutionModeId after the mode are constants of int type, one or more (Y5).
    ModeIds,
    /// The operands of an OpDecorateId after the decoration are constants or variables outside functions, one
    /// or more (Y5).
    DecorationIds,
    /// The operands of an OpDecorateString or OpMemberDecorateString after the decoration are texts, one or
    /// more (Y5).
    Texts,
    /// The first operand of an OpGroupDecorate or OpGroupMemberDecorate is an OpDecorationGroup (Y5).
    Group,
    /// The other operands of an OpGroupDecorate are no OpDecorationGroup (Y5).
    NoMoreGroups,
    /// Each pair of an OpGroupMemberDecorate is a struct type and the number of a member (Y5).
    Members,
    /// The id before the first value of a block is a function that returns void, and whose first parameter is of
    /// the type of that value (Y5).
    Block,
    /// Each value of an OpEnqueueKernel after the block is an int or a pointer to one (Y5).
    LocalSizes,
    /// The function of an OpEnqueueKernel has a parameter more for each of these values and no other, each a
    /// pointer of the storage class Workgroup (Y5).
    Locals,
}
