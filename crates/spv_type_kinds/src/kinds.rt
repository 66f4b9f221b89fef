//! What a condition asks of types: kinds of them, and how two stand to each other.

/// What an opaque type of OpenCL is of (SPIR-V Specification 1.6, sections 3.49.6 and 2.2.2).
#[derive(Clone, Copy, PartialEq, Eq)]
pub enum Object {
    Image,
    Sampler,
    Event,
    DeviceEvent,
    ReserveId,
    Queue,
    Pipe,
    PipeStorage,
    NamedBarrier,
}

/// What images of a type are to be (SPIR-V Specification 1.6, section 3.49.10).
#[derive(Clone, Copy, PartialEq, Eq)]
pub enum Images {
    /// They may be sampled.
    Sampled,
    /// They are fetched from: sampled, and no cubes.
    Fetched,
    /// They may be read and written without a sampler.
    Stored,
    /// They have levels of their own sizes: 1D, 2D, 3D or cubes, without several samples.
    Sized,
    /// They have levels: 1D, 2D, 3D or cubes.
    Leveled,
    /// They have one size: rectangles or buffers, with several samples, or not known to be sampled.
    Flat,
    /// They are 2D, with several samples.
    Multisampled,
}

/// What the type of an operand is to be.
#[derive(Clone, Copy, PartialEq, Eq)]
pub enum Kind {
    /// An int.
    Int,
    /// An int of width 32.
    Int32,
    /// An int or a float.
    Number,
    Bool,
    /// A data type: a plain one, or a type of objects.
    Data,
    /// An int, float, bool, vector, array, struct or pointer type.
    Plain,
    /// An int, or a vector of ints.
    Ints,
    /// A float, or a vector of floats.
    Floats,
    /// A bool, or a vector of bools.
    Bools,
    Pointer,
    /// A pointer of the storage class Function.
    FunctionPointer,
    /// A pointer of the storage class Generic.
    GenericPointer,
    /// A pointer of the storage class Workgroup, CrossWorkgroup or Function.
    NamedPointer,
    Vector,
    /// A vector, a struct or an array.
    Composite,
    /// A scalar, or a vector of scalars.
    Scalars,
    /// A float of width 32, or a vector of them.
    Floats32,
    /// An int, or a vector of two or three ints.
    FewInts,
    /// A vector of four ints of width 32.
    Ballot,
    /// A pointer to an int of width 8.
    Int8Pointer,
    /// A pointer to an int of width 32.
    Int32Pointer,
    /// A pointer to a plain type.
    PlainPointer,
    /// A pointer of the storage class CrossWorkgroup.
    GlobalPointer,
    /// A type of such objects.
    Object(Object),
    /// A pointer to a type of such objects.
    ObjectPointer(Object),
    /// A pipe type of the access qualifier of that number: 0 of pipes that are read, 1 of those that are written.
    Pipe(u32),
    /// An int that is as wide as a size.
    Size,
    /// A size, or an array of two or three sizes.
    Sizes,
    /// A struct type of a range of work items: an int of width 32, and three arrays of three sizes.
    RangeStruct,
    /// That, or a pointer to it.
    Range,
    /// A pointer to ints or floats.
    NumbersPointer,
    /// An image type of such images.
    Image(Images),
    /// A sampled image type of images without several samples.
    SampledImage,
    /// A vector of four components.
    Four,
}

/// How the type of an operand is to stand to another type, the one that is wanted.
#[derive(Clone, Copy, PartialEq, Eq)]
pub enum Relation {
    /// It is that type.
    Same,
    /// It has as many components.
    SameCount,
    /// Its components have another width.
    OtherWidth,
    /// It has as many bits, or both are pointers of one storage class.
    SameBits,
    /// It is bool, or a vector of as many bools as that type, a vector, has components.
    Chooses,
    /// It is a pointer to that type.
    PointsTo,
    /// Both are pointers, to one type.
    SamePointee,
    /// Both are pointers, of one storage class.
    SameClass,
    /// It is a vector of that type.
    VectorOf,
    /// It is the component type of that vector.
    ComponentOf,
    /// Both are vectors, of one component type.
    SameComponent,
    /// It is a struct of two members, both of that type.
    PairOf,
    /// Both are pointers, one of the storage class Workgroup and one of CrossWorkgroup.
    Across,
    /// It is the sampled image type of that type.
    SampledImageOf,
    /// It is a pointer of the storage class Image to the sampled type of the image type that that one points to.
    TexelPointer,
    /// It has ints, one for each coordinate of the images of that type.
    Place,
    /// It has ints, one for each coordinate of the images of that type, or more.
    IntCoordinate,
    /// It has ints or floats, one for each coordinate of the images of that type, or more.
    Coordinate,
    /// It has ints, one for each number of the size of the images of that type.
    Extent,
    /// It has the components of the texels of the images of that type.
    Texel,
    /// It is another type, which matches that one.
    Matches,
}
